//! Jobs that an arbitrator admits and retires.
use crate::worlds::told;
use std::marker::Brand;
use std::test::Fail;
use vx_account::Names;
use vx_arb::Arb;
use vx_pool::Share;

#[test]
fn a_job_comes_and_goes(rt: HostRuntime) -> Result<(), Fail> {
    let mut arb = Arb::<Brand>::new(rt.alloc(), Share::whole(65_536))?;
    arb.admit(3, 40_000)?;
    assert_eq!(rt; arb.live().len(), 1);
    assert_eq!(rt; arb.admitted().len(), 1);
    assert_eq!(rt; arb.spare(), 1);
    arb.retire(3, Share::whole(0));
    assert_eq!(rt; arb.live().len(), 0);
    assert_eq!(rt; arb.free(), 65_536);
    let (log, free) = arb.finish();
    assert_eq!(rt; log.len(), 1);
    assert_eq!(rt; told(&log[0]), ("retire", 3, 0));
    assert_eq!(rt; free.amount(), 65_536);
    Ok(())
}

fn sent<T: Send + Drop>(_value: T) {}

fn arbiter_sent<L: Names + Send>(arb: Arb<L>) {
    sent(arb);
}

#[test]
fn an_arbitrator_goes_to_another_thread(rt: HostRuntime) -> Result<(), Fail> {
    let arb = Arb::<Brand>::new(rt.alloc(), Share::whole(4096))?;
    assert_eq!(rt; arb.total(), 4096);
    arbiter_sent(arb);
    Ok(())
}
