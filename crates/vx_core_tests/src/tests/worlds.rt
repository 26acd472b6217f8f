//! Shrinks, reclaims, looks, aborts, drops and wants of worlds of two members.

use crate::worlds::{Plain, TOTAL, bare, told, world};
use std::alloc::Global;
use std::marker::Brand;
use std::process::Abort;
use std::test::Fail;
use vx_arb::{AbortNote, Entry, Look, Move, NoteCause};
use vx_world::{ApplyError, Event, Reply, World};

/// Makes events, and compares what they answer.
fn answers(
    rt: &impl Abort,
    alloc: Global,
    world: &mut World<Brand, Plain>,
    events: &[Event],
    wanted: &[Reply],
) {
    let mut replies = Vec::new(alloc);
    assert_eq!(rt; world.apply_all(events, &mut replies), Ok(()));
    assert_eq!(rt; replies.as_slice(), wanted);
}

/// Tries one event, which is refused.
fn refuses(rt: &impl Abort, alloc: Global, world: &mut World<Brand, Plain>, event: Event) {
    let mut replies = Vec::new(alloc);
    let refused = Err(ApplyError::Refused);
    assert_eq!(rt; world.apply_all(&[event], &mut replies), refused);
    assert_eq!(rt; replies.len(), 0);
}

/// Compares the log and what is free.
fn ends_with(
    rt: &impl Abort,
    world: &World<Brand, Plain>,
    wanted: &[(&'static str, u32, u64)],
    free: u64,
) {
    let log = world.arb().log();
    assert_eq!(rt; log.len(), wanted.len());
    for (entry, row) in log.iter().zip(wanted) {
        assert_eq!(rt; told(entry), *row);
    }
    assert_eq!(rt; world.arb().free(), free);
}

/// Compares the looks in the entries of aborts, of which there is one at least.
fn aborts_saw(rt: &impl Abort, world: &World<Brand, Plain>, wanted: &[Look]) {
    let mut aborts = 0;
    for entry in world.arb().log() {
        if let Entry::Abort { looks, .. } = entry {
            assert_eq!(rt; looks.as_slice(), wanted);
            aborts = 1;
        }
    }
    assert_eq!(rt; aborts, 1);
}

/// Job 0 takes most of the total, and then job 1 asks for more than the rest.
const CROWDED: [Event; 5] = [
    Event::Begin { job: 0, hint: 0 },
    Event::Grant,
    Event::Batch { job: 0, hint: 0 },
    Event::Begin { job: 1, hint: 0 },
    Event::Shrink { job: 0 },
];

const CROWDED_REPLIES: [Reply; 5] = [
    Reply::Begun,
    Reply::Granted,
    Reply::Stepped(Move::Moved),
    Reply::Begun,
    Reply::Freed(0),
];

#[test]
fn a_reclaim_makes_room_for_a_grant(rt: HostRuntime) -> Result<(), Fail> {
    let alloc = rt.alloc();
    let mut world = world(alloc, &[61_440], true, &[8192])?;
    answers(&rt, alloc, &mut world, &CROWDED, &CROWDED_REPLIES);
    let rest = [Event::Reclaim { job: 0 }, Event::Grant];
    let wanted = [Reply::Freed(61_440), Reply::Granted];
    answers(&rt, alloc, &mut world, &rest, &wanted);
    let log = [
        ("grant", 0, 61_440),
        ("reclaim", 0, 4096),
        ("grant", 1, 8192),
    ];
    ends_with(&rt, &world, &log, 0);
    Ok(())
}

#[test]
fn an_abort_comes_only_after_every_look(rt: HostRuntime) -> Result<(), Fail> {
    let alloc = rt.alloc();
    let mut world = world(alloc, &[61_440], false, &[8192])?;
    answers(&rt, alloc, &mut world, &CROWDED, &CROWDED_REPLIES);
    let first_look = [Event::Reclaim { job: 0 }, Event::Look { job: 0 }];
    answers(
        &rt,
        alloc,
        &mut world,
        &first_look,
        &[Reply::Freed(0), Reply::Looked],
    );
    refuses(&rt, alloc, &mut world, Event::Abort { job: 0 });
    let note = AbortNote {
        request: 2,
        by: 1,
        job: 0,
        cause: NoteCause::Total,
        need: 8192,
        free: 4096,
        looks: 2,
    };
    answers(
        &rt,
        alloc,
        &mut world,
        &[Event::Look { job: 1 }, Event::Abort { job: 0 }],
        &[Reply::Looked, Reply::Aborted(note)],
    );
    let log = [("grant", 0, 61_440), ("abort", 0, 61_440)];
    ends_with(&rt, &world, &log, TOTAL);
    Ok(())
}

#[test]
fn a_grant_without_a_request_is_refused(rt: HostRuntime) -> Result<(), Fail> {
    let alloc = rt.alloc();
    let mut world = world(alloc, &[0], false, &[])?;
    refuses(&rt, alloc, &mut world, Event::Grant);
    ends_with(&rt, &world, &[], TOTAL);
    answers(
        &rt,
        alloc,
        &mut world,
        &[Event::Begin { job: 1, hint: 0 }],
        &[Reply::NotLacking],
    );
    Ok(())
}

#[test]
fn a_job_past_its_own_max_is_aborted_after_its_look(rt: HostRuntime) -> Result<(), Fail> {
    let alloc = rt.alloc();
    let mut world = bare(alloc, &[8192], false, &[])?;
    let asking = [
        Event::Admit { job: 0, max: 4096 },
        Event::Begin { job: 0, hint: 0 },
    ];
    let begun = [Reply::Admitted, Reply::Begun];
    answers(&rt, alloc, &mut world, &asking, &begun);
    refuses(&rt, alloc, &mut world, Event::Grant);
    refuses(&rt, alloc, &mut world, Event::Abort { job: 0 });
    let note = AbortNote {
        request: 1,
        by: 0,
        job: 0,
        cause: NoteCause::Own,
        need: 8192,
        free: TOTAL,
        looks: 1,
    };
    answers(
        &rt,
        alloc,
        &mut world,
        &[Event::Look { job: 0 }, Event::Abort { job: 0 }],
        &[Reply::Looked, Reply::Aborted(note)],
    );
    ends_with(&rt, &world, &[("abort", 0, 0)], TOTAL);
    Ok(())
}

/// Job 1 has 4,096 bytes that it no longer uses, and job 0 all the rest, when job 1 asks for more.
const EXHAUSTED: [Event; 9] = [
    Event::Begin { job: 1, hint: 0 },
    Event::Grant,
    Event::Batch { job: 1, hint: 0 },
    Event::Batch { job: 1, hint: 0 },
    Event::Begin { job: 0, hint: 0 },
    Event::Grant,
    Event::Batch { job: 0, hint: 0 },
    Event::Begin { job: 1, hint: 0 },
    Event::Shrink { job: 0 },
];

const EXHAUSTED_REPLIES: [Reply; 9] = [
    Reply::Begun,
    Reply::Granted,
    Reply::Stepped(Move::Moved),
    Reply::Stepped(Move::Moved),
    Reply::Begun,
    Reply::Granted,
    Reply::Stepped(Move::Moved),
    Reply::Begun,
    Reply::Freed(0),
];

#[test]
fn an_aborts_entry_has_what_its_looks_saw(rt: HostRuntime) -> Result<(), Fail> {
    let alloc = rt.alloc();
    let mut world = world(alloc, &[61_440], false, &[4096, 0, 8192])?;
    answers(&rt, alloc, &mut world, &EXHAUSTED, &EXHAUSTED_REPLIES);
    let note = AbortNote {
        request: 3,
        by: 1,
        job: 0,
        cause: NoteCause::Total,
        need: 4096,
        free: 0,
        looks: 2,
    };
    answers(
        &rt,
        alloc,
        &mut world,
        &[
            Event::Look { job: 1 },
            Event::Look { job: 0 },
            Event::Abort { job: 0 },
        ],
        &[Reply::Looked, Reply::Looked, Reply::Aborted(note)],
    );
    let looks = [
        Look {
            job: 1,
            unused: 4096,
            reclaimable: 0,
        },
        Look {
            job: 0,
            unused: 0,
            reclaimable: 0,
        },
    ];
    aborts_saw(&rt, &world, &looks);
    Ok(())
}

#[test]
fn a_request_that_is_dropped_leaves_nothing(rt: HostRuntime) -> Result<(), Fail> {
    let alloc = rt.alloc();
    let mut world = world(alloc, &[8192], false, &[])?;
    let dropped = [Event::Begin { job: 0, hint: 0 }, Event::Drop];
    let wanted = [Reply::Begun, Reply::Dropped];
    answers(&rt, alloc, &mut world, &dropped, &wanted);
    refuses(&rt, alloc, &mut world, Event::Grant);
    refuses(&rt, alloc, &mut world, Event::Drop);
    ends_with(&rt, &world, &[], TOTAL);
    let again = [Event::Begin { job: 0, hint: 0 }, Event::Grant];
    answers(
        &rt,
        alloc,
        &mut world,
        &again,
        &[Reply::Begun, Reply::Granted],
    );
    ends_with(&rt, &world, &[("grant", 0, 8192)], TOTAL - 8192);
    Ok(())
}

#[test]
fn a_member_that_wants_memory_ends_and_keeps_its_capacity(rt: HostRuntime) -> Result<(), Fail> {
    let alloc = rt.alloc();
    let mut world = world(alloc, &[8192, 4096], false, &[])?;
    let events = [
        Event::Begin { job: 0, hint: 0 },
        Event::Grant,
        Event::Batch { job: 0, hint: 0 },
        Event::Want { job: 0 },
        Event::Batch { job: 0, hint: 0 },
    ];
    let wanted = [
        Reply::Begun,
        Reply::Granted,
        Reply::Stepped(Move::Moved),
        Reply::Wanted,
        Reply::Stepped(Move::Ended),
    ];
    answers(&rt, alloc, &mut world, &events, &wanted);
    refuses(&rt, alloc, &mut world, Event::Want { job: 0 });
    ends_with(&rt, &world, &[("grant", 0, 8192)], TOTAL - 8192);
    let retired = [Event::Retire { job: 0 }];
    answers(&rt, alloc, &mut world, &retired, &[Reply::Retired]);
    let log = [("grant", 0, 8192), ("retire", 0, 8192)];
    ends_with(&rt, &world, &log, TOTAL);
    Ok(())
}
