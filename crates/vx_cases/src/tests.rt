//! That a case which isn't met is told, and that a file which can't be read as cases is an error.

use crate::runs::{Tally, run_text};
use std::test::Fail;

const FILE: &str =
    "\nfile p.json {\"plan\":{\"node\":\"values\",\"id\":0,\"kinds\":[\"int\"],\"rows\":[[1],[2]]}}\n";

#[test]
fn what_is_not_met_differs(rt: HostRuntime) -> Result<(), Fail> {
    for (facts, differ) in [
        ("status 0\nout == 0 p.json\nout ok 2\nout [1]\nout [2]", 0),
        (
            "status 0\nout == 0 p.json\nout ok 2\nout [2]\nout [1]\nany-order",
            0,
        ),
        ("status 0\nout == 0 p.json\nout ok 2\nout [2]\nout [1]", 1),
        ("status 1\nout == 0 p.json\nout ok 2\nout [1]\nout [2]", 1),
        ("out == 0 p.json\nout ok 2\nout [1]\nout [2]", 1),
        (
            "status 0\nout == 0 p.json\nout ok 2\nout [1]\nout-end [2]",
            1,
        ),
        (
            "status 0\nout ok 2\nout == 0 p.json\nout [1]\nout [2]\nany-order",
            1,
        ),
        (
            "status 0\nout == 0 p.json\nout ok 2\nout [1]\nout [1]\nany-order",
            1,
        ),
        (
            "status 0\nout == 0 p.json\nout ok 2\nout [1]\nout [2]\nerr x",
            1,
        ),
    ] {
        let text = format!(in rt.alloc(); "case a{FILE}{facts}\n")?;
        let mut tally = Tally::default();
        assert!(rt; run_text(&rt, "test", text.as_str(), &mut tally).is_ok());
        assert_eq!(rt; (tally.cases, tally.differ), (1, differ), "of {facts}");
    }
    Ok(())
}

#[test]
fn what_is_no_case_file_is_an_error(rt: HostRuntime) -> Result<(), Fail> {
    for text in [
        "",
        "# nothing",
        "status 0",
        "case a\nstatus 0\nstate 0",
        "case a\nstatus x",
        "case a\nout-taken 1",
        "case a\nout-takes 0",
        "case a\nmore 1 x",
        "case a\nbytes p.json 0",
    ] {
        let mut tally = Tally::default();
        assert!(rt;
            run_text(&rt, "test", text, &mut tally).is_err(),
            "of {text}"
        );
    }
    Ok(())
}
