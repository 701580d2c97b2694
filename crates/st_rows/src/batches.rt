//! Batches, mostly from UTC to TAI with the setup `naif.tls`: the lines of the input, and their answers.

use st_batch::Status;
use st_trials::{
    SAFE_AND_SHORT, add_line, add_word, folder, put_clocks, run_batch, run_row, words,
};
use std::alloc::Global;
use std::process::Abort;
use std::test::Fail;

/// What a row is about, the status, and each line with its answer.
const SESSIONS: [(&str, Status, &[(&str, &str)]); 13] = [
    ("no lines", Status::Done, &[]),
    (
        "a leapseconds kernel for some time",
        Status::Done,
        &[
            ("2017-06-01T00:00:00", "549547237.000000"),
            ("$load short.tls", "loaded"),
            ("2017-06-01T00:00:00", "549547236.000000"),
            ("$unload short.tls", "unloaded"),
            ("2017-06-01T00:00:00", "549547237.000000"),
        ],
    ),
    (
        "a pair is added, set anew, and added again",
        Status::Done,
        &[
            ("$load more.tls", "loaded"),
            ("2030-06-01T00:00:00", "959774438.000000"),
            ("$load short.tls", "loaded"),
            ("2030-06-01T00:00:00", "959774436.000000"),
            ("$unload more.tls", "unloaded"),
            ("2030-06-01T00:00:00", "959774436.000000"),
        ],
    ),
    (
        "a pair is added to nothing, and is the only one",
        Status::Done,
        &[
            ("$clear", "cleared"),
            ("$load more.tls", "loaded"),
            ("2029-12-31T23:59:59", "946728036.000000"),
            ("2030-06-01T00:00:00", "959774438.000000"),
        ],
    ),
    (
        "the last of a name goes first",
        Status::SomeRefused,
        &[
            ("$load more.tls", "loaded"),
            ("$load short.tls", "loaded"),
            ("$load more.tls", "loaded"),
            ("2030-06-01T00:00:00", "refused BAD_LEAPS BAD_STEP 28"),
            ("$unload more.tls", "unloaded"),
            ("2030-06-01T00:00:00", "959774436.000000"),
            ("$unload short.tls", "unloaded"),
            ("2030-06-01T00:00:00", "959774438.000000"),
        ],
    ),
    (
        "a refused load changes nothing",
        Status::SomeRefused,
        &[
            ("2017-06-01T00:00:00", "549547237.000000"),
            ("$load mixed.ker", "refused KERNEL_TEXT 2 MIXED_KINDS"),
            ("2017-06-01T00:00:00", "549547237.000000"),
            ("$unload mixed.ker", "refused NOT_LOADED"),
        ],
    ),
    (
        "files without an assignment, and one that is cut",
        Status::SomeRefused,
        &[
            ("$load empty.ker", "loaded"),
            ("$load plain.ker", "loaded"),
            ("$load cut.ker", "refused KERNEL_TEXT 2 UNCLOSED"),
            ("2017-06-01T00:00:00", "549547237.000000"),
            ("$unload empty.ker", "unloaded"),
            ("$unload cut.ker", "refused NOT_LOADED"),
        ],
    ),
    (
        "names that are not there, and no commands",
        Status::SomeRefused,
        &[
            ("$load absent", "refused NO_FILE"),
            ("$unload absent", "refused NOT_LOADED"),
            ("$drop x", "refused BAD_COMMAND"),
            ("$", "refused BAD_COMMAND"),
            ("$load", "refused BAD_COMMAND"),
            ("$load ", "refused BAD_COMMAND"),
            ("$LOAD naif.tls", "refused BAD_COMMAND"),
            ("$ load naif.tls", "refused BAD_COMMAND"),
            ("$clear now", "refused BAD_COMMAND"),
            ("$loadnaif.tls", "refused BAD_COMMAND"),
        ],
    ),
    (
        "no table is left",
        Status::SomeRefused,
        &[
            ("$clear", "cleared"),
            ("2017-06-01T00:00:00", "refused NO_VARIABLE DELTET/DELTA_AT"),
            ("no time", "refused NO_VARIABLE DELTET/DELTA_AT"),
            ("$load\t \tshort.tls\t", "loaded"),
            (" 2017-06-01T00:00:00\t", "549547236.000000"),
            ("no time", "refused BAD_TIME"),
        ],
    ),
    (
        "pairs are added and set anew",
        Status::SomeRefused,
        &[
            ("2030-06-01T00:00:00", "959774437.000000"),
            ("$load more.tls", "loaded"),
            ("2030-06-01T00:00:00", "959774438.000000"),
            ("$load short.tls", "loaded"),
            ("2030-06-01T00:00:00", "959774436.000000"),
            ("$unload short.tls", "unloaded"),
            ("$load more.tls", "loaded"),
            ("2030-06-01T00:00:00", "refused BAD_LEAPS NOT_RISING 30"),
            ("$unload more.tls", "unloaded"),
            ("2030-06-01T00:00:00", "959774438.000000"),
        ],
    ),
    (
        "a table of another kind, for some time",
        Status::SomeRefused,
        &[
            ("$load wrong.ker", "loaded"),
            ("2017-06-01T00:00:00", "refused WRONG_KIND DELTET/DELTA_AT"),
            ("$unload wrong.ker", "unloaded"),
            ("2017-06-01T00:00:00", "549547237.000000"),
        ],
    ),
    (
        "a table of another kind, and no other",
        Status::SomeRefused,
        &[
            ("$clear", "cleared"),
            ("2017-06-01T00:00:00", "refused NO_VARIABLE DELTET/DELTA_AT"),
            ("$load wrong.ker", "loaded"),
            ("2017-06-01T00:00:00", "refused WRONG_KIND DELTET/DELTA_AT"),
        ],
    ),
    (
        "a second that is removed, and two that can't be inserted",
        Status::SomeRefused,
        &[
            ("$load minus.tls", "loaded"),
            ("2029-12-31T23:59:58.5", "946728035.500000"),
            ("2029-12-31T23:59:59", "refused NO_SUCH_SECOND"),
            ("2030-01-01T00:00:00", "946728036.000000"),
            ("$unload minus.tls", "unloaded"),
            ("$load leap.tls", "loaded"),
            ("2030-06-01T00:00:00", "refused BAD_LEAPS BAD_STEP 29"),
            ("$unload leap.tls", "unloaded"),
            ("$load same.tls", "loaded"),
            ("2030-06-01T00:00:00", "refused BAD_LEAPS BAD_STEP 29"),
        ],
    ),
];

#[test]
fn sessions(rt: HostRuntime) -> Result<(), Fail> {
    let alloc = rt.alloc();
    for (name, wanted, session) in SESSIONS {
        let mut lines = Vec::new(alloc);
        let mut answers = Vec::new(alloc);
        for (line, answer) in session {
            add_line(&mut lines, line)?;
            add_line(&mut answers, answer)?;
        }
        for outside in SAFE_AND_SHORT {
            let (status, output) = run_batch(alloc, lines.as_slice(), outside)?;
            assert_eq!(rt; status, wanted, "{name}");
            assert_eq!(rt; output.as_slice(), answers.as_slice(), "{name}");
        }
    }
    Ok(())
}

/// A batch from TAI to UTC: the words after these, the input, and the whole output.
type FromTai = (&'static [&'static str], &'static str, &'static str);

/// Around a second that is removed, which isn't printed, and into which nothing is rounded.
const REMOVED: [FromTai; 2] = [
    (
        &[],
        "$load minus.tls\n946728035.5\n946728036\n",
        "loaded\n2029-12-31T23:59:58.500\n2030-01-01T00:00:00.000\n",
    ),
    (
        &["-format", "YYYY-MM-DDTHR:MN:SC::RND"],
        "$load minus.tls\n946728035.5\n",
        "loaded\n2030-01-01T00:00:00\n",
    ),
];

/// Runs batches from TAI to UTC in which nothing is refused.
fn run_from_tai(rt: &impl Abort, alloc: Global, batches: &[FromTai]) -> Result<(), Fail> {
    for (asked, lines, wanted) in batches {
        let mut all = words(alloc, &["-setup", "naif.tls", "-from", "TAI", "-to", "UTC"])?;
        for word in *asked {
            add_word(alloc, &mut all, word)?;
        }
        add_word(alloc, &mut all, "-batch")?;
        for outside in SAFE_AND_SHORT {
            let map = folder(alloc)?;
            let (status, output) = run_row(alloc, all.as_slice(), map, lines.as_bytes(), outside)?;
            assert_eq!(rt; status, Status::Done);
            assert_eq!(rt; output.as_slice(), wanted.as_bytes());
        }
    }
    Ok(())
}

#[test]
fn a_removed_second_is_not_printed(rt: HostRuntime) -> Result<(), Fail> {
    run_from_tai(&rt, rt.alloc(), REMOVED.as_slice())
}

/// What a row is about, the input, and the whole output.
const ENDS_OF_LINES: [(&str, &str, &str); 2] = [
    (
        "lines that end with CR and LF, an empty one, and a last one without an end",
        "2017-06-01T00:00:00\r\n\r\n\n2000-01-01T12:00:00\r",
        "549547237.000000\nrefused BAD_TIME\nrefused BAD_TIME\n32.000000\n",
    ),
    (
        "one CR is dropped",
        "2000-01-01T12:00:00\r\r\n",
        "refused BAD_TIME\n",
    ),
];

#[test]
fn ends_of_lines(rt: HostRuntime) -> Result<(), Fail> {
    for (name, lines, wanted) in ENDS_OF_LINES {
        for outside in SAFE_AND_SHORT {
            let (status, output) = run_batch(rt.alloc(), lines.as_bytes(), outside)?;
            assert_eq!(rt; status, Status::SomeRefused, "{name}");
            assert_eq!(rt; output.as_slice(), wanted.as_bytes(), "{name}");
        }
    }
    Ok(())
}

#[test]
fn a_thousand_clock_strings(rt: HostRuntime) -> Result<(), Fail> {
    let alloc = rt.alloc();
    let shape = [
        "-setup",
        "tdt.setup",
        "-from",
        "SCLK",
        "-to",
        "UTC",
        "-batch",
    ];
    let words = words(alloc, shape.as_slice())?;
    let mut lines = Vec::new(alloc);
    let mut wanted = Vec::new(alloc);
    for minute in 0..17u32 {
        for second in 0..60u32 {
            let count = minute * 60 + second;
            if count < 1000 {
                let tick = 86400 + count;
                lines.extend_from_slice(format!(in alloc; "1/{tick}.0\n")?.as_bytes())?;
                let label = format!(in alloc; "2017-01-02T00:{minute:02}:{second:02}.000\n")?;
                wanted.extend_from_slice(label.as_bytes())?;
            }
        }
    }
    for outside in SAFE_AND_SHORT {
        let mut map = folder(alloc)?;
        put_clocks(alloc, &mut map)?;
        let (status, output) = run_row(alloc, words.as_slice(), map, lines.as_slice(), outside)?;
        assert_eq!(rt; status, Status::Done);
        assert_eq!(rt; output.as_slice(), wanted.as_slice());
    }
    Ok(())
}
