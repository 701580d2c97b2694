//! The two worked days of `docs/USING.md`, as they are printed there.

use st_batch::Status;
use st_trials::{SAFE_AND_SHORT, add_word, files, put_clocks, run_row, words};
use std::alloc::Global;
use std::process::Abort;
use std::test::Fail;

/// The kernel that a later correlation of the clock brings.
const DRIFT: &[u8] = b"\\begindata
SCLK01_COEFFICIENTS_82 += ( 137344000000, 536500000, 1.00001 )
";

const PLAN: &[u8] = b"1/536500868.000
1/536500869.128
$load drift.tsc
1/536500868.000
1/536500869.128
";

const LABELS: &[u8] = b"2016-12-31T23:59:59.9996
2016-12-31T23:59:60.5
2017-001T00:00:00
2017-02-29T12:00:00
2017 MAR 1 06:30
";

/// A command without the program's name: its words after those of the setup, its input, the whole output, and its status.
type Step = (
    &'static [&'static str],
    &'static [u8],
    &'static [u8],
    Status,
);

const PLANNER: [Step; 3] = [
    (
        &["-from", "SCLK", "-to", "UTC", "-batch"],
        PLAN,
        b"2016-12-31T23:59:59.816
2017-01-01T00:00:00.316
loaded
2016-12-31T23:59:59.824
2017-01-01T00:00:00.324
",
        Status::Done,
    ),
    (
        &["-from", "SCLK", "-to", "ET", "-back", "-batch"],
        PLAN,
        b"536500868.000000 back 1/0536500868.000
536500869.500000 back 1/0536500869.128
loaded
536500868.008680 back 1/0536500868.000
536500869.508695 back 1/0536500869.128
",
        Status::Done,
    ),
    (
        &["-from", "ET", "-to", "SCLK", "-batch"],
        b"536500869.5
$load drift.tsc
536500869.508695
",
        b"1/0536500869.128
loaded
1/0536500869.128
",
        Status::Done,
    ),
];

const ARCHIVIST: [Step; 3] = [
    (
        &[
            "-from",
            "UTC",
            "-to",
            "ET",
            "-format",
            "SP2000.###::RND",
            "-batch",
        ],
        LABELS,
        b"536500868.184
536500868.684
536500869.184
refused NO_SUCH_DAY
541621869.185
",
        Status::SomeRefused,
    ),
    (
        &["-from", "UTC", "-to", "SCLK", "-batch"],
        LABELS,
        b"1/0536500868.047
1/0536500868.175
1/0536500869.047
refused NO_SUCH_DAY
1/0541621869.047
",
        Status::SomeRefused,
    ),
    (
        &[
            "-from",
            "UTC",
            "-to",
            "UTC",
            "-format",
            "YYYY-DOYTHR:MN:SC::RND",
            "-batch",
        ],
        LABELS,
        b"2016-366T23:59:60
2017-001T00:00:00
2017-001T00:00:00
refused NO_SUCH_DAY
2017-060T06:30:00
",
        Status::SomeRefused,
    ),
];

/// Runs the commands of a day over its files.
fn run_day(rt: &impl Abort, alloc: Global, day: &[Step]) -> Result<(), Fail> {
    for (asked, input, output, wanted) in day {
        let mut all = words(alloc, &["-setup", "mission.setup"])?;
        for word in *asked {
            add_word(alloc, &mut all, word)?;
        }
        for outside in SAFE_AND_SHORT {
            let mut map = files(alloc)?;
            put_clocks(alloc, &mut map)?;
            map.put(b"drift.tsc", Vec::from_slice(alloc, DRIFT)?)?;
            let (status, written) = run_row(alloc, all.as_slice(), map, input, outside)?;
            assert_eq!(rt; status, *wanted);
            assert_eq!(rt; written.as_slice(), *output);
        }
    }
    Ok(())
}

#[test]
fn a_planners_day(rt: HostRuntime) -> Result<(), Fail> {
    run_day(&rt, rt.alloc(), PLANNER.as_slice())
}

#[test]
fn an_archivists_day(rt: HostRuntime) -> Result<(), Fail> {
    run_day(&rt, rt.alloc(), ARCHIVIST.as_slice())
}
