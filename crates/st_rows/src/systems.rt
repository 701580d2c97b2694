//! Conversions between all systems: the words after `-setup`, and the whole output.

use st_batch::Status;
use st_trials::{SAFE_AND_SHORT, add_word, folder, put_clocks, run_row};
use std::alloc::Global;
use std::process::Abort;
use std::test::Fail;

/// The words after `-setup`, without the time that follows them; the time; and the line that is written.
type Row<'a> = (&'a [&'a str], &'a str, &'a str);

/// Between the scales: truncation downwards, the choice of the digits, and the times that stand near a digit's edge.
const SCALES: [Row; 21] = [
    (
        &["naif.tls", "-from", "UTC", "-to", "ET"],
        "2000-01-01T12:00:00",
        "64.183927",
    ),
    (
        &["naif.tls", "-from", "UTC", "-to", "ET"],
        "2017-01-01T00:00:00",
        "536500869.183929",
    ),
    (
        &["naif.tls", "-from", "UTC", "-to", "ET", "-totype", "SCET"],
        "2000-01-01T12:00:00",
        "2000-01-01T12:01:04.183",
    ),
    (
        &[
            "naif.tls",
            "-from",
            "UTC",
            "-to",
            "ET",
            "-format",
            "SP2000.###",
        ],
        "2000-01-01T12:00:00",
        "64.183",
    ),
    (
        &[
            "naif.tls",
            "-from",
            "UTC",
            "-to",
            "ET",
            "-format",
            "SP2000.###::RND",
        ],
        "2000-01-01T12:00:00",
        "64.184",
    ),
    (
        &["naif.tls", "-from", "ET", "-to", "UTC"],
        "64.183927",
        "2000-01-01T11:59:59.999",
    ),
    (
        &[
            "naif.tls",
            "-from",
            "ET",
            "-to",
            "UTC",
            "-format",
            "YYYY-MM-DDTHR:MN:SC.###::RND",
        ],
        "64.183927",
        "2000-01-01T12:00:00.000",
    ),
    (
        &[
            "naif.tls", "-from", "TAI", "-to", "TAI", "-format", "SP2000",
        ],
        "-0.5",
        "-1",
    ),
    (
        &[
            "naif.tls",
            "-from",
            "TAI",
            "-to",
            "TAI",
            "-format",
            "SP2000::RND",
        ],
        "-0.5",
        "0",
    ),
    (
        &[
            "naif.tls",
            "-from",
            "TAI",
            "-to",
            "TAI",
            "-format",
            "SP2000.###",
        ],
        "-0.5",
        "-0.500",
    ),
    (
        &["naif.tls", "-from", "TT", "-to", "TT"],
        "JD 2451545.5",
        "43200.000000",
    ),
    (
        &[
            "naif.tls",
            "-from",
            "TT",
            "-to",
            "TT",
            "-format",
            "JULIAND.###",
        ],
        "JD 2451545.5",
        "2451545.500",
    ),
    (
        &["naif.tls", "-from", "TT", "-to", "ET"],
        "99.999999999999",
        "99.999927",
    ),
    (&["naif.tls", "-from", "TAI", "-to", "TT"], "0", "32.184000"),
    (
        &["naif.tls", "-from", "UTC", "-to", "TT"],
        "2000-01-01T12:00:00",
        "64.184000",
    ),
    (
        &["naif.tls", "-from", "UTC", "-to", "TAI"],
        "2016-12-31T23:59:60.5",
        "536500836.500000",
    ),
    (
        &["made.tls", "-from", "UTC", "-to", "TAI"],
        "1972-06-30T23:59:60",
        "-867931190.000000",
    ),
    (
        &["naif.tls", "-from", "TAI", "-to", "UTC"],
        "536500836.5",
        "2016-12-31T23:59:60.500",
    ),
    (
        &["zero.tls", "-from", "TT", "-to", "ET"],
        "99.999999999999",
        "99.999999",
    ),
    (
        &["zero.tls", "-from", "TT", "-to", "ET"],
        "100.000000000001",
        "100.000000",
    ),
    (
        &["nok.tls", "-from", "TT", "-to", "ET"],
        "100",
        "100.000000",
    ),
];

/// The forms of a time, and the marks of a picture.
const FORMS: [Row; 12] = [
    (
        &["naif.tls", "-from", "UTC", "-to", "UTC"],
        "DEC 18, 1996 12:28:28",
        "1996-12-18T12:28:28.000",
    ),
    (
        &["naif.tls", "-from", "UTC", "-to", "UTC"],
        "1996-353T12:28:28",
        "1996-12-18T12:28:28.000",
    ),
    (
        &["naif.tls", "-from", "UTC", "-to", "UTC"],
        "12/18/1996 12:28:28 UTC",
        "1996-12-18T12:28:28.000",
    ),
    (
        &[
            "naif.tls",
            "-from",
            "UTC",
            "-to",
            "UTC",
            "-format",
            "YYYY-MM-DDTHR:MN:SC",
        ],
        "2016-12-31T23:59:60.7",
        "2016-12-31T23:59:60",
    ),
    (
        &[
            "naif.tls",
            "-from",
            "UTC",
            "-to",
            "UTC",
            "-format",
            "YYYY-MM-DDTHR:MN:SC::RND",
        ],
        "2016-12-31T23:59:60.7",
        "2017-01-01T00:00:00",
    ),
    (
        &["naif.tls", "-from", "UTC", "-to", "UTC", "-format", "HR:MN"],
        "2016-12-31T23:59:60.7",
        "23:59",
    ),
    (
        &[
            "naif.tls",
            "-from",
            "UTC",
            "-to",
            "UTC",
            "-format",
            "WKD MON DD, YYYY AP:MN AMPM (HR)",
        ],
        "2000-01-01T13:00:00",
        "SAT JAN 01, 2000 01:00 P.M. (13)",
    ),
    (
        &[
            "naif.tls",
            "-from",
            "TAI",
            "-to",
            "TAI",
            "-format",
            "Weekday, DD Month YYYY",
        ],
        "0",
        "Saturday, 01 January 2000",
    ),
    (
        &[
            "naif.tls", "-from", "TAI", "-to", "TAI", "-format", "YYYY-DOY",
        ],
        "0",
        "2000-001",
    ),
    (
        &["naif.tls", "-from", "UTC", "-to", "UTC"],
        "DEC 18,1996",
        "1996-12-18T00:00:00.000",
    ),
    (
        &["naif.tls", "-from", "TT", "-to", "TT"],
        "jd 2451545",
        "0.000000",
    ),
    (
        &[
            "naif.tls",
            "-from",
            "TAI",
            "-to",
            "TAI",
            "-format",
            "AP:MN ampm",
        ],
        "0",
        "12:00 p.m.",
    ),
];

/// Clock strings and encoded ticks, and the way back.
const CLOCKS: [Row; 24] = [
    (
        &["mission.setup", "-from", "SCLK", "-to", "ET"],
        "1/4294967295.255",
        "4294967295.996093",
    ),
    (
        &["mission.setup", "-from", "SCLK", "-to", "ET"],
        "1/100.128",
        "100.500000",
    ),
    (
        &["mission.setup", "-from", "SCLK", "-to", "ET", "-back"],
        "1/100.128",
        "100.500000 back 1/0000000100.128",
    ),
    (
        &["mission.setup", "-from", "SCLK", "-to", "SCLK"],
        "100",
        "1/0000000100.000",
    ),
    (
        &[
            "mission.setup",
            "-from",
            "ET",
            "-to",
            "SCLK",
            "-totype",
            "TICKS",
        ],
        "0.001953125",
        "1",
    ),
    (
        &[
            "mission.setup",
            "-from",
            "ET",
            "-to",
            "SCLK",
            "-totype",
            "TICKS",
        ],
        "0.001953124",
        "0",
    ),
    (
        &["gll.setup", "-from", "SCLK", "-to", "ET"],
        "1/1:1:0:0",
        "61.332659",
    ),
    (
        &[
            "gll.setup",
            "-from",
            "SCLK",
            "-to",
            "SCLK",
            "-totype",
            "TICKS",
        ],
        "1 / 1 : 1",
        "7360",
    ),
    (
        &[
            "gll.setup",
            "-from",
            "SCLK",
            "-to",
            "SCLK",
            "-fromtype",
            "TICKS",
        ],
        "7360",
        "1/00000001:01:0:0",
    ),
    (
        &["vgr.setup", "-from", "SCLK", "-to", "SCLK"],
        "0:0:801",
        "1/00000:01:001",
    ),
    (
        &[
            "vgr.setup",
            "-from",
            "SCLK",
            "-to",
            "SCLK",
            "-totype",
            "TICKS",
        ],
        "0:0:801",
        "800",
    ),
    (
        &[
            "cap.setup",
            "-from",
            "ET",
            "-to",
            "SCLK",
            "-totype",
            "TICKS",
        ],
        "99.5",
        "25472",
    ),
    (
        &[
            "cap.setup",
            "-from",
            "ET",
            "-to",
            "SCLK",
            "-totype",
            "TICKS",
        ],
        "105",
        "25600",
    ),
    (
        &[
            "cap.setup",
            "-from",
            "ET",
            "-to",
            "SCLK",
            "-totype",
            "TICKS",
        ],
        "111",
        "25856",
    ),
    (
        &["two.setup", "-from", "SCLK", "-to", "SCLK"],
        "1/3.232",
        "2/0000000000.000",
    ),
    (
        &["two.setup", "-from", "ET", "-to", "SCLK"],
        "23.4375",
        "2/0000000019.136",
    ),
    (
        &[
            "two.setup",
            "-from",
            "SCLK",
            "-to",
            "SCLK",
            "-fromtype",
            "TICKS",
        ],
        "1000",
        "2/0000000000.000",
    ),
    (
        &["tdt.setup", "-from", "SCLK", "-to", "UTC"],
        "1/86400.128",
        "2017-01-02T00:00:00.500",
    ),
    (
        &["vgr.setup", "-from", "SCLK", "-to", "SCLK"],
        "0:0:1",
        "1/00000:00:001",
    ),
    (
        &["vgr.setup", "-from", "SCLK", "-to", "SCLK"],
        "0",
        "1/00000:00:001",
    ),
    (
        &[
            "gap.setup",
            "-from",
            "ET",
            "-to",
            "SCLK",
            "-totype",
            "TICKS",
        ],
        "89.5",
        "22912",
    ),
    (
        &[
            "gap.setup",
            "-from",
            "ET",
            "-to",
            "SCLK",
            "-totype",
            "TICKS",
        ],
        "90",
        "25600",
    ),
    (
        &[
            "gap.setup",
            "-from",
            "SCLK",
            "-to",
            "ET",
            "-fromtype",
            "TICKS",
        ],
        "24000",
        "93.750000",
    ),
    (
        &[
            "gap.setup",
            "-from",
            "SCLK",
            "-to",
            "ET",
            "-fromtype",
            "TICKS",
            "-back",
        ],
        "24000",
        "93.750000 back 1/0000000103.192",
    ),
];

/// Times and clock strings that are refused.
const REFUSED: [Row; 12] = [
    (
        &["naif.tls", "-from", "UTC", "-to", "UTC"],
        "12/18/1996 12:28:28 TDB",
        "refused WRONG_SYSTEM",
    ),
    (
        &["naif.tls", "-from", "UTC", "-to", "UTC"],
        "1996-02-30",
        "refused NO_SUCH_DAY",
    ),
    (
        &["naif.tls", "-from", "UTC", "-to", "UTC"],
        "1996-02",
        "refused BAD_TIME",
    ),
    (
        &["naif.tls", "-from", "UTC", "-to", "UTC"],
        "JD 2451545",
        "refused BAD_TIME",
    ),
    (
        &["mission.setup", "-from", "SCLK", "-to", "SCLK"],
        "1/4294967296.0",
        "refused BAD_CLOCK_TEXT NOT_IN_PARTITION",
    ),
    (
        &["mission.setup", "-from", "SCLK", "-to", "SCLK"],
        "2/0",
        "refused BAD_CLOCK_TEXT NO_PARTITION",
    ),
    (
        &["mission.setup", "-from", "SCLK", "-to", "SCLK"],
        "",
        "refused BAD_CLOCK_TEXT FORM",
    ),
    (
        &["mission.setup", "-from", "SCLK", "-to", "SCLK"],
        "1000000000000000001",
        "refused BAD_CLOCK_TEXT TOO_LARGE",
    ),
    (
        &["mission.setup", "-from", "SCLK", "-to", "SCLK"],
        "0.0.0",
        "refused BAD_CLOCK_TEXT TOO_MANY_FIELDS",
    ),
    (
        &["vgr.setup", "-from", "SCLK", "-to", "SCLK"],
        "0:0:0",
        "refused BAD_CLOCK_TEXT FIELD_BELOW_OFFSET",
    ),
    (
        &["two.setup", "-from", "ET", "-to", "SCLK"],
        "24",
        "refused AFTER_CLOCK",
    ),
    (
        &["two.setup", "-from", "ET", "-to", "SCLK"],
        "-1",
        "refused BEFORE_CLOCK",
    ),
];

/// The words of a row.
fn asking(alloc: Global, setup: &[&str], time: &str) -> Result<Vec<String>, Fail> {
    let mut words = Vec::new(alloc);
    add_word(alloc, &mut words, "-setup")?;
    for text in setup {
        add_word(alloc, &mut words, text)?;
    }
    add_word(alloc, &mut words, "-time")?;
    add_word(alloc, &mut words, time)?;
    Ok(words)
}

/// Runs each row, which ends with this status.
fn run_rows(rt: &impl Abort, alloc: Global, rows: &[Row], wanted: Status) -> Result<(), Fail> {
    for (setup, time, line) in rows {
        let words = asking(alloc, setup, time)?;
        for outside in SAFE_AND_SHORT {
            let mut map = folder(alloc)?;
            put_clocks(alloc, &mut map)?;
            let (status, output) = run_row(alloc, words.as_slice(), map, b"", outside)?;
            assert_eq!(rt; status, wanted, "{time}");
            assert_eq!(rt;
                output.strip_suffix(b"\n".as_slice()),
                Some(line.as_bytes()),
                "{time}"
            );
        }
    }
    Ok(())
}

#[test]
fn scales(rt: HostRuntime) -> Result<(), Fail> {
    run_rows(&rt, rt.alloc(), SCALES.as_slice(), Status::Done)
}

#[test]
fn forms(rt: HostRuntime) -> Result<(), Fail> {
    run_rows(&rt, rt.alloc(), FORMS.as_slice(), Status::Done)
}

#[test]
fn clocks(rt: HostRuntime) -> Result<(), Fail> {
    run_rows(&rt, rt.alloc(), CLOCKS.as_slice(), Status::Done)
}

#[test]
fn refused(rt: HostRuntime) -> Result<(), Fail> {
    run_rows(&rt, rt.alloc(), REFUSED.as_slice(), Status::SomeRefused)
}

#[test]
fn a_time_at_the_edge_of_a_digit(rt: HostRuntime) -> Result<(), Fail> {
    let alloc = rt.alloc();
    let words = asking(alloc, &["zero.tls", "-from", "TT", "-to", "ET"], "100")?;
    for outside in SAFE_AND_SHORT {
        let (status, output) = run_row(alloc, words.as_slice(), folder(alloc)?, b"", outside)?;
        // Nothing but the digit below it is wrong.
        let wanted = if status == Status::Done {
            "100.000000\n"
        } else {
            "refused UNDECIDED\n"
        };
        assert_eq!(rt; output.as_slice(), wanted.as_bytes());
    }
    Ok(())
}
