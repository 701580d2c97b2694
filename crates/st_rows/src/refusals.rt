//! Refused words, setups and times.

use st_batch::{LineFault, Status};
use st_outside::{FileMap, OutOfMemory};
use st_ticks::Var;
use st_trials::{Outside, SAFE, SAFE_AND_SHORT, SHORT, files, put_clocks, run_row, to_tai, words};
use std::test::Fail;

/// A time, and the refusal.
const NO_TIMES: [(&str, &str); 8] = [
    ("", "refused BAD_TIME\n"),
    ("2000-01-01T12:00:00.", "refused BAD_TIME\n"),
    ("2000-01-01T12:00:00.1234567890123", "refused BAD_TIME\n"),
    ("2000-01-01T24:00:00", "refused BAD_TIME\n"),
    ("2015-12-31T23:59:60", "refused NO_SUCH_SECOND\n"),
    ("1900-02-29T00:00:00", "refused NO_SUCH_DAY\n"),
    ("1799-12-31T23:59:59", "refused OUT_OF_RANGE\n"),
    ("2200-01-01T00:00:01", "refused OUT_OF_RANGE\n"),
];

#[test]
fn refused_times(rt: HostRuntime) -> Result<(), Fail> {
    let alloc = rt.alloc();
    for (time, wanted) in NO_TIMES {
        let words = to_tai(alloc, time)?;
        let (status, output) = run_row(alloc, words.as_slice(), files(alloc)?, b"", SHORT)?;
        assert_eq!(rt; status, Status::SomeRefused, "{time}");
        assert_eq!(rt; output.as_slice(), wanted.as_bytes(), "{time}");
    }
    Ok(())
}

/// Setup files that are kernels and give no table of leap seconds, and the refusal of a time.
const NO_TABLES: [(&str, &str); 11] = [
    ("", "refused NO_VARIABLE DELTET/DELTA_AT\n"),
    (
        "\\begintext\nDELTET/DELTA_AT = ( 10, @1972-JAN-1 )\n",
        "refused NO_VARIABLE DELTET/DELTA_AT\n",
    ),
    (
        "\\begindata\ndeltet/delta_at = ( 10, @1972-JAN-1 )\n",
        "refused NO_VARIABLE DELTET/DELTA_AT\n",
    ),
    (
        "\\begindata\nDELTET/DELTA_AT = ( '10', '1972-JAN-1' )\n",
        "refused WRONG_KIND DELTET/DELTA_AT\n",
    ),
    (
        "\\begindata\nDELTET/DELTA_AT = ( 10, @1972-JAN-1, 11 )\n",
        "refused BAD_LEAPS ODD\n",
    ),
    (
        "\\begindata\nDELTET/DELTA_AT = ( 10, @1972-JAN-1 )\nDELTET/DELTA_AT = 10\n",
        "refused BAD_LEAPS ODD\n",
    ),
    (
        "\\begindata\nDELTET/DELTA_AT = ( 10, @1972-JAN-1 12, @1972-JUL-1 )\n",
        "refused BAD_LEAPS BAD_STEP 2\n",
    ),
    (
        "\\begindata\nDELTET/DELTA_AT = ( 10, @1972-JUL-1 11, @1972-JAN-1 )\n",
        "refused BAD_LEAPS NOT_RISING 2\n",
    ),
    (
        "\\begindata\nDELTET/DELTA_AT = ( 10, @1972-JAN-1T6:00 )\n",
        "refused BAD_LEAPS NOT_MIDNIGHT 1\n",
    ),
    (
        "\\begindata\nDELTET/DELTA_AT = ( 1001, @1972-JAN-1 )\n",
        "refused BAD_LEAPS NOT_WHOLE 1\n",
    ),
    (
        "\\begindata\nDELTET/DELTA_AT = ( 10.5, @1972-JAN-1 )\n",
        "refused BAD_LEAPS NOT_WHOLE 1\n",
    ),
];

/// How a conversion of noon on 2000-01-01 ends with a setup file of these bytes, and what it writes.
fn with_setup(
    rt: &HostRuntime,
    setup: &[u8],
    outside: Outside,
) -> Result<(Status, Vec<u8>), OutOfMemory> {
    let alloc = rt.alloc();
    let words = to_tai(alloc, "2000-01-01T12:00:00")?;
    let mut map = FileMap::new(alloc);
    map.put(b"naif.tls", Vec::from_slice(alloc, setup)?)?;
    run_row(alloc, words.as_slice(), map, b"", outside)
}

#[test]
fn setups_without_a_table(rt: HostRuntime) -> Result<(), Fail> {
    for (setup, wanted) in NO_TABLES {
        for outside in SAFE_AND_SHORT {
            let (status, output) = with_setup(&rt, setup.as_bytes(), outside)?;
            assert_eq!(rt; status, Status::SomeRefused, "{setup}");
            assert_eq!(rt; output.as_slice(), wanted.as_bytes(), "{setup}");
        }
    }
    Ok(())
}

/// Setup files that are no kernels, and the whole output.
const NO_KERNELS: [(&str, &str); 10] = [
    (
        "\\begindata\nX = 1\x07\n",
        "bad setup KERNEL_TEXT 2 BAD_BYTE\n",
    ),
    ("\\begindata\n( 1 )\n", "bad setup KERNEL_TEXT 2 NO_NAME\n"),
    ("\\begindata\n\nX 1\n", "bad setup KERNEL_TEXT 3 NO_SIGN\n"),
    (
        "\\begindata\nX = ( )\n",
        "bad setup KERNEL_TEXT 2 NO_VALUE\n",
    ),
    (
        "\\begindata\nX = 1.5.\n",
        "bad setup KERNEL_TEXT 2 BAD_NUMBER\n",
    ),
    (
        "\\begindata\nX = 'it\n",
        "bad setup KERNEL_TEXT 2 BAD_STRING\n",
    ),
    (
        "\\begindata\nDELTET/DELTA_AT = ( 10,\n@1972-FEB-30 )\n",
        "bad setup KERNEL_TEXT 3 BAD_DATE\n",
    ),
    (
        "\\begindata\nX = ( 1, 'a' )\n",
        "bad setup KERNEL_TEXT 2 MIXED_KINDS\n",
    ),
    (
        "\\begindata\nDELTET/DELTA_AT = ( 10, @1972-JAN-1\n",
        "bad setup KERNEL_TEXT 2 UNCLOSED\n",
    ),
    (
        "text\n\\begindata\nX = 1 2\n",
        "bad setup KERNEL_TEXT 3 TRAILING_TEXT\n",
    ),
];

#[test]
fn setups_that_are_no_kernels(rt: HostRuntime) -> Result<(), Fail> {
    for (setup, wanted) in NO_KERNELS {
        for outside in SAFE_AND_SHORT {
            let (status, output) = with_setup(&rt, setup.as_bytes(), outside)?;
            assert!(rt; matches!(status, Status::BadSetup(_)), "{setup}");
            assert_eq!(rt; output.as_slice(), wanted.as_bytes(), "{setup}");
        }
    }
    for outside in SAFE_AND_SHORT {
        let (_, output) = with_setup(&rt, &[b'x'; 1001], outside)?;
        assert_eq!(rt;
            output.as_slice(),
            b"bad setup KERNEL_TEXT 1 LINE_TOO_LONG\n".as_slice()
        );
    }
    Ok(())
}

/// Setup files with a table of one pair, 10 s from 1972, and more around it.
const TABLES: [&str; 4] = [
    "\\begindata\nDELTET/DELTA_AT = ( 10, @1972-JAN-1 )",
    "\\begindata\nDELTET/DELTA_AT = 10\nDELTET/DELTA_AT += @1972-01-01\n",
    "\\begindata\nDELTET/DELTA_AT = 'none'\nX = 1\nDELTET/DELTA_AT = ( 1.0E1 @1-JAN-1972/00:00:00 )\n",
    "\\begindata\nDELTET/DELTA_AT = ( 10,\n\\begintext\n)\n\\begindata\n@1972-JAN-1 )\n",
];

#[test]
fn setups_with_a_table(rt: HostRuntime) -> Result<(), Fail> {
    for setup in TABLES {
        for outside in SAFE_AND_SHORT {
            let (status, output) = with_setup(&rt, setup.as_bytes(), outside)?;
            assert_eq!(rt; status, Status::Done, "{setup}");
            assert_eq!(rt; output.as_slice(), b"10.000000\n".as_slice(), "{setup}");
        }
    }
    Ok(())
}

/// Words that are refused, and the whole output.
const NO_WORDS: [(&[&str], &str); 8] = [
    (&[], "bad words MISSING -setup\n"),
    (
        &["-setup", "naif.tls", "-from", "UTC", "-to", "TAI", "-time"],
        "bad words NO_VALUE 7\n",
    ),
    (
        &["-setup", "", "-from", "UTC", "-to", "TAI", "-time", "x"],
        "bad words BAD_VALUE 2\n",
    ),
    (
        &[
            "-setup", "naif.tls", "-from", "TAI", "-to", "TAI", "-time", "5", "-time", "6",
        ],
        "bad words TWICE 9\n",
    ),
    (
        &[
            "-setup", "naif.tls", "-from", "UTC", "-to", "UTC", "-format", "JULIAND", "-batch",
        ],
        "bad words PICTURE COUNT_IN_UTC\n",
    ),
    (
        &[
            "-setup",
            "naif.tls",
            "-from",
            "TAI",
            "-to",
            "TAI",
            "-format",
            "MON YYYY::RND",
            "-time",
            "0",
        ],
        "bad words PICTURE NO_UNIT\n",
    ),
    (
        &[
            "-setup", "naif.tls", "-from", "UTC", "-to", "ET", "-totype", "SCLK", "-batch",
        ],
        "bad words BAD_PAIR -totype\n",
    ),
    (
        &[
            "-setup",
            "mission.setup",
            "-from",
            "SCLK",
            "-to",
            "ET",
            "-format",
            "SP2000X",
            "-back",
            "-time",
            "1/0",
        ],
        "bad words CONFLICT -back -format\n",
    ),
];

#[test]
fn refused_words(rt: HostRuntime) -> Result<(), Fail> {
    let alloc = rt.alloc();
    for (texts, wanted) in NO_WORDS {
        let words = words(alloc, texts)?;
        let (status, output) = run_row(alloc, words.as_slice(), files(alloc)?, b"", SAFE)?;
        assert_eq!(rt; status.code(), 2, "{wanted}");
        assert_eq!(rt; output.as_slice(), wanted.as_bytes(), "{wanted}");
    }
    Ok(())
}

#[test]
fn setups_without_a_clock(rt: HostRuntime) -> Result<(), Fail> {
    let alloc = rt.alloc();
    let shape = [
        "-setup",
        "noid.setup",
        "-from",
        "SCLK",
        "-to",
        "ET",
        "-time",
        "1/0",
    ];
    let words = words(alloc, shape.as_slice())?;
    for outside in SAFE_AND_SHORT {
        let mut map = files(alloc)?;
        put_clocks(alloc, &mut map)?;
        let (status, output) = run_row(alloc, words.as_slice(), map, b"", outside)?;
        assert_eq!(rt; status.code(), 3);
        assert_eq!(rt;
            status,
            Status::BadSetup(LineFault::NoVariable(Var::SpacecraftId))
        );
        assert_eq!(rt;
            output.as_slice(),
            b"bad setup NO_VARIABLE SPACECRAFT_ID\n".as_slice()
        );
    }
    Ok(())
}

#[test]
fn setups_that_are_absent_or_too_long(rt: HostRuntime) -> Result<(), Fail> {
    let alloc = rt.alloc();
    let shape = ["-setup", "none", "-from", "UTC", "-to", "TAI", "-batch"];
    let words = words(alloc, shape.as_slice())?;
    for outside in SAFE_AND_SHORT {
        let (status, output) = run_row(alloc, words.as_slice(), files(alloc)?, b"", outside)?;
        assert_eq!(rt; status.code(), 3);
        assert_eq!(rt; status, Status::BadSetup(LineFault::NoFile));
        assert_eq!(rt; output.as_slice(), b"bad setup NO_FILE\n".as_slice());
    }

    let long = vec![in alloc; b' '; 16_777_217]?;
    for outside in SAFE_AND_SHORT {
        let (status, output) = with_setup(&rt, long.as_slice(), outside)?;
        assert_eq!(rt; status, Status::BadSetup(LineFault::FileTooLong));
        assert_eq!(rt; output.as_slice(), b"bad setup FILE_TOO_LONG\n".as_slice());
    }
    Ok(())
}
