//! Conversions from UTC to TAI with `naif.tls`.

use st_batch::Status;
use st_trials::{SAFE_AND_SHORT, files, run_row, to_tai};
use std::test::Fail;

/// A time, and the whole output for it.
const ROWS: [(&str, &str); 13] = [
    ("2000-01-01T12:00:00", "32.000000\n"),
    ("2016-12-31T23:59:59.5", "536500835.500000\n"),
    ("2017-01-01T00:00:00", "536500837.000000\n"),
    ("2017-06-01T00:00:00", "549547237.000000\n"),
    ("1972-01-01T00:00:00", "-883655990.000000\n"),
    ("1971-12-31T23:59:59", "-883655992.000000\n"),
    // Before J2000 the sixth decimal is truncated downwards, as after it.
    ("1999-12-31T12:00:00.123456789012", "-86367.876544\n"),
    ("2000-01-01T12:00:00.999999999999", "32.999999\n"),
    ("1900-01-01T00:00:00", "-3155716791.000000\n"),
    ("1899-12-31T23:59:59", "-3155716792.000000\n"),
    ("1800-01-01T00:00:00", "-6311390391.000000\n"),
    ("2200-01-01T00:00:00", "6311390437.000000\n"),
    ("2000-02-29T00:00:00", "5054432.000000\n"),
];

#[test]
fn conversions(rt: HostRuntime) -> Result<(), Fail> {
    let alloc = rt.alloc();
    for (time, wanted) in ROWS {
        let words = to_tai(alloc, time)?;
        for outside in SAFE_AND_SHORT {
            let (status, output) = run_row(alloc, words.as_slice(), files(alloc)?, b"", outside)?;
            assert_eq!(rt; status, Status::Done, "{time}");
            assert_eq!(rt; output.as_slice(), wanted.as_bytes(), "{time}");
        }
    }
    Ok(())
}
