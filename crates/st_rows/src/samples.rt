//! Samples: the words, the status, and the line that is written. No input is read: its first read would fail.

use st_batch::Status;
use st_trials::{Outside, SAFE_AND_SHORT, folder, put_clocks, run_row, words};
use std::test::Fail;

/// The first read of the input would fail.
const FIRST_READ: u32 = 1;

const SAMPLES: [(&[&str], Status, &str); 6] = [
    (
        &[
            "-setup", "naif.tls", "-from", "TAI", "-to", "TT", "-sample", "1", "0",
        ],
        Status::Done,
        "sample 1 texts 1 refused 0 sum 871\n",
    ),
    (
        &[
            "-setup", "naif.tls", "-from", "TAI", "-to", "TT", "-sample", "10000", "7",
        ],
        Status::Done,
        "sample 10000 texts 10000 refused 0 sum 8439686\n",
    ),
    (
        &[
            "-setup", "naif.tls", "-from", "UTC", "-to", "TAI", "-sample", "1000", "5",
        ],
        Status::Done,
        "sample 1000 texts 1000 refused 0 sum 843548\n",
    ),
    (
        &[
            "-setup",
            "mission.setup",
            "-from",
            "SCLK",
            "-to",
            "ET",
            "-back",
            "-sample",
            "1000",
            "3",
        ],
        Status::Done,
        "sample 1000 texts 1000 refused 0 sum 2151541\n",
    ),
    (
        &[
            "-setup",
            "mission.setup",
            "-from",
            "SCLK",
            "-fromtype",
            "TICKS",
            "-to",
            "SCLK",
            "-sample",
            "1000",
            "3",
        ],
        Status::Done,
        "sample 1000 texts 1000 refused 0 sum 817307\n",
    ),
    // There is no clock kernel.
    (
        &[
            "-setup", "naif.tls", "-from", "SCLK", "-sc", "-82", "-to", "ET", "-sample", "3", "0",
        ],
        Status::SomeRefused,
        "sample 3 texts 0 refused 3 sum 8832\n",
    ),
];

#[test]
fn samples(rt: HostRuntime) -> Result<(), Fail> {
    let alloc = rt.alloc();
    for (texts, end, wanted) in SAMPLES {
        let words = words(alloc, texts)?;
        for outside in SAFE_AND_SHORT {
            let unread = Outside {
                input: FIRST_READ,
                ..outside
            };
            let mut map = folder(alloc)?;
            put_clocks(alloc, &mut map)?;
            let (status, output) = run_row(alloc, words.as_slice(), map, b"", unread)?;
            assert_eq!(rt; status, end, "{wanted}");
            assert_eq!(rt; output.as_slice(), wanted.as_bytes(), "{wanted}");
        }
    }
    Ok(())
}
