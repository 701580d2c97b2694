//! Faults of the outside: at the setup, at a loading, and of the input and the output.

use st_batch::{LineFault, Status};
use st_outside::OutOfMemory;
use st_trials::{Outside, SAFE_AND_SHORT, files, run_batch, run_row, to_tai};
use std::alloc::Global;
use std::test::Fail;

/// A call of the files that fails, a call of the output that fails, the status, and the whole output.
const OF_ONE_TIME: [(u32, u32, Status, &str); 5] = [
    (0, 0, Status::Done, "32.000000\n"),
    (
        1,
        0,
        Status::BadSetup(LineFault::FileFault),
        "bad setup FILE_FAULT\n",
    ),
    (
        2,
        0,
        Status::BadSetup(LineFault::FileFault),
        "bad setup FILE_FAULT\n",
    ),
    (
        3,
        0,
        Status::BadSetup(LineFault::FileFault),
        "bad setup FILE_FAULT\n",
    ),
    (0, 1, Status::WriteFault, ""),
];

#[test]
fn faults_about_one_time(rt: HostRuntime) -> Result<(), Fail> {
    let alloc = rt.alloc();
    let words = to_tai(alloc, "2000-01-01T12:00:00")?;
    for (of_files, of_output, wanted, written) in OF_ONE_TIME {
        for outside in SAFE_AND_SHORT {
            let failing = Outside {
                files: of_files,
                output: of_output,
                ..outside
            };
            let (status, output) = run_row(alloc, words.as_slice(), files(alloc)?, b"", failing)?;
            assert_eq!(rt; status, wanted, "{of_files} {of_output}");
            assert_eq!(rt;
                output.as_slice(),
                written.as_bytes(),
                "{of_files} {of_output}"
            );
        }
    }
    Ok(())
}

/// A kernel that is loaded for the second line.
const TWO_LINES: &[u8] = b"$load short.tls\n2017-06-01T00:00:00";

/// The status and the output of the two lines, where one call of the files fails.
fn with_failing_file(
    alloc: Global,
    call: u32,
    outside: Outside,
) -> Result<(Status, Vec<u8>), OutOfMemory> {
    let failing = Outside {
        files: call,
        ..outside
    };
    run_batch(alloc, TWO_LINES, failing)
}

#[test]
fn faulty_loads(rt: HostRuntime) -> Result<(), Fail> {
    let alloc = rt.alloc();
    for outside in SAFE_AND_SHORT {
        // The first calls are those of the setup. The first one that `$load` makes opens its file, and the next one reads.
        let mut opening = 0;
        for call in 1..4000 {
            let (status, _) = with_failing_file(alloc, call, outside)?;
            if status == Status::SomeRefused {
                opening = call;
                break;
            }
            assert_eq!(rt; status, Status::BadSetup(LineFault::FileFault), "{call}");
        }
        for failing in [opening, opening.saturating_add(1)] {
            let (status, output) = with_failing_file(alloc, failing, outside)?;
            assert_eq!(rt; status, Status::SomeRefused, "{failing}");
            assert_eq!(rt;
                output.as_slice(),
                b"refused FILE_FAULT\n549547237.000000\n".as_slice(),
                "{failing}"
            );
        }
    }
    Ok(())
}

/// A kernel that is loaded for some time. The last line isn't ended, so its answer is written by itself.
const FIVE_LINES: &[u8] =
    b"2017-06-01T00:00:00\n$load short.tls\n2017-06-01T00:00:00\n$unload short.tls\n2017-06-01T00:00:00";

/// The answers to the first four of these lines.
const FOUR_ANSWERS: &str = "549547237.000000\nloaded\n549547236.000000\nunloaded\n";

/// How the five lines end where a call of the input or of the output fails: the call of each, the status, and what was
/// written.
const FAULTS: [(u32, u32, Status, &str); 5] = [
    (
        0,
        0,
        Status::Done,
        "549547237.000000\nloaded\n549547236.000000\nunloaded\n549547237.000000\n",
    ),
    (1, 0, Status::ReadFault, ""),
    (2, 0, Status::ReadFault, FOUR_ANSWERS),
    (0, 1, Status::WriteFault, ""),
    (0, 2, Status::WriteFault, FOUR_ANSWERS),
];

#[test]
fn faults_of_the_outside(rt: HostRuntime) -> Result<(), Fail> {
    let alloc = rt.alloc();
    for (read_call, write_call, wanted, written) in FAULTS {
        for outside in SAFE_AND_SHORT {
            let failing = Outside {
                input: read_call,
                output: write_call,
                ..outside
            };
            let (status, output) = run_batch(alloc, FIVE_LINES, failing)?;
            assert_eq!(rt; status, wanted, "{read_call} {write_call}");
            assert_eq!(rt;
                output.as_slice(),
                written.as_bytes(),
                "{read_call} {write_call}"
            );
        }
    }
    Ok(())
}
