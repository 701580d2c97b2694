//! Faults of the outside, one call at a time, whatever pieces it gives and takes.

use st_batch::{LineFault, Status};
use st_trials::{Outside, add_line, in_pieces, run_batch};
use std::alloc::Global;
use std::test::Fail;

/// How many bytes a call gives or takes at most.
const MOST: [usize; 3] = [1, 7, 4096];

/// A kernel that is loaded for some time: each line, its answer, and its answer where the loading met a fault.
const LINES: [(&str, &str, &str); 4] = [
    ("$load short.tls", "loaded", "refused FILE_FAULT"),
    (
        "2017-06-01T00:00:00",
        "549547236.000000",
        "549547237.000000",
    ),
    ("$unload short.tls", "unloaded", "refused NOT_LOADED"),
    (
        "2017-06-01T00:00:00",
        "549547237.000000",
        "549547237.000000",
    ),
];

/// The input that these lines are.
fn input(alloc: Global) -> Result<Vec<u8>, Fail> {
    let mut lines = Vec::new(alloc);
    for (line, _, _) in LINES {
        add_line(&mut lines, line)?;
    }
    Ok(lines)
}

/// The answers to the lines that end in the first bytes of the input.
fn answers(alloc: Global, given: usize) -> Result<Vec<u8>, Fail> {
    let mut answers = Vec::new(alloc);
    let mut end: usize = 0;
    for (line, answer, _) in LINES {
        end = end.saturating_add(line.len()).saturating_add(1);
        if end <= given {
            add_line(&mut answers, answer)?;
        }
    }
    Ok(answers)
}

/// All answers where the loading met a fault.
fn answers_after_a_fault(alloc: Global) -> Result<Vec<u8>, Fail> {
    let mut answers = Vec::new(alloc);
    for (_, _, answer) in LINES {
        add_line(&mut answers, answer)?;
    }
    Ok(answers)
}

/// How many bytes a call of the files gives at most, and how many calls pass before the forty of which each fails in
/// turn. The first forty are the setup's; where pieces are small, a second row begins about where the loading does.
const CALLS: [(usize, u32); 5] = [(1, 0), (1, 1200), (7, 0), (7, 160), (4096, 0)];

#[test]
fn failing_calls_of_the_files(rt: HostRuntime) -> Result<(), Fail> {
    let alloc = rt.alloc();
    let lines = input(alloc)?;
    let good = answers(alloc, usize::MAX)?;
    let bad = answers_after_a_fault(alloc)?;
    for (most, passed) in CALLS {
        // The setup comes first, and then the loading; after it no call is left to fail.
        let mut reached = 0;
        for call in 1..41u32 {
            let failing = Outside {
                files: passed.saturating_add(call),
                ..in_pieces(most)
            };
            let (status, output) = run_batch(alloc, lines.as_slice(), failing)?;
            let (stage, wanted) = match status {
                Status::BadSetup(LineFault::FileFault) => (0, b"bad setup FILE_FAULT\n".as_slice()),
                Status::SomeRefused => (1, bad.as_slice()),
                _ => (2, good.as_slice()),
            };
            assert_eq!(rt; output.as_slice(), wanted, "{most} {call}");
            // Each of the two files is opened, and read at least twice: at last it tells its end.
            let passes = status == Status::Done && 6 < call;
            assert!(rt; stage < 2 || passes, "{most} {call}");
            assert!(rt; reached <= stage, "{most} {call}");
            reached = stage;
        }
    }
    Ok(())
}

#[test]
fn failing_reads_of_the_input(rt: HostRuntime) -> Result<(), Fail> {
    let alloc = rt.alloc();
    let lines = input(alloc)?;
    for most in MOST {
        for passed in 0..40u32 {
            let failing = Outside {
                input: passed.saturating_add(1),
                ..in_pieces(most)
            };
            let (status, output) = run_batch(alloc, lines.as_slice(), failing)?;
            // What was answered is all that ended in the pieces before.
            let given = most.saturating_mul(passed as usize);
            let wanted = answers(alloc, given)?;
            assert_eq!(rt; output.as_slice(), wanted.as_slice(), "{most} {passed}");
            // The last call before told that none is left.
            let told = lines.len() <= most.saturating_mul(passed.saturating_sub(1) as usize);
            let whole = status == Status::Done && told;
            assert!(rt; status == Status::ReadFault || whole, "{most} {passed}");
        }
    }
    Ok(())
}

#[test]
fn failing_writes(rt: HostRuntime) -> Result<(), Fail> {
    let alloc = rt.alloc();
    let lines = input(alloc)?;
    let good = answers(alloc, usize::MAX)?;
    for most in MOST {
        for passed in 0..40u32 {
            let failing = Outside {
                output: passed.saturating_add(1),
                ..in_pieces(most)
            };
            let (status, output) = run_batch(alloc, lines.as_slice(), failing)?;
            // Each write before took at least a byte, and at most a piece.
            let least = passed as usize;
            let room = most.saturating_mul(least);
            assert!(rt; good.starts_with(output.as_slice()), "{most} {passed}");
            let taken = least <= output.len() && output.len() <= room;
            let cut_off = status == Status::WriteFault && taken;
            let all = output.len() == good.len() && good.len() <= room;
            let whole = status == Status::Done && all;
            assert!(rt; cut_off || whole, "{most} {passed}");
        }
    }
    Ok(())
}
