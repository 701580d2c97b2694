//! Lines, names, files and kernels at their limits and past them, in batches from UTC to TAI with the setup `naif.tls`.

use st_batch::Status;
use st_trials::{SAFE_AND_SHORT, SHORT, batch, folder, million, repeated, run_batch, run_row};
use std::test::Fail;

/// A line's first byte, how many bytes it has, and the output.
const LONG_LINES: [(&str, usize, &str); 6] = [
    ("x", 1000, "refused BAD_TIME\n"),
    ("$", 1000, "refused BAD_COMMAND\n"),
    (" ", 1000, "refused BAD_TIME\n"),
    ("x", 1001, "refused LINE_TOO_LONG\n"),
    ("$", 1001, "refused LINE_TOO_LONG\n"),
    (" ", 1001, "refused LINE_TOO_LONG\n"),
];

#[test]
fn lines_longer_than_a_line_may_be(rt: HostRuntime) -> Result<(), Fail> {
    let alloc = rt.alloc();
    for (first, count, wanted) in LONG_LINES {
        let mut line = repeated(alloc, first, 1)?;
        let rest = repeated(alloc, "x", count.saturating_sub(1))?;
        line.extend_from_slice(rest.as_slice())?;
        line.extend_from_slice(b"\r\n")?;
        let (_, output) = run_batch(alloc, line.as_slice(), SHORT)?;
        assert_eq!(rt; output.as_slice(), wanted.as_bytes(), "{first} {count}");
    }
    Ok(())
}

#[test]
fn names_longer_than_a_name_may_be(rt: HostRuntime) -> Result<(), Fail> {
    let alloc = rt.alloc();
    for (count, wanted) in [(255, "refused NO_FILE\n"), (256, "refused BAD_COMMAND\n")] {
        let mut line = repeated(alloc, "$load ", 1)?;
        line.extend_from_slice(repeated(alloc, "n", count)?.as_slice())?;
        let (_, output) = run_batch(alloc, line.as_slice(), SHORT)?;
        assert_eq!(rt; output.as_slice(), wanted.as_bytes(), "{count}");
    }
    let mut line = repeated(alloc, "$load ", 1)?;
    line.push(0xff)?;
    let (_, output) = run_batch(alloc, line.as_slice(), SHORT)?;
    assert_eq!(rt; output.as_slice(), b"refused BAD_COMMAND\n".as_slice());
    Ok(())
}

#[test]
fn a_thousand_kernels(rt: HostRuntime) -> Result<(), Fail> {
    let alloc = rt.alloc();
    let lines = repeated(alloc, "$load values.ker\n", 1001)?;
    let mut wanted = repeated(alloc, "loaded\n", 999)?;
    let refused = repeated(alloc, "refused TOO_MANY_KERNELS\n", 2)?;
    wanted.extend_from_slice(refused.as_slice())?;
    for outside in SAFE_AND_SHORT {
        let (status, output) = run_batch(alloc, lines.as_slice(), outside)?;
        assert_eq!(rt; status, Status::SomeRefused);
        assert_eq!(rt; output.as_slice(), wanted.as_slice());
    }
    Ok(())
}

#[test]
fn two_million_values(rt: HostRuntime) -> Result<(), Fail> {
    let alloc = rt.alloc();
    let words = batch(alloc)?;
    // Without the setup's values two million have room, and not one more.
    let lines =
        b"$unload naif.tls\n$load million.ker\n$load million.ker\n$load more.tls\n$load plain.ker\n";
    let wanted = b"unloaded\nloaded\nloaded\nrefused TOO_MANY_VALUES\nloaded\n";
    for outside in SAFE_AND_SHORT {
        let mut map = folder(alloc)?;
        map.put(b"million.ker", million(alloc)?)?;
        let (status, output) = run_row(alloc, words.as_slice(), map, lines, outside)?;
        assert_eq!(rt; status, Status::SomeRefused);
        assert_eq!(rt; output.as_slice(), wanted.as_slice());
    }
    Ok(())
}

#[test]
fn a_file_that_is_too_long(rt: HostRuntime) -> Result<(), Fail> {
    let alloc = rt.alloc();
    let words = batch(alloc)?;
    // Its one line is too long as well, which its length comes before.
    let lines = b"$load long.ker\n2017-06-01T00:00:00\n";
    let wanted = b"refused FILE_TOO_LONG\n549547237.000000\n";
    for outside in SAFE_AND_SHORT {
        let mut map = folder(alloc)?;
        map.put(b"long.ker", vec![in alloc; b' '; 16_777_217]?)?;
        let (status, output) = run_row(alloc, words.as_slice(), map, lines, outside)?;
        assert_eq!(rt; status, Status::SomeRefused);
        assert_eq!(rt; output.as_slice(), wanted.as_slice());
    }
    Ok(())
}

#[test]
fn lines_cut_by_the_reads(rt: HostRuntime) -> Result<(), Fail> {
    let alloc = rt.alloc();
    // 84,000 bytes, of which a read gives at most 65,536.
    let lines = repeated(alloc, "2017-06-01T00:00:00\r\n", 4000)?;
    let wanted = repeated(alloc, "549547237.000000\n", 4000)?;
    let (status, output) = run_batch(alloc, lines.as_slice(), SHORT)?;
    assert_eq!(rt; status, Status::Done);
    assert_eq!(rt; output.as_slice(), wanted.as_slice());
    Ok(())
}
