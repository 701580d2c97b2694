//! Kernels in whatever pieces they come: what `$load` answers.

use st_trials::{NAIF, SAFE, batch, files, in_pieces, repeated, run_row};
use std::alloc::Global;
use std::process::Abort;
use std::test::Fail;

/// How many bytes a read gives at most.
const MOST: [usize; 4] = [1, 7, 1001, 4096];

/// In all these pieces this kernel is answered so.
fn answers(rt: &impl Abort, alloc: Global, kernel: &[u8], wanted: &str) -> Result<(), Fail> {
    let words = batch(alloc)?;
    for most in MOST {
        let mut map = files(alloc)?;
        map.put(b"it.ker", Vec::from_slice(alloc, kernel)?)?;
        let outside = in_pieces(most);
        let (_, output) = run_row(alloc, words.as_slice(), map, b"$load it.ker", outside)?;
        assert_eq!(rt;
            output.strip_suffix(b"\n".as_slice()),
            Some(wanted.as_bytes()),
            "{most}"
        );
    }
    Ok(())
}

/// What stands after `\begindata`, and the answer.
const DATA: [(&str, &str); 12] = [
    ("X+=1", "loaded"),
    ("X = 1E2, 'a'", "refused KERNEL_TEXT 2 TRAILING_TEXT"),
    ("X = ( )", "refused KERNEL_TEXT 2 NO_VALUE"),
    ("X = ((1)", "refused KERNEL_TEXT 2 BAD_NUMBER"),
    ("X", "refused KERNEL_TEXT 2 NO_SIGN"),
    ("X = 'a", "refused KERNEL_TEXT 2 BAD_STRING"),
    ("X = @2000-13-01", "refused KERNEL_TEXT 2 BAD_DATE"),
    ("X = 1E401", "refused KERNEL_TEXT 2 BAD_NUMBER"),
    ("X = ( 1, 'a' )", "refused KERNEL_TEXT 2 MIXED_KINDS"),
    ("X = ( 1,", "refused KERNEL_TEXT 2 UNCLOSED"),
    ("X = 1\nY = ( 'a'\n2", "refused KERNEL_TEXT 4 MIXED_KINDS"),
    ("X++=1", "refused KERNEL_TEXT 2 NO_NAME"),
];

#[test]
fn data(rt: HostRuntime) -> Result<(), Fail> {
    let alloc = rt.alloc();
    for (data, wanted) in DATA {
        let mut kernel = repeated(alloc, "\\begindata\n", 1)?;
        kernel.extend_from_slice(data.as_bytes())?;
        answers(&rt, alloc, kernel.as_slice(), wanted)?;
    }
    Ok(())
}

/// Where `naif.tls` is cut off, and the answer.
const CUTS: [(&[u8], &str); 4] = [
    (b"DELTET/K", "refused KERNEL_TEXT 5 NO_SIGN"),
    (b"DELTET/K         =", "refused KERNEL_TEXT 5 NO_VALUE"),
    (b"@1972-JUL-1", "refused KERNEL_TEXT 8 UNCLOSED"),
    (b"@1972-JU", "refused KERNEL_TEXT 9 BAD_DATE"),
];

/// A kernel, cut off after the first place where it has this text.
fn cut_behind<'a>(kernel: &'a [u8], text: &[u8]) -> &'a [u8] {
    for start in 0..kernel.len() {
        if let Some(rest) = kernel[start..].strip_prefix(text) {
            return kernel.strip_suffix(rest).unwrap_or(kernel);
        }
    }
    kernel
}

#[test]
fn cuts(rt: HostRuntime) -> Result<(), Fail> {
    for (text, wanted) in CUTS {
        answers(&rt, rt.alloc(), cut_behind(NAIF, text), wanted)?;
    }
    Ok(())
}

/// A first line of a kernel and the answer where its second line is longer than a line may be.
const LONG: [(&str, &str); 2] = [
    ("commentary\n", "refused KERNEL_TEXT 2 LINE_TOO_LONG"),
    ("\\begindata\n", "refused KERNEL_TEXT 2 LINE_TOO_LONG"),
];

#[test]
fn long_lines(rt: HostRuntime) -> Result<(), Fail> {
    let alloc = rt.alloc();
    for (front, too_long) in LONG {
        for (count, wanted) in [
            (999usize, "loaded"),
            (1000, "loaded"),
            (1001, too_long),
            (1002, too_long),
        ] {
            for end in ["\n", "\r\n", "\r", ""] {
                let mut kernel = repeated(alloc, front, 1)?;
                kernel.extend_from_slice(b"X = 1")?;
                let blanks = repeated(alloc, " ", count.saturating_sub(5))?;
                kernel.extend_from_slice(blanks.as_slice())?;
                kernel.extend_from_slice(end.as_bytes())?;
                answers(&rt, alloc, kernel.as_slice(), wanted)?;
            }
        }
    }
    Ok(())
}

#[test]
fn long_lines_of_bytes_that_data_may_not_have(rt: HostRuntime) -> Result<(), Fail> {
    let alloc = rt.alloc();
    answers(&rt, alloc, &[200; 1000], "loaded")?;
    answers(
        &rt,
        alloc,
        &[200; 1001],
        "refused KERNEL_TEXT 1 LINE_TOO_LONG",
    )?;
    for (count, wanted) in [
        (1000, "refused KERNEL_TEXT 2 BAD_BYTE"),
        (1001, "refused KERNEL_TEXT 2 LINE_TOO_LONG"),
    ] {
        let mut kernel = repeated(alloc, "\\begindata\n", 1)?;
        let line = vec![in alloc; 200; count]?;
        kernel.extend_from_slice(line.as_slice())?;
        answers(&rt, alloc, kernel.as_slice(), wanted)?;
    }
    Ok(())
}

#[test]
fn a_file_as_long_as_a_file_may_be(rt: HostRuntime) -> Result<(), Fail> {
    let alloc = rt.alloc();
    let words = batch(alloc)?;
    for (byte, wanted) in [
        (b'\n', "loaded\n"),
        (b'(', "refused KERNEL_TEXT 1 LINE_TOO_LONG\n"),
    ] {
        let mut map = files(alloc)?;
        map.put(b"it.ker", vec![in alloc; byte; 16_777_216]?)?;
        let (_, output) = run_row(alloc, words.as_slice(), map, b"$load it.ker", SAFE)?;
        assert_eq!(rt; output.as_slice(), wanted.as_bytes(), "{byte}");
    }
    Ok(())
}
