//! Kernels by the calls of their readers: whole and in single bytes they are answered alike.

ghost use Rattle.std.specs.Prelude.{◌+◌, ◌<◌, ◌≤◌, ◌^◌, length};

use st_kernel_text::{AssignmentList, KernelReader, TextFault, read_kernel};
use st_trials::{NAIF, repeated};
use std::alloc::Global;
use std::process::Abort;
use std::test::Fail;

/// Feeds bytes one by one.
fn feed_bytes(reader: &mut KernelReader, bytes: &[u8]) -> Result<(), TextFault>
    requires few { reader.old.count + length bytes.now < 2 ^ 63 }
    ensures count { reader.new.count ≤ reader.old.count + length bytes.now }
{
    let mut rest = bytes;
    while !rest.is_empty() {
        reader.feed(&rest[..1])?;
        rest = &rest[1..];
    }
    Ok(())
}

/// What a kernel that comes in single bytes is read to.
fn read_bytes(alloc: Global, kernel: &[u8]) -> Result<AssignmentList, TextFault> {
    let mut reader = KernelReader::new(alloc);
    feed_bytes(&mut reader, kernel)?;
    reader.finish()
}

/// What a kernel is read to, as a text.
fn read(rt: &impl Abort, alloc: Global, kernel: &[u8]) -> Result<String, Fail> {
    let whole = read_kernel(alloc, kernel);
    let bytes = read_bytes(alloc, kernel);
    let whole = format!(in alloc; "{whole:?}")?;
    let bytes = format!(in alloc; "{bytes:?}")?;
    assert_eq!(rt; whole.as_str(), bytes.as_str(), "{kernel:?}");
    Ok(whole)
}

/// Reads each beginning of a kernel.
fn read_beginnings(rt: &impl Abort, alloc: Global, kernel: &[u8]) -> Result<(), Fail> {
    for end in 0..=kernel.len() {
        read(rt, alloc, &kernel[..end])?;
    }
    Ok(())
}

#[test]
fn cuts_at_every_length(rt: HostRuntime) -> Result<(), Fail> {
    read_beginnings(&rt, rt.alloc(), NAIF)
}

/// A kernel in which each byte is changed to every other.
const SMALL: [u8; 56] = *b"\\begindata\nX = ( 1, @2000-1-1 )\r\nY += 'it''s'\n\\begintext";

#[test]
fn any_byte_in_any_place(rt: HostRuntime) -> Result<(), Fail> {
    for place in 0..SMALL.len() {
        for byte in 0..=255u8 {
            let mut kernel = SMALL;
            kernel[place] = byte;
            read(&rt, rt.alloc(), &kernel)?;
        }
    }
    Ok(())
}

/// Texts after `\begindata`: the front, what is repeated and how often, and the end; and how what is read begins.
const REPEATED: [(&str, &str, usize, &str, &str); 22] = [
    ("X = ", "(", 996, "", "Err(At { line: 2, cause: BadNumber"),
    (
        "X = (\n",
        "(\n",
        5000,
        "",
        "Err(At { line: 3, cause: BadNumber",
    ),
    ("", "N", 32, " = 1", "Ok("),
    ("", "N", 33, " = 1", "Err(At { line: 2, cause: NoName"),
    ("", "N", 32, "+=1", "Ok("),
    ("", "N", 33, "+=1", "Err(At { line: 2, cause: NoName"),
    ("X = '", "a", 80, "'", "Ok("),
    ("X = '", "a", 81, "'", "Err(At { line: 2, cause: BadString"),
    ("X = '", "''", 80, "'", "Ok("),
    ("X = '", "''", 81, "'", "Err(At { line: 2, cause: BadString"),
    ("X = ", "9", 30, "", "Ok("),
    ("X = ", "9", 31, "", "Err(At { line: 2, cause: BadNumber"),
    ("X = ", "0", 990, "1", "Ok("),
    ("X = 1", "0", 990, "", "Ok("),
    ("X = 0.", "0", 990, "1", "Ok("),
    ("X = 1E-", "0", 900, "400", "Ok("),
    (
        "X = 1E-",
        "0",
        900,
        "401",
        "Err(At { line: 2, cause: BadNumber",
    ),
    ("X = @", "9", 900, "", "Err(At { line: 2, cause: BadDate"),
    ("X = (", "\n1", 5000, "\n)", "Ok("),
    (
        "X = (",
        "\n1",
        5000,
        "",
        "Err(At { line: 2, cause: Unclosed",
    ),
    (
        "X = 1",
        "\n",
        5000,
        "Y",
        "Err(At { line: 5002, cause: NoSign",
    ),
    ("X = (", "\n\\begintext\n\\begindata", 1000, "\n1 )", "Ok("),
];

#[test]
fn deepest_and_longest(rt: HostRuntime) -> Result<(), Fail> {
    let alloc = rt.alloc();
    for (front, text, times, back, wanted) in REPEATED {
        let mut kernel = repeated(alloc, "\\begindata\n", 1)?;
        kernel.extend_from_slice(front.as_bytes())?;
        kernel.extend_from_slice(repeated(alloc, text, times)?.as_slice())?;
        kernel.extend_from_slice(back.as_bytes())?;
        let answer = read(&rt, alloc, kernel.as_slice())?;
        assert!(rt;
            answer.as_str().starts_with(wanted),
            "{front} {text} {times} {back}"
        );
    }
    Ok(())
}
