//! Lines and long texts.

use st_outside::OutOfMemory;
use std::alloc::Global;

/// Appends a text as a line.
pub fn add_line(lines: &mut Vec<u8>, text: &str) -> Result<(), OutOfMemory> {
    lines.extend_from_slice(text.as_bytes())?;
    lines.push(b'\n')?;
    Ok(())
}

/// A text, so many times.
pub fn repeated(alloc: Global, text: &str, times: usize) -> Result<Vec<u8>, OutOfMemory> {
    let mut lines = Vec::new(alloc);
    for _ in 0..times {
        lines.extend_from_slice(text.as_bytes())?;
    }
    Ok(lines)
}

/// A kernel that gives a variable a million values, 400 to a line.
pub fn million(alloc: Global) -> Result<Vec<u8>, OutOfMemory> {
    let mut kernel = repeated(alloc, "\\begindata\nX = (\n", 1)?;
    let mut line = repeated(alloc, "1 ", 400)?;
    line.push(b'\n')?;
    for _ in 0..2500 {
        kernel.extend_from_slice(line.as_slice())?;
    }
    kernel.extend_from_slice(b")\n")?;
    Ok(kernel)
}
