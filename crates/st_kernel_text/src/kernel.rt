//! The lines of a kernel: markers, commentary and data.

ghost use Rattle.std.specs.Prelude.{◌≡◌};
ghost use Rattle.std.specs.List.{list_all};
ghost use Rattle.st_kernel_text.specs.Bytes as bytes;
ghost use Rattle.st_kernel_text.specs.File as file;
ghost use Rattle.st_kernel_text.specs.File.{numbered};
ghost use Rattle.st_kernel_text.specs.LinesMachine as machine;
ghost use Rattle.st_kernel_text.specs.LinesMachine.{beginning, line_of};
ghost use Rattle.st_kernel_text.specs.ParserMachine.{Gives, steps_of};

use crate::bytes::is_allowed;
use crate::fault::{TextCause, TextFault};
use crate::parser::{Parser, fault};
use crate::steps::step;
use st_text::{are_blanks, skip_blanks};
use std::alloc::Global;

/// The most bytes of a line, without its end.
pub const MOST_BYTES: usize = 1000;

/// What the lines so far have given.
#[derive(Debug, Drop)]
pub struct Kernel {
    pub parser: Parser,
    /// Whether the next line stands among data.
    pub reading: bool,
}

impl Kernel {
    /// The kernel before the first line, which stands in commentary.
    pub fn new(alloc: Global) -> Self
        ensures { result ≡ beginning }
    {
        Kernel {
            parser: Parser::new(alloc),
            reading: false,
        }
    }
}

/// Reads one line, without its end.
#[tactic(auto, unfolding(crate::specs::LinesMachine::line_of))]
pub fn read_line(kernel: &mut Kernel, number: u64, line: &[u8]) -> Result<(), TextFault>
    ensures { Gives kernel.new result (line_of kernel.old number line.now) }
{
    if line.len() > MOST_BYTES {
        return Err(fault(number, TextCause::LineTooLong));
    }
    if is_data_marker(line) {
        kernel.reading = true;
        return Ok(());
    }
    if is_text_marker(line) {
        kernel.reading = false;
        return Ok(());
    }
    if !kernel.reading {
        return Ok(());
    }
    read_data(kernel, number, line)
}

fn read_data(kernel: &mut Kernel, number: u64, line: &[u8]) -> Result<(), TextFault>
    ensures { Gives kernel.new result (machine.data_of kernel.old number line.now) }
{
    if !are_allowed(line) {
        return Err(fault(number, TextCause::BadByte));
    }
    read_bytes(&mut kernel.parser, number, line)?;
    step(&mut kernel.parser, number, b'\n')?;
    Ok(())
}

fn read_bytes(parser: &mut Parser, number: u64, line: &[u8]) -> Result<(), TextFault>
    ensures { Gives parser.new result (steps_of parser.old (numbered number line.now)) }
{
    for byte in line {
        step(parser, number, *byte)?;
    }
    Ok(())
}

fn are_allowed(line: &[u8]) -> bool
    ensures { result ≡ list_all bytes.is_allowed line.now }
{
    line.iter().all(|&byte| is_allowed(byte))
}

fn is_data_marker(line: &[u8]) -> bool
    ensures { result ≡ file.begins_data line.now }
{
    is_marker(b"\\begindata", line)
}

fn is_text_marker(line: &[u8]) -> bool
    ensures { result ≡ file.begins_text line.now }
{
    is_marker(b"\\begintext", line)
}

/// Whether a line is a word with blanks around it.
#[tactic(auto, unfolding(crate::specs::File::is_marker))]
fn is_marker(word: &[u8], line: &[u8]) -> bool
    ensures { result ≡ file.is_marker word.now line.now }
{
    let rest = skip_blanks(line);
    rest.starts_with(word) && are_blanks(&rest[word.len()..])
}
