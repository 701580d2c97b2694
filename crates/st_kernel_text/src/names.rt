//! Names of assignments and their signs, byte by byte.

ghost use Rattle.std.specs.Prelude.{◌≡◌};
ghost use Rattle.st_kernel_text.specs.ParserMachine as machine;
ghost use Rattle.st_kernel_text.specs.ParserMachine.{Gives};

use crate::assignment::Mode;
use crate::bytes::{is_name_byte, is_space};
use crate::fault::{TextCause, TextFault};
use crate::parser::{Parser, Stage, fault};
use st_text::is_blank;

/// The most bytes of a name.
const MOST_BYTES: usize = 32;

/// A byte between assignments.
pub fn on_fresh(p: &mut Parser, line: u64, byte: u8) -> Result<(), TextFault>
    ensures { Gives p.new result (machine.fresh_of p.old line byte) }
{
    if is_space(byte) {
        return Ok(());
    }
    if !is_name_byte(byte) {
        return Err(fault(line, TextCause::NoName));
    }
    push_name(p, byte)
}

fn push_name(p: &mut Parser, byte: u8) -> Result<(), TextFault>
    ensures { Gives p.new result (Ok (machine.push_name p.old byte)) }
{
    p.name.push(byte)?;
    p.stage = Stage::Name;
    Ok(())
}

/// A byte after the first of a name.
pub fn on_name(p: &mut Parser, line: u64, byte: u8) -> Result<(), TextFault>
    ensures { Gives p.new result (machine.name_of p.old line byte) }
{
    if is_name_byte(byte) {
        push_name(p, byte)
    } else if byte == b'=' && ends_in_plus(p.name.as_slice()) {
        end_added(p, line)
    } else {
        end_name(p, line, byte)
    }
}

/// A `=` after a name's last byte `+`, which is the sign's.
fn end_added(p: &mut Parser, line: u64) -> Result<(), TextFault>
    ensures { Gives p.new result (machine.added_of p.old line) }
{
    p.name.pop();
    if !is_name(p.name.as_slice()) {
        return Err(fault(line, TextCause::NoName));
    }
    sign(p, Mode::Add, line);
    Ok(())
}

fn end_name(p: &mut Parser, line: u64, byte: u8) -> Result<(), TextFault>
    ensures { Gives p.new result (machine.ended_of p.old line byte) }
{
    if !is_name(p.name.as_slice()) {
        return Err(fault(line, TextCause::NoName));
    }
    on_named(p, line, byte)
}

/// A byte after a name.
pub fn on_named(p: &mut Parser, line: u64, byte: u8) -> Result<(), TextFault>
    ensures { Gives p.new result (machine.named_of p.old line byte) }
{
    if is_blank(byte) {
        p.stage = Stage::Named;
    } else if byte == b'=' {
        sign(p, Mode::Set, line);
    } else if byte == b'+' {
        p.stage = Stage::Plus;
    } else {
        return Err(fault(line, TextCause::NoSign));
    }
    Ok(())
}

/// A byte after a `+` that is not a name's.
pub fn on_plus(p: &mut Parser, line: u64, byte: u8) -> Result<(), TextFault>
    ensures { Gives p.new result (machine.plus_of p.old line byte) }
{
    if byte != b'=' {
        return Err(fault(line, TextCause::NoSign));
    }
    sign(p, Mode::Add, line);
    Ok(())
}

fn sign(p: &mut Parser, mode: Mode, line: u64)
    ensures { p.new ≡ machine.signed p.old mode line }
{
    p.stage = Stage::Signed;
    p.mode = mode;
    p.sign = line;
}

/// Whether a name has 1 to 32 bytes, the last of them no `+`.
#[tactic(auto, unfolding(crate::specs::ParserMachine::is_name))]
fn is_name(name: &[u8]) -> bool
    ensures { result ≡ machine.is_name name.now }
{
    0 < name.len() && name.len() <= MOST_BYTES && !ends_in_plus(name)
}

#[tactic(auto, unfolding(crate::specs::ParserMachine::ends_in_plus))]
fn ends_in_plus(name: &[u8]) -> bool
    ensures { result ≡ machine.ends_in_plus name.now }
{
    match name {
        [.., last] => *last == b'+',
        [] => false,
    }
}
