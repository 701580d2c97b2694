//! Values of assignments, byte by byte, and what follows them.

ghost use Rattle.std.specs.Prelude.{◌≡◌};
ghost use Rattle.st_kernel_text.specs.Grammar as grammar;
ghost use Rattle.st_kernel_text.specs.ParserMachine as machine;
ghost use Rattle.st_kernel_text.specs.ParserMachine.{Gives};
ghost use Rattle.st_kernel_text.specs.ValueMachine as values;

use crate::bytes::{is_run_byte, is_separator, is_space};
use crate::fault::{TextCause, TextFault};
use crate::number::{cause_of_run, read_run};
use crate::parser::{Parser, Stage, fault};
use crate::value::{Value, ValueList};
use st_text::is_blank;

/// The most bytes of a string, each quote in it counted once.
const MOST_BYTES: usize = 80;

/// A byte between a sign and its value.
pub fn on_signed(p: &mut Parser, line: u64, byte: u8) -> Result<(), TextFault>
    ensures { Gives p.new result (machine.signed_of p.old line byte) }
{
    if is_space(byte) {
        return Ok(());
    }
    if byte != b'(' {
        return start(p, line, byte);
    }
    p.stage = Stage::InList;
    p.opened = Some(line);
    Ok(())
}

/// The first byte of a value.
fn start(p: &mut Parser, line: u64, byte: u8) -> Result<(), TextFault>
    ensures { Gives p.new result (machine.start_of p.old line byte) }
{
    if byte == b'\'' {
        p.stage = Stage::Quoted;
        Ok(())
    } else if is_run_byte(byte) {
        push_run(p, byte)
    } else if byte == b')' {
        Err(fault(line, TextCause::NoValue))
    } else {
        Err(fault(line, TextCause::BadNumber))
    }
}

fn push_run(p: &mut Parser, byte: u8) -> Result<(), TextFault>
    ensures { Gives p.new result (Ok (machine.push_run p.old byte)) }
{
    p.run.push(byte)?;
    p.stage = Stage::Run;
    Ok(())
}

/// A byte between the values of a list.
pub fn on_list(p: &mut Parser, line: u64, byte: u8) -> Result<(), TextFault>
    ensures { Gives p.new result (machine.list_of p.old line byte) }
{
    if is_separator(byte) {
        Ok(())
    } else if byte == b')' {
        close(p, line)
    } else {
        start(p, line, byte)
    }
}

/// The `)` of a list.
fn close(p: &mut Parser, line: u64) -> Result<(), TextFault>
    ensures { Gives p.new result (machine.close_of p.old line) }
{
    if p.values.is_empty() {
        return Err(fault(line, TextCause::NoValue));
    }
    p.stage = Stage::Closed;
    Ok(())
}

/// A byte in a number or a date.
pub fn on_run(p: &mut Parser, line: u64, byte: u8) -> Result<(), TextFault>
    ensures { Gives p.new result (machine.run_of p.old line byte) }
{
    if is_run_byte(byte) {
        push_run(p, byte)
    } else if byte == b'(' || byte == b'\'' {
        Err(fault(line, cause_of_run(p.run.as_slice())))
    } else {
        end_run(p, line, byte)
    }
}

fn end_run(p: &mut Parser, line: u64, byte: u8) -> Result<(), TextFault>
    ensures { Gives p.new result (machine.taken_of (values.number_of_run p.old.run) p.old line byte) }
{
    match read_run(p.run.as_slice()) {
        Some(number) => put(p, Value::Number(number), line, byte),
        None => Err(fault(line, cause_of_run(p.run.as_slice()))),
    }
}

/// A byte in a string.
pub fn on_quoted(p: &mut Parser, line: u64, byte: u8) -> Result<(), TextFault>
    ensures { Gives p.new result (machine.quoted_of p.old line byte) }
{
    if byte == b'\'' {
        p.stage = Stage::Quote;
        Ok(())
    } else if byte == b'\n' {
        Err(fault(line, TextCause::BadString))
    } else {
        push_quoted(p, line, byte)
    }
}

/// One more byte of a string, which has at most 80.
fn push_quoted(p: &mut Parser, line: u64, byte: u8) -> Result<(), TextFault>
    ensures { Gives p.new result (machine.push_quoted p.old line byte) }
{
    if p.run.len() >= MOST_BYTES {
        return Err(fault(line, TextCause::BadString));
    }
    p.run.push(byte)?;
    p.stage = Stage::Quoted;
    Ok(())
}

/// A byte after a `'` in a string.
pub fn on_quote(p: &mut Parser, line: u64, byte: u8) -> Result<(), TextFault>
    ensures { Gives p.new result (machine.quote_of p.old line byte) }
{
    if byte == b'\'' {
        push_quoted(p, line, byte)
    } else if is_separator(byte) || byte == b')' {
        end_quoted(p, line, byte)
    } else {
        Err(fault(line, TextCause::BadString))
    }
}

#[tactic(auto, unfolding(crate::specs::ParserMachine::put_of))]
fn end_quoted(p: &mut Parser, line: u64, byte: u8) -> Result<(), TextFault>
    ensures { Gives p.new result (machine.put_of p.old (Value.Text p.old.run) line byte) }
{
    let text = p.run.take();
    put(p, Value::Text(text), line, byte)
}

/// Takes a value, and the byte after it.
#[tactic(auto, unfolding(crate::specs::ParserMachine::put_of))]
fn put(p: &mut Parser, value: Value, line: u64, byte: u8) -> Result<(), TextFault>
    ensures { Gives p.new result (machine.put_of p.old value line byte) }
{
    if !fits(&p.values, &value) {
        return Err(fault(line, TextCause::MixedKinds));
    }
    p.values.push(value)?;
    p.run.clear();
    after(p, line, byte)
}

/// Whether a value has the kind of the first of those before it.
fn fits(before: &ValueList, value: &Value) -> bool
    ensures { result ≡ values.fits before.now value.now }
{
    match before.get(0) {
        Some(first) => is_same_kind(first, value),
        None => true,
    }
}

fn is_same_kind(a: &Value, b: &Value) -> bool
    ensures { result ≡ grammar.same_kind a.now b.now }
{
    match (a, b) {
        (Value::Number(_), Value::Number(_)) | (Value::Text(_), Value::Text(_)) => true,
        _ => false,
    }
}

/// The byte after a value.
fn after(p: &mut Parser, line: u64, byte: u8) -> Result<(), TextFault>
    ensures { Gives p.new result (machine.after_of p.old line byte) }
{
    match p.opened {
        Some(_) => {
            p.stage = Stage::InList;
            on_list(p, line, byte)
        }
        None => {
            p.stage = Stage::Closed;
            on_closed(p, line, byte)
        }
    }
}

/// A byte after the last value of an assignment.
pub fn on_closed(p: &mut Parser, line: u64, byte: u8) -> Result<(), TextFault>
    ensures { Gives p.new result (machine.closed_of p.old line byte) }
{
    if byte == b'\n' {
        p.keep()
    } else if is_blank(byte) {
        Ok(())
    } else {
        Err(fault(line, TextCause::TrailingText))
    }
}
