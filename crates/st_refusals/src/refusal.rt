//! The texts of refusals.

ghost use Rattle.std.specs.Prelude.{◌≡◌, ◌≢◌, ◌∷◌, ◌++◌, OnOk, OnErr};
ghost use Rattle.st_refusals.specs.Texts as texts;
ghost use Rattle.st_refusals.specs.Texts.{refusal_details, refusal_name, refusal_text};
ghost use Rattle.st_tables.specs.Names.{var_name};
ghost use Rattle.st_text.specs.Bytes.{decimal_digits};

use crate::fault::LineFault;
use st_decimal::{OutOfMemory, put_fixed};
use st_kernel_text::TextCause;
use st_leaps::LeapFault;
use st_scales::{DeltetFault, DeltetVar};
use st_tables::put_name;
use st_ticks::{ClockTextFault, ClockWhy, Var};

/// Appends the text of a refusal, which isn't want of memory: its name, and its details after it, each after one
/// blank.
///
/// # Errors
///
/// `OutOfMemory`; nothing is then appended.
pub fn put_refusal(out: &mut Vec<u8>, fault: &LineFault) -> Result<(), OutOfMemory>
    requires { fault.now ≢ LineFault.OutOfMemory }
    ensures ok { OnOk result (out.new.items ≡ out.old.items ++ refusal_text fault.now) }
    ensures err { OnErr result (out.new.items ≡ out.old.items) }
{
    let mut text = Vec::new(*out.allocator());
    text.extend_from_slice(name_of(*fault))?;
    put_details(&mut text, *fault)?;
    out.extend_from_slice(text.as_slice())?;
    Ok(())
}

/// The name of a refusal.
fn name_of(fault: LineFault) -> &'static [u8]
    ensures { result.now ≡ refusal_name fault }
{
    match fault {
        LineFault::BadCommand => b"BAD_COMMAND",
        LineFault::LineTooLong => b"LINE_TOO_LONG",
        LineFault::NoFile => b"NO_FILE",
        LineFault::FileFault => b"FILE_FAULT",
        LineFault::FileTooLong => b"FILE_TOO_LONG",
        LineFault::KernelText { .. } => b"KERNEL_TEXT",
        LineFault::TooManyKernels => b"TOO_MANY_KERNELS",
        LineFault::TooManyValues => b"TOO_MANY_VALUES",
        LineFault::NotLoaded => b"NOT_LOADED",
        LineFault::NoVariable(_) => b"NO_VARIABLE",
        LineFault::WrongKind(_) => b"WRONG_KIND",
        LineFault::BadId => b"BAD_ID",
        LineFault::BadLeaps(_) => b"BAD_LEAPS",
        LineFault::BadDeltet(_) => b"BAD_DELTET",
        LineFault::BadClock { .. } => b"BAD_CLOCK",
        LineFault::BadTime => b"BAD_TIME",
        LineFault::WrongSystem => b"WRONG_SYSTEM",
        LineFault::NoSuchDay => b"NO_SUCH_DAY",
        LineFault::OutOfRange => b"OUT_OF_RANGE",
        LineFault::NoSuchSecond => b"NO_SUCH_SECOND",
        LineFault::BadClockText(_) => b"BAD_CLOCK_TEXT",
        LineFault::BeforeClock => b"BEFORE_CLOCK",
        LineFault::AfterClock => b"AFTER_CLOCK",
        LineFault::Undecided => b"UNDECIDED",
        LineFault::OutOfMemory => b"",
    }
}

/// Appends the details of a refusal.
fn put_details(out: &mut Vec<u8>, fault: LineFault) -> Result<(), OutOfMemory>
    ensures { OnOk result (out.new.items ≡ out.old.items ++ refusal_details fault) }
{
    match fault {
        LineFault::KernelText { line, cause } => {
            put_number(out, line)?;
            put_word(out, cause_text(cause))
        }
        LineFault::NoVariable(var) | LineFault::WrongKind(var) => put_variable(out, var),
        LineFault::BadLeaps(fault) => put_leaps(out, fault),
        LineFault::BadDeltet(fault) => put_deltet(out, fault),
        LineFault::BadClock { var, why, n } => {
            put_variable(out, Var::Clock { var, n })?;
            put_word(out, why_text(why))
        }
        LineFault::BadClockText(fault) => put_word(out, clock_text(fault)),
        _ => Ok(()),
    }
}

/// Appends a word after a blank.
fn put_word(out: &mut Vec<u8>, word: &[u8]) -> Result<(), OutOfMemory>
    ensures { OnOk result (out.new.items ≡ out.old.items ++ (32 ∷ word.now)) }
{
    out.push(b' ')?;
    out.extend_from_slice(word)?;
    Ok(())
}

/// Appends a number after a blank.
fn put_number(out: &mut Vec<u8>, number: u64) -> Result<(), OutOfMemory>
    ensures { OnOk result (out.new.items ≡ out.old.items ++ (32 ∷ decimal_digits number)) }
{
    out.push(b' ')?;
    put_fixed(out, i128::from(number), 0)
}

/// Appends the name of a variable after a blank.
fn put_variable(out: &mut Vec<u8>, var: Var) -> Result<(), OutOfMemory>
    ensures { OnOk result (out.new.items ≡ out.old.items ++ (32 ∷ var_name var)) }
{
    out.push(b' ')?;
    put_name(out, var)
}

/// Appends the rule that a table of leap seconds breaks.
fn put_leaps(out: &mut Vec<u8>, fault: LeapFault) -> Result<(), OutOfMemory>
    ensures { OnOk result (out.new.items ≡ out.old.items ++ texts.leap_text fault) }
{
    match fault {
        LeapFault::Empty => put_word(out, b"EMPTY"),
        LeapFault::Odd => put_word(out, b"ODD"),
        LeapFault::TooMany => put_word(out, b"TOO_MANY"),
        LeapFault::NotWhole(n) => put_pair(out, b"NOT_WHOLE", n),
        LeapFault::NotMidnight(n) => put_pair(out, b"NOT_MIDNIGHT", n),
        LeapFault::NotRising(n) => put_pair(out, b"NOT_RISING", n),
        LeapFault::BadStep(n) => put_pair(out, b"BAD_STEP", n),
        LeapFault::OutOfMemory => Ok(()),
    }
}

/// Appends a rule and the number of the pair that breaks it.
fn put_pair(out: &mut Vec<u8>, rule: &[u8], pair: u32) -> Result<(), OutOfMemory>
    ensures { OnOk result (out.new.items ≡ out.old.items ++ ((32 ∷ rule.now) ++ (32 ∷ decimal_digits pair))) }
{
    put_word(out, rule)?;
    put_number(out, u64::from(pair))
}

/// Appends the rule that constants break, and the constant.
fn put_deltet(out: &mut Vec<u8>, fault: DeltetFault) -> Result<(), OutOfMemory>
    ensures { OnOk result (out.new.items ≡ out.old.items ++ texts.deltet_text fault) }
{
    match fault {
        DeltetFault::Count(var) => put_constant(out, b"COUNT", var),
        DeltetFault::NotUnits(var) => put_constant(out, b"NOT_UNITS", var),
        DeltetFault::Range(var) => put_constant(out, b"RANGE", var),
    }
}

/// Appends a rule and the constant that breaks it.
fn put_constant(out: &mut Vec<u8>, rule: &[u8], var: DeltetVar) -> Result<(), OutOfMemory>
    ensures { OnOk result (out.new.items ≡ out.old.items ++ ((32 ∷ rule.now) ++ (32 ∷ texts.constant_text var))) }
{
    put_word(out, rule)?;
    put_word(out, constant_text(var))
}

/// The name of a constant.
fn constant_text(var: DeltetVar) -> &'static [u8]
    ensures { result.now ≡ texts.constant_text var }
{
    match var {
        DeltetVar::DeltaTa => b"DELTA_T_A",
        DeltetVar::K => b"K",
        DeltetVar::Eb => b"EB",
        DeltetVar::M => b"M",
        DeltetVar::M0 => b"M0",
        DeltetVar::M1 => b"M1",
    }
}

/// The name of a rule of a clock's variables.
fn why_text(why: ClockWhy) -> &'static [u8]
    ensures { result.now ≡ texts.why_text why }
{
    match why {
        ClockWhy::NotOne => b"NOT_ONE",
        ClockWhy::NotWhole => b"NOT_WHOLE",
        ClockWhy::NotUnits => b"NOT_UNITS",
        ClockWhy::Range => b"RANGE",
        ClockWhy::Count => b"COUNT",
        ClockWhy::Product => b"PRODUCT",
        ClockWhy::NotRising => b"NOT_RISING",
    }
}

/// The name of why a text is no clock string.
fn clock_text(fault: ClockTextFault) -> &'static [u8]
    ensures { result.now ≡ texts.clock_text fault }
{
    match fault {
        ClockTextFault::Form => b"FORM",
        ClockTextFault::TooManyFields => b"TOO_MANY_FIELDS",
        ClockTextFault::NoPartition => b"NO_PARTITION",
        ClockTextFault::FieldBelowOffset => b"FIELD_BELOW_OFFSET",
        ClockTextFault::TooLarge => b"TOO_LARGE",
        ClockTextFault::NotInPartition => b"NOT_IN_PARTITION",
    }
}

/// The name of what breaks in a kernel.
fn cause_text(cause: TextCause) -> &'static [u8]
    ensures { result.now ≡ texts.cause_text cause }
{
    match cause {
        TextCause::LineTooLong => b"LINE_TOO_LONG",
        TextCause::NoName => b"NO_NAME",
        TextCause::NoSign => b"NO_SIGN",
        TextCause::NoValue => b"NO_VALUE",
        TextCause::BadNumber => b"BAD_NUMBER",
        TextCause::BadString => b"BAD_STRING",
        TextCause::BadDate => b"BAD_DATE",
        TextCause::MixedKinds => b"MIXED_KINDS",
        TextCause::Unclosed => b"UNCLOSED",
        TextCause::BadByte => b"BAD_BYTE",
        TextCause::TrailingText => b"TRAILING_TEXT",
    }
}
