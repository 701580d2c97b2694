//! The names of variables.

ghost use Rattle.std.specs.Prelude.{◌≡◌, ◌++◌, ◌≤◌, decimal, length, OnOk, OnErr};
ghost use Rattle.arrayvec.specs.ArrayString.{array_string_len};
ghost use Rattle.st_tables.specs.Names.{clock_name, var_name};

use arrayvec::ArrayString;
use itoa::Buffer;
use st_decimal::OutOfMemory;
use st_ticks::{ClockVar, Var};

/// The greatest length of a name: 21 bytes of a clock's variable, and ten digits.
const MOST_BYTES: usize = 31;

/// The name of a variable, which takes no memory.
pub type Name = ArrayString<MOST_BYTES>;

/// The name of a variable, as `DELTET/DELTA_AT` or, of the clock whose id is -82, `SCLK01_MODULI_82`.
///
/// Source: the header of NAIF's leapseconds kernels, SCLK Required Reading, and CHRONOS User's Guide.
pub fn name_of(var: Var) -> Name
    ensures { result.bytes ≡ var_name var }
{
    match var {
        Var::DeltaAt => name("DELTET/DELTA_AT"),
        Var::DeltaTa => name("DELTET/DELTA_T_A"),
        Var::K => name("DELTET/K"),
        Var::Eb => name("DELTET/EB"),
        Var::M => name("DELTET/M"),
        Var::Clock { var, n } => numbered(front(var), n),
        Var::LeapsecondsFile => name("LEAPSECONDS_FILE"),
        Var::SclkFile => name("SCLK_FILE"),
        Var::SpacecraftId => name("SPACECRAFT_ID"),
        Var::KernelsToLoad => name("KERNELS_TO_LOAD"),
        Var::PathSymbols => name("PATH_SYMBOLS"),
        Var::PathValues => name("PATH_VALUES"),
        Var::CorrelateId => name("CORRELATE_ID"),
        Var::CorrelateTolerance => name("CORRELATE_TOLERANCE"),
        Var::CorrelatePairs => name("CORRELATE_PAIRS"),
    }
}

/// Appends the name of a variable.
///
/// # Errors
///
/// `OutOfMemory`; nothing is appended then.
pub fn put_name(out: &mut Vec<u8>, var: Var) -> Result<(), OutOfMemory>
    ensures ok { OnOk result (out.new.items ≡ out.old.items ++ var_name var) }
    ensures err { OnErr result (out.new.items ≡ out.old.items) }
{
    out.extend_from_slice(name_of(var).as_str().as_bytes())
}

/// The name of a clock's variable, up to the clock's number.
fn front(var: ClockVar) -> &'static str
    ensures name { result.now ≡ clock_name var }
    ensures short { length result.now ≤ 21 }
{
    match var {
        ClockVar::DataType => "SCLK_DATA_TYPE_",
        ClockVar::TimeSystem => "SCLK01_TIME_SYSTEM_",
        ClockVar::NFields => "SCLK01_N_FIELDS_",
        ClockVar::Moduli => "SCLK01_MODULI_",
        ClockVar::Offsets => "SCLK01_OFFSETS_",
        ClockVar::Delim => "SCLK01_OUTPUT_DELIM_",
        ClockVar::Start => "SCLK_PARTITION_START_",
        ClockVar::End => "SCLK_PARTITION_END_",
        ClockVar::Coefficients => "SCLK01_COEFFICIENTS_",
    }
}

/// A name as it is written.
fn name(text: &str) -> Name
    requires { length text.now ≤ MOST_BYTES }
    ensures { result.bytes ≡ text.now }
{
    let mut name = Name::new();
    name.push_str(text);
    name
}

/// A name with a number after it.
fn numbered(front: &str, n: u32) -> Name
    requires { length front.now ≤ 21 }
    ensures { result.bytes ≡ front.now ++ decimal n }
{
    let mut digits = Buffer::new();
    let mut name = name(front);
    name.push_str(digits.format(n));
    name
}
