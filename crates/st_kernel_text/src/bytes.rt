//! Which bytes may stand where.

ghost use Rattle.std.specs.Prelude.{◌≡◌};
ghost use Rattle.st_kernel_text.specs.Bytes as spec;

use st_text::is_blank;

/// Whether a byte is a blank or the end of a line.
pub fn is_space(byte: u8) -> bool
    ensures { result ≡ spec.is_space byte }
{
    is_blank(byte) || byte == b'\n'
}

/// Whether a byte may stand between two values.
pub fn is_separator(byte: u8) -> bool
    ensures { result ≡ spec.is_separator byte }
{
    is_space(byte) || byte == b','
}

/// Whether a byte is `(`, `)` or `'`.
fn is_delimiter(byte: u8) -> bool
    ensures { result ≡ spec.is_delimiter byte }
{
    byte == b'(' || byte == b')' || byte == b'\''
}

/// Whether a name may have a byte.
#[tactic(auto, unfolding(crate::specs::Bytes::is_name_byte))]
pub fn is_name_byte(byte: u8) -> bool
    ensures { result ≡ spec.is_name_byte byte }
{
    33 <= byte && byte <= 126 && !(is_delimiter(byte) || byte == b',' || byte == b'=')
}

/// Whether a number or a date may have a byte.
#[tactic(auto, unfolding(crate::specs::Bytes::is_run_byte))]
pub fn is_run_byte(byte: u8) -> bool
    ensures { result ≡ spec.is_run_byte byte }
{
    !(is_separator(byte) || is_delimiter(byte))
}

/// Whether a data line may have a byte.
#[tactic(auto, unfolding(crate::specs::Bytes::is_allowed))]
pub fn is_allowed(byte: u8) -> bool
    ensures { result ≡ spec.is_allowed byte }
{
    byte == b'\t' || (32 <= byte && byte <= 126)
}
