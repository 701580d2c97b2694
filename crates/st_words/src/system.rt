//! The words that name systems of time.

ghost use Rattle.std.specs.Prelude.{◌≡◌};
ghost use Rattle.st_words.specs.WordsMachine as machine;

use st_dates::System;

/// The system that a word names, in any letter case.
#[tactic(auto, unfolding(crate::specs::WordsMachine::system_of))]
pub fn system_of(word: &[u8]) -> Option<System>
    ensures { result ≡ machine.system_of word.now }
{
    if word.eq_ignore_ascii_case(b"UTC") {
        Some(System::Utc)
    } else if word.eq_ignore_ascii_case(b"TAI") {
        Some(System::Tai)
    } else if word.eq_ignore_ascii_case(b"TT") || word.eq_ignore_ascii_case(b"TDT") {
        Some(System::Tt)
    } else if word.eq_ignore_ascii_case(b"TDB") || word.eq_ignore_ascii_case(b"ET") {
        Some(System::Tdb)
    } else if word.eq_ignore_ascii_case(b"SCLK") {
        Some(System::Sclk)
    } else {
        None
    }
}
