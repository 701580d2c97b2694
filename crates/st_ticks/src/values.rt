//! The values of the fields of a clock string.

ghost use Rattle.std.specs.Prelude.{◌≡◌, ◌≤◌, IsTrue, MatchOption};
ghost use Rattle.st_text.specs.Bytes.{are_digits};
ghost use Rattle.st_ticks.specs.ReadingMachine as machine;
ghost use Rattle.st_ticks.specs.TextMachine.{runs};
ghost use Rattle.st_ticks.specs.ValuesSteps.{HoldsText};

use crate::cut::past_separator;
use st_text::{are_blanks, split_digits};

/// The most fields that a clock has.
pub const MOST_FIELDS: usize = 10;

/// One more than the greatest value of a field that is taken.
const CAP: u128 = 2_000_000_000_000_000_001;

/// The values of fields, from the left. Of more than ten only their count is known.
#[derive(Clone, Copy)]
pub struct Values {
    pub numbers: [u64; MOST_FIELDS],
    pub count: usize,
}

/// The number that digits spell, and no more than one above the greatest that is taken.
pub fn capped_number(digits: &[u8]) -> u64
    requires { IsTrue (are_digits digits.now) }
    ensures value { result ≡ machine.capped digits.now }
{
    let mut number = 0;
    for byte in digits {
        let more = 10 * number + u128::from(byte.saturating_sub(b'0'));
        number = more.min(CAP);
    }
    number as u64
}

impl Values {
    ghost use Rattle.std.specs.Prelude.{◌+◌, ◌<◌, ◌^◌, ◌++◌, ◌∷◌, [], List, ℕ};
    ghost use Rattle.st_ticks.specs.ValuesSteps.{HoldsFields};

    /// One value more.
    fn push(&mut self, number: u64)
        requires { self.old.count < 2 ^ 63 }
        ensures count { self.new.count ≡ self.old.count + 1 }
        ensures holds { (fields : List (List ℕ)) (digits : List ℕ) → HoldsFields fields self.old
            → number ≡ machine.capped digits → HoldsFields (fields ++ digits ∷ []) self.new }
    {
        if self.count < MOST_FIELDS {
            self.numbers[self.count] = number;
        }
        self.count += 1;
    }
}

/// The values of the fields that a text consists of, with separators between them.
pub fn read_values(text: &[u8]) -> Option<Values>
    ensures { MatchOption result (runs text.now ≡ None) (HoldsText text.now) }
{
    let mut values = Values {
        numbers: [0; MOST_FIELDS],
        count: 0,
    };
    let mut rest = text;
    loop {
        let (digits, behind) = split_digits(rest);
        if digits.is_empty() {
            return None;
        }
        values.push(capped_number(digits));
        if are_blanks(behind) {
            return Some(values);
        }
        rest = past_separator(behind)?;
    }
}
