//! The parts of a clock string.

ghost use Rattle.std.specs.Prelude.{◌≡◌, MatchOption};
ghost use Rattle.st_ticks.specs.TextMachine.{parts_of};
ghost use Rattle.st_ticks.specs.WrittenSteps.{HoldsParts};

use crate::cut::split_partition;
use crate::values::{Values, capped_number, read_values};
use st_text::skip_blanks;

/// A clock string as it is written: the number before its `/`, where it has one, and its fields.
#[derive(Clone, Copy)]
pub struct Written {
    pub partition: Option<u64>,
    pub values: Values,
}

/// The parts of a text, where it has the shape of a clock string.
#[tactic(auto, unfolding(crate::specs::TextMachine::parts_of))]
pub fn read_parts(text: &[u8]) -> Option<Written>
    ensures { MatchOption result (parts_of text.now ≡ None) (HoldsParts text.now) }
{
    let text = skip_blanks(text);
    match split_partition(text) {
        Some((digits, rest)) => {
            let values = read_values(rest)?;
            let partition = Some(capped_number(digits));
            Some(Written { partition, values })
        }
        None => {
            let values = read_values(text)?;
            Some(Written {
                partition: None,
                values,
            })
        }
    }
}
