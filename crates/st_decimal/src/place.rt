//! The places of a number at which its reader may stand, and what may follow there.

ghost use Rattle.std.specs.Prelude.{◌≡◌};
ghost use Rattle.st_decimal.specs.NumberMachine.{kind_of, next_of, on_digit, is_end_of, stop_of};
ghost use Rattle.st_decimal.specs.declared.place.Place.TheVariants.{Start};

/// What a byte can be in a number.
#[derive(Clone, Copy, Debug, PartialEq, Eq)]
pub enum Kind {
    Digit,
    Sign,
    Point,
    Mark,
    Other,
}

/// What stands before the next byte of a number.
#[derive(Clone, Copy, Debug, PartialEq, Eq)]
pub enum Place {
    Start,
    Signed,
    Whole,
    /// A point with no digit before it.
    Dot,
    Decimals,
    Marked,
    MarkedSigned,
    Raised,
}

#[tactic(auto, unfolding(crate::specs::NumberMachine::kind_of))]
fn classify(byte: u8) -> Kind
    ensures { result ≡ kind_of byte }
{
    if byte.is_ascii_digit() {
        return Kind::Digit;
    }
    match byte {
        b'+' | b'-' => Kind::Sign,
        b'.' => Kind::Point,
        b'E' | b'e' | b'D' | b'd' => Kind::Mark,
        _ => Kind::Other,
    }
}

/// The place after a byte, where it may follow.
fn next(place: Place, kind: Kind) -> Option<Place>
    ensures { result ≡ next_of place kind }
{
    match kind {
        Kind::Digit => Some(behind_digit(place)),
        Kind::Sign => match place {
            Place::Start => Some(Place::Signed),
            Place::Marked => Some(Place::MarkedSigned),
            _ => None,
        },
        Kind::Point => match place {
            Place::Start | Place::Signed => Some(Place::Dot),
            Place::Whole => Some(Place::Decimals),
            _ => None,
        },
        Kind::Mark => match place {
            Place::Whole | Place::Decimals => Some(Place::Marked),
            _ => None,
        },
        Kind::Other => None,
    }
}

/// The place after a digit, which may follow everywhere.
fn behind_digit(place: Place) -> Place
    ensures { Some result ≡ on_digit place }
{
    match place {
        Place::Start | Place::Signed | Place::Whole => Place::Whole,
        Place::Dot | Place::Decimals => Place::Decimals,
        Place::Marked | Place::MarkedSigned | Place::Raised => Place::Raised,
    }
}

/// Whether a number may end there.
fn is_end(place: Place) -> bool
    ensures { result ≡ is_end_of place }
{
    matches!(place, Place::Whole | Place::Decimals | Place::Raised)
}

/// The first place at which a text stops being a beginning of a number, or its length where it
/// ends too early. None where the text is a number.
#[tactic(auto, unfolding(crate::specs::NumberMachine::stop_of))]
pub fn number_stop(text: &[u8]) -> Option<usize>
    ensures { result ≡ stop_of Start 0 text.now }
{
    let mut place = Place::Start;
    for (i, byte) in text.iter().enumerate() {
        match next(place, classify(*byte)) {
            Some(after) => place = after,
            None => return Some(i),
        }
    }
    if is_end(place) {
        return None;
    }
    Some(text.len())
}
