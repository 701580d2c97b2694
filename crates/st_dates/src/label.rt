//! Labels and their formal count, and the range of times.

ghost use Rattle.std.specs.Prelude.{◌≡◌, ◌↔◌, ◌^◌, IsTrue, neg_ℤ, pos, ◌-ℤ◌, ◌*ℤ◌, ◌≤ℤ◌};
ghost use Rattle.st_dates.specs.AtDateMachine as machine;
ghost use Rattle.st_dates.specs.Label.{formal, formal as count_of, units, IsFormal, IsPlainLabel};
ghost use Rattle.st_dates.specs.Range.{LiesInRange};
ghost use Rattle.st_dates.specs.declared.label.Label.{Label as TheLabel};

/// The first instant of the range of times, in units past J2000.
pub const FIRST: i128 = -6_311_390_400_000_000_000_000_000_000;

/// The last instant of the range of times, in units past J2000.
pub const LAST: i128 = 6_311_390_400_000_000_000_000_000_000;

/// The units of 10^-18 s in a second.
pub const SECOND: i128 = 1_000_000_000_000_000_000;

/// The units of 10^-18 s in a day of 86,400 s.
pub const DAY: i128 = 86_400 * SECOND;

/// A time of a calendar: a day, counted from 2000-01-01, and units of that day, from 0 to less than
/// 86,401 s, so that a day's inserted second has a place.
#[derive(Clone, Copy, Debug, PartialEq, Eq, Hash)]
pub struct Label {
    pub day: i32,
    pub of_day: i128,
}

/// The formal count of a label, in units past J2000: every day counts 86,400 s, whatever it had.
///
/// Source: NAIF's Time Required Reading, on formal seconds past J2000.
///
/// The count is at most 6,311,600,000 s in magnitude.
pub fn formal_of(label: Label) -> i128
    requires { IsFormal (formal label) }
    ensures { result ≡ formal label }
{
    midnight_of(label.day) + label.of_day
}

/// The label of a formal count, in units past J2000, on days of 86,400 s.
///
/// The count is at most 6,311,600,000 s in magnitude.
pub fn label_of(formal: i128) -> Label
    requires { IsFormal formal }
    ensures inverts { count_of result ≡ formal }
    ensures plain { IsPlainLabel result }
    ensures only { (label : TheLabel) → IsPlainLabel label → count_of label ≡ formal → result ≡ label }
{
    let since_midnight = formal + DAY / 2;
    Label {
        day: since_midnight.div_euclid(DAY) as i32,
        of_day: since_midnight.rem_euclid(DAY),
    }
}

/// Whether a label lies in the range of times, both ends included.
pub fn is_in_range(label: Label) -> bool
    ensures lies { IsTrue result ↔ LiesInRange label }
    ensures exact { result ≡ machine.is_in_range (count_of label) }
{
    match midnight_of(label.day).checked_add(label.of_day) {
        Some(formal) => is_ranged(formal),
        None => false,
    }
}

/// The formal count of a day's midnight.
pub(crate) fn midnight_of(day: i32) -> i128
    ensures value { result ≡ units ((day *ℤ pos 86_400) -ℤ pos 43_200) }
    ensures from { neg_ℤ (pos (2 ^ 126)) ≤ℤ result }
    ensures to { result ≤ℤ pos (2 ^ 126) }
{
    i128::from(day) * DAY - DAY / 2
}

/// Whether a formal count is in the range of times.
pub(crate) fn is_ranged(formal: i128) -> bool
    ensures { result ≡ machine.is_in_range formal }
{
    FIRST <= formal && formal <= LAST
}

#[cfg(test)]
mod tests {
    use super::*;

    #[test]
    fn counts_labels(rt: HostRuntime) {
        let noon = 43_200 * SECOND;
        let table = [
            (0, noon, 0),
            (1, 0, noon),
            (-1, DAY - 1, -noon - 1),
            (-73_048, 0, FIRST),
            (73_049, 0, LAST),
        ];
        for (day, of_day, formal) in table {
            assert!(rt; -73_048 <= day && day <= 73_049);
            assert!(rt; 0 <= of_day && of_day < DAY);
            assert!(rt; FIRST <= formal && formal <= LAST);
            assert_eq!(rt; formal_of(Label { day, of_day }), formal);
            assert_eq!(rt; label_of(formal), Label { day, of_day });
        }
        let rows = [
            (-73_048, 0, true),
            (-73_049, DAY - 1, false),
            (-73_049, DAY, true),
            (73_049, 0, true),
            (73_049, 1, false),
            (73_050, -DAY, true),
            (i32::MIN, i128::MAX, false),
        ];
        for (day, of_day, lies) in rows {
            assert_eq!(rt; is_in_range(Label { day, of_day }), lies);
        }
        assert_eq!(rt;
            formal_of(Label {
                day: 0,
                of_day: DAY
            }),
            noon
        );
    }
}
