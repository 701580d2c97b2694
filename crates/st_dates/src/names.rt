//! The names of months and weekdays.

ghost use Rattle.std.specs.Prelude.{◌≡◌, ℕ, ◌≤◌, ◌<◌, IfSome, Some, length};
ghost use Rattle.st_dates.specs.Names.{NamesMonth, name_of_month, name_of_weekday, lowered};
ghost use Rattle.st_dates.specs.NamesMachine.{is_name, month_named};

/// The month, from 1 to 12, that a text names by its full name or by the first three letters of it,
/// in any letter case; `None` where the text names no month.
///
/// Source: NAIF's Time Required Reading.
pub fn month_of(name: &[u8]) -> Option<u8>
    ensures value { IfSome result (NamesMonth name.now) }
    ensures only { (m : ℕ) → NamesMonth name.now m → result ≡ Some m }
    ensures exact { result ≡ month_named name.now }
{
    find_month(name)
}

fn find_month(name: &[u8]) -> Option<u8>
    ensures { result ≡ month_named name.now }
{
    for month in 1..13u8 {
        if is_month(name, month_name(month).as_bytes()) {
            return Some(month);
        }
    }
    None
}

fn is_month(name: &[u8], full: &[u8]) -> bool
    requires { 3 ≤ length full.now }
    ensures { result ≡ is_name (lowered name.now) full.now }
{
    name.eq_ignore_ascii_case(full) || name.eq_ignore_ascii_case(&full[..3])
}

/// The full name of a month from 1 to 12, in upper case.
pub fn month_name(month: u8) -> &'static str
    requires from { 1 ≤ month }
    requires to { month ≤ 12 }
    ensures { result.now ≡ name_of_month month }
{
    match month {
        1 => "JANUARY",
        2 => "FEBRUARY",
        3 => "MARCH",
        4 => "APRIL",
        5 => "MAY",
        6 => "JUNE",
        7 => "JULY",
        8 => "AUGUST",
        9 => "SEPTEMBER",
        10 => "OCTOBER",
        11 => "NOVEMBER",
        _ => "DECEMBER",
    }
}

/// The full name of a weekday from 0 for Sunday to 6 for Saturday, in upper case.
pub fn weekday_name(weekday: u8) -> &'static str
    requires { weekday ≤ 6 }
    ensures { result.now ≡ name_of_weekday weekday }
{
    match weekday {
        0 => "SUNDAY",
        1 => "MONDAY",
        2 => "TUESDAY",
        3 => "WEDNESDAY",
        4 => "THURSDAY",
        5 => "FRIDAY",
        _ => "SATURDAY",
    }
}

#[cfg(test)]
mod tests {
    use super::*;

    #[test]
    fn names_months(rt: HostRuntime) {
        assert_eq!(rt; month_name(1), "JANUARY");
        assert_eq!(rt; month_name(12), "DECEMBER");
        assert_eq!(rt; weekday_name(0), "SUNDAY");
        assert_eq!(rt; weekday_name(6), "SATURDAY");
        let table: [(&[u8], Option<u8>); 8] = [
            (b"JANUARY", Some(1)),
            (b"may", Some(5)),
            (b"Jul", Some(7)),
            (b"deCEMber", Some(12)),
            (b"SEPT", None),
            (b"JA", None),
            (b"JANUARYS", None),
            (b"", None),
        ];
        for (name, month) in table {
            assert_eq!(rt; month_of(name), month);
        }
    }
}
