//! Rows whose texts were computed outside, with Python's `datetime` and `fractions`.

use crate::{Cell, Picture, PictureFault, PrintFault};
use st_dates::System;
use st_decimal::read_dec;
use st_enclosure::Enc;
use st_leaps::LeapTable;
use std::alloc::Global;
use std::process::Abort;
use std::test::Fail;

const SECOND: i128 = 1_000_000_000_000_000_000;

const MILLI: i128 = 1_000_000_000_000_000;

/// Seconds are inserted at the ends of 2015-06-30 and 2016-12-31, and one is removed at the end of
/// 2029-12-31.
fn leaps(alloc: Global) -> Result<LeapTable, Fail> {
    let numbers = [
        read_dec(b"36")?,
        read_dec(b"488980800")?,
        read_dec(b"37")?,
        read_dec(b"536500800")?,
        read_dec(b"36")?,
        read_dec(b"946728000")?,
    ];
    Ok(LeapTable::from_pairs(alloc, &numbers)?)
}

/// A value is printed by a picture as wanted.
fn prints(
    rt: &impl Abort,
    alloc: Global,
    leaps: &LeapTable,
    system: System,
    row: (&str, i128, &str),
) -> Result<(), Fail> {
    let (text, value, wanted) = row;
    assert!(rt; -6_311_393_600 * SECOND <= value && value <= 6_311_393_600 * SECOND);
    let picture = Picture::read(alloc, text.as_bytes(), system)?;
    let line = picture.print_in(alloc, Enc::point(value), Some(leaps))?;
    assert_eq!(rt; line.as_slice(), wanted.as_bytes(), "{text}");
    Ok(())
}

#[test]
fn prints_counts(rt: HostRuntime) -> Result<(), Fail> {
    let table = leaps(rt.alloc())?;
    let rows = [
        ("SP2000.###", 64_183_927_000_000_000_000, "64.183"),
        ("SP2000.###::RND", 64_183_927_000_000_000_000, "64.184"),
        ("SP2000.######", 64_183_927_268_000_000_000, "64.183927"),
        (
            "SP2000.#########",
            64_183_927_268_987_654_321,
            "64.183927268",
        ),
        ("SP2000.###::TDB", 64_183_927_268_000_000_000, "64.183"),
        (
            "YYYY-MM-DDTHR:MN:SC.###",
            64_183_927_268_000_000_000,
            "2000-01-01T12:01:04.183",
        ),
        ("SP2000", -SECOND / 2, "-1"),
        ("SP2000::RND", -SECOND / 2, "0"),
        ("SP2000.###", -SECOND / 2, "-0.500"),
        ("JULIAND.###", 43_200 * SECOND, "2451545.500"),
        ("JULIAND::RND", 43_200 * SECOND, "2451546"),
        ("JULIAND", -6_311_390_400 * SECOND, "2378496"),
    ];
    for row in rows {
        prints(&rt, rt.alloc(), &table, System::Tdb, row)?;
    }
    Ok(())
}

#[test]
fn prints_tt(rt: HostRuntime) -> Result<(), Fail> {
    let table = leaps(rt.alloc())?;
    let rows = [
        (
            "YYYY-MM-DDTHR:MN:SC.###::TDT",
            64_183_927_268_000_000_000,
            "2000-01-01T12:01:04.183",
        ),
        ("SP2000.###::TDT::RND", 64_183_927_268_000_000_000, "64.184"),
    ];
    for row in rows {
        prints(&rt, rt.alloc(), &table, System::Tt, row)?;
    }
    Ok(())
}

#[test]
fn prints_utc(rt: HostRuntime) -> Result<(), Fail> {
    let table = leaps(rt.alloc())?;
    let inserted = 536_500_836_700 * MILLI;
    let removed = 946_728_035_500 * MILLI;
    let one = 36_035 * SECOND;
    let almost = 34_999_999_700_000_000_000;
    let all =
        "YYYY MM MON Mon mon MONTH Month month DD DOY WKD Wkd wkd WEEKDAY Weekday weekday HR AP MN SC.### AMPM ampm::UTC";
    let rows = [
        ("YYYY-MM-DDTHR:MN:SC", inserted, "2016-12-31T23:59:60"),
        (
            "YYYY-MM-DDTHR:MN:SC.###",
            inserted,
            "2016-12-31T23:59:60.700",
        ),
        ("YYYY-MM-DDTHR:MN:SC::RND", inserted, "2017-01-01T00:00:00"),
        (
            "YYYY-MM-DDTHR:MN:SC::RND::TRNC",
            inserted,
            "2016-12-31T23:59:60",
        ),
        ("HR:MN", inserted, "23:59"),
        ("AP AMPM", inserted, "11 P.M."),
        (
            "YYYY-MM-DDTHR:MN:SC.###",
            removed,
            "2029-12-31T23:59:58.500",
        ),
        ("YYYY-MM-DDTHR:MN:SC::RND", removed, "2030-01-01T00:00:00"),
        ("YYYY-MM-DDTHR:MN::RND", removed, "2030-01-01T00:00"),
        (
            "WKD MON DD, YYYY AP:MN AMPM (HR)",
            3_635 * SECOND,
            "SAT JAN 01, 2000 01:00 P.M. (13)",
        ),
        ("Weekday DOY", one, "Saturday 001"),
        ("YYYY-MM-DDTHR:MN:SC.###", almost, "2000-01-01T11:59:59.999"),
        (
            "YYYY-MM-DDTHR:MN:SC.###::RND",
            almost,
            "2000-01-01T12:00:00.000",
        ),
        (
            all,
            inserted,
            "2016 12 DEC Dec dec DECEMBER December december 31 366 SAT Sat sat SATURDAY Saturday saturday 23 11 59 60.700 P.M. p.m.",
        ),
        (
            all,
            removed,
            "2029 12 DEC Dec dec DECEMBER December december 31 365 MON Mon mon MONDAY Monday monday 23 11 59 58.500 P.M. p.m.",
        ),
    ];
    for row in rows {
        prints(&rt, rt.alloc(), &table, System::Utc, row)?;
    }
    Ok(())
}

#[test]
fn prints_dates(rt: HostRuntime) -> Result<(), Fail> {
    let table = leaps(rt.alloc())?;
    let all =
        "YYYY MM MON Mon mon MONTH Month month DD DOY WKD Wkd wkd WEEKDAY Weekday weekday HR AP MN SC.### AMPM ampm::TAI";
    let rows = [
        (
            -6_311_390_400_000 * MILLI,
            "1800 01 JAN Jan jan JANUARY January january 01 001 WED Wed wed WEDNESDAY Wednesday wednesday 00 12 00 00.000 A.M. a.m.",
            "-6311390400.000",
            "2378496.5000",
        ),
        (
            6_311_390_399_999 * MILLI,
            "2199 12 DEC Dec dec DECEMBER December december 31 365 TUE Tue tue TUESDAY Tuesday tuesday 23 11 59 59.999 P.M. p.m.",
            "6311390399.999",
            "2524593.4999",
        ),
        (
            6_311_390_400_000 * MILLI,
            "2200 01 JAN Jan jan JANUARY January january 01 001 WED Wed wed WEDNESDAY Wednesday wednesday 00 12 00 00.000 A.M. a.m.",
            "6311390400.000",
            "2524593.5000",
        ),
        (
            5_097_600_000 * MILLI,
            "2000 02 FEB Feb feb FEBRUARY February february 29 060 TUE Tue tue TUESDAY Tuesday tuesday 12 12 00 00.000 P.M. p.m.",
            "5097600.000",
            "2451604.0000",
        ),
        (
            5_054_400_000 * MILLI,
            "2000 02 FEB Feb feb FEBRUARY February february 29 060 TUE Tue tue TUESDAY Tuesday tuesday 00 12 00 00.000 A.M. a.m.",
            "5054400.000",
            "2451603.5000",
        ),
        (
            -3_150_619_200_001 * MILLI,
            "1900 02 FEB Feb feb FEBRUARY February february 28 059 WED Wed wed WEDNESDAY Wednesday wednesday 23 11 59 59.999 P.M. p.m.",
            "-3150619200.001",
            "2415079.4999",
        ),
        (
            -86_400_500 * MILLI,
            "1999 12 DEC Dec dec DECEMBER December december 31 365 FRI Fri fri FRIDAY Friday friday 11 11 59 59.500 A.M. a.m.",
            "-86400.500",
            "2451543.9999",
        ),
        (
            0 * MILLI,
            "2000 01 JAN Jan jan JANUARY January january 01 001 SAT Sat sat SATURDAY Saturday saturday 12 12 00 00.000 P.M. p.m.",
            "0.000",
            "2451545.0000",
        ),
        (
            -932_468_276_996 * MILLI,
            "1970 06 JUN Jun jun JUNE June june 15 166 MON Mon mon MONDAY Monday monday 01 01 02 03.004 A.M. a.m.",
            "-932468276.996",
            "2440752.5430",
        ),
        (
            536_500_799_000 * MILLI,
            "2016 12 DEC Dec dec DECEMBER December december 31 366 SAT Sat sat SATURDAY Saturday saturday 23 11 59 59.000 P.M. p.m.",
            "536500799.000",
            "2457754.4999",
        ),
        (
            3_160_863_000_000 * MILLI,
            "2100 03 MAR Mar mar MARCH March march 01 060 MON Mon mon MONDAY Monday monday 13 01 30 00.000 P.M. p.m.",
            "3160863000.000",
            "2488129.0625",
        ),
        (
            779_946_330_250 * MILLI,
            "2024 09 SEP Sep sep SEPTEMBER September september 18 262 WED Wed wed WEDNESDAY Wednesday wednesday 15 03 45 30.250 P.M. p.m.",
            "779946330.250",
            "2460572.1566",
        ),
        (
            -960_910_940_000 * MILLI,
            "1969 07 JUL Jul jul JULY July july 20 201 SUN Sun sun SUNDAY Sunday sunday 20 08 17 40.000 P.M. p.m.",
            "-960910940.000",
            "2440423.3456",
        ),
    ];
    for (value, text, seconds, julian) in rows {
        for row in [
            (all, value, text),
            ("SP2000.###", value, seconds),
            ("JULIAND.####", value, julian),
        ] {
            prints(&rt, rt.alloc(), &table, System::Tai, row)?;
        }
    }
    Ok(())
}

#[test]
fn prints_words(rt: HostRuntime) -> Result<(), Fail> {
    let table = leaps(rt.alloc())?;
    let rows = [
        ("Weekday, DD Month YYYY", 0, "Saturday, 01 January 2000"),
        ("AP:MN ampm", 0, "12:00 p.m."),
        ("YYYY-DOY", 0, "2000-001"),
    ];
    for row in rows {
        prints(&rt, rt.alloc(), &table, System::Tai, row)?;
    }
    Ok(())
}

#[test]
fn prints_months_and_years(rt: HostRuntime) -> Result<(), Fail> {
    let table = leaps(rt.alloc())?;
    let rows = [
        ("YYYY-MM", 2_635_200 * SECOND, "2000-02"),
        ("MON YYYY", 2_635_200 * SECOND - 1, "JAN 2000"),
        ("YYYY", -43_200 * SECOND, "2000"),
        ("YYYY", -43_200 * SECOND - 1, "1999"),
    ];
    for row in rows {
        prints(&rt, rt.alloc(), &table, System::Tai, row)?;
    }
    Ok(())
}

#[test]
fn tells_both_ends(rt: HostRuntime) -> Result<(), Fail> {
    let table = leaps(rt.alloc())?;
    let picture = Picture::read(rt.alloc(), b"SP2000", System::Tai)?;
    let line = picture.print_in(rt.alloc(), Enc { lo: 0, hi: 1 }, Some(&table))?;
    assert_eq!(rt; line.as_slice(), b"0".as_slice());
    let answer = picture
        .print_in(rt.alloc(), Enc { lo: -1, hi: 0 }, Some(&table))
        .map(|_line| ());
    let ends = PrintFault::Undecided {
        lo: Cell::Count(-1),
        hi: Cell::Count(0),
    };
    assert_eq!(rt; answer, Err(ends));
    Ok(())
}

#[test]
fn knows_seconds_alone(rt: HostRuntime) -> Result<(), Fail> {
    let seconds = Picture::read(rt.alloc(), b"SP2000.######", System::Tdb)?;
    assert!(rt; seconds.seconds_alone());
    let years = Picture::read(rt.alloc(), b"YYYY", System::Tdb)?;
    assert!(rt; !years.seconds_alone());
    Ok(())
}

#[test]
fn refuses_long_pictures(rt: HostRuntime) -> Result<(), Fail> {
    let longest = Picture::read(rt.alloc(), &[b'D'; 255], System::Tai).map(|_picture| ());
    assert_eq!(rt; longest, Ok(()));
    let longer = Picture::read(rt.alloc(), &[b'D'; 256], System::Tai).map(|_picture| ());
    assert_eq!(rt; longer, Err(PictureFault::TooLong));
    Ok(())
}

#[test]
fn refuses_pictures(rt: HostRuntime) -> Result<(), Fail> {
    let rows = [
        ("YYYY\t", System::Tai, PictureFault::BadByte(4)),
        ("#YR", System::Tai, PictureFault::LeftOutMark),
        ("YYR", System::Tai, PictureFault::LeftOutMark),
        ("HR::UTC-7", System::Tai, PictureFault::WrongSystem),
        ("::ET HR", System::Tai, PictureFault::LeftOutMark),
        ("HR#", System::Tai, PictureFault::StrayHash),
        ("SC.##########", System::Tai, PictureFault::TooManyPlaces),
        ("on time", System::Tai, PictureFault::Empty),
        ("SP2000 SP2000", System::Tai, PictureFault::MixedForms),
        ("SC.# SC", System::Tai, PictureFault::MixedForms),
        ("JULIAND", System::Utc, PictureFault::CountInUtc),
        ("HR::TDT", System::Tdb, PictureFault::WrongSystem),
        ("MON YYYY::RND", System::Tai, PictureFault::NoUnit),
    ];
    for (text, system, fault) in rows {
        let answer = Picture::read(rt.alloc(), text.as_bytes(), system).map(|_picture| ());
        assert_eq!(rt; answer, Err(fault), "{text}");
    }
    Ok(())
}
