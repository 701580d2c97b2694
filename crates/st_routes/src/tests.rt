//! Times from their texts to their answers, with the pairs and the constants of a leapseconds kernel. The answers were computed
//! apart from the program.

use crate::{
    Route, TickForm, TimeFault, print_tick, print_time, read_instant, read_tick, tick_time,
};
use st_clock::{Clock, Point};
use st_dates::{SECOND, System};
use st_decimal::Dec;
use st_forms::Form;
use st_leaps::LeapTable;
use st_picture::Picture;
use st_scales::{Deltet, Scale};
use st_ticks::{ClockTextFault, Face, FaceFault};
use std::alloc::Global;
use std::process::Abort;
use std::test::Fail;

/// The counts of the pairs of NAIF's kernel of 2016, and their days, past 2000-01-01.
const PAIRS: [(i128, i32); 28] = [
    (10, -10_227),
    (11, -10_045),
    (12, -9861),
    (13, -9496),
    (14, -9131),
    (15, -8766),
    (16, -8400),
    (17, -8035),
    (18, -7670),
    (19, -7305),
    (20, -6758),
    (21, -6393),
    (22, -6028),
    (23, -5297),
    (24, -4383),
    (25, -3652),
    (26, -3287),
    (27, -2740),
    (28, -2375),
    (29, -2010),
    (30, -1461),
    (31, -914),
    (32, -365),
    (33, 2192),
    (34, 3288),
    (35, 4565),
    (36, 5660),
    (37, 6210),
];

const CALENDAR: &str = "YYYY-MM-DDTHR:MN:SC.###";

const SECONDS: &str = "SP2000.######";

fn number(digits: i128, tens: i32) -> Dec {
    Dec { digits, tens }
}

fn leaps(alloc: Global) -> Result<LeapTable, Fail> {
    let mut numbers = Vec::new(alloc);
    for (count, day) in PAIRS {
        numbers.push(number(count, 0))?;
        numbers.push(number(i128::from(day) * 86_400 - 43_200, 0))?;
    }
    Ok(LeapTable::from_pairs(alloc, numbers.as_slice())?)
}

/// The constants of the kernel, with these for K, EB, M0 and M1, where others are tried.
fn constants(k: Dec, eb: Dec, m: [Dec; 2]) -> Result<Deltet, Fail> {
    Ok(Deltet::from_numbers(&[number(32_184, -3)], &[k], &[eb], &m)?)
}

fn usual() -> Result<Deltet, Fail> {
    constants(
        number(1657, -6),
        number(1671, -5),
        [number(6_239_996, -6), number(199_096_871, -15)],
    )
}

/// The scale in which times of a system are led on.
fn scale_of(system: System) -> Scale {
    match system {
        System::Tt => Scale::Tt,
        System::Tdb => Scale::Tdb,
        _ => Scale::Tai,
    }
}

fn route_of(constants: Deltet, from: Scale, to: Scale) -> Route {
    if from == to {
        Route::Same
    } else {
        Route::Scales {
            constants,
            from,
            to,
        }
    }
}

/// A time text of a system is printed in another as wanted.
fn prints(
    rt: &impl Abort,
    alloc: Global,
    constants: Deltet,
    row: (System, &str, System, &str, &str),
) -> Result<(), Fail> {
    let (from, text, to, picture, wanted) = row;
    assert!(rt; from != System::Sclk && to != System::Sclk);
    let table = leaps(alloc)?;
    let picture = Picture::read(alloc, picture.as_bytes(), to)?;
    let route = route_of(constants, scale_of(from), scale_of(to));
    let units = read_instant(text.as_bytes(), from, Form::Any, Some(&table))?;
    let time = Point {
        units,
        part: 0,
        of: 1,
    };
    let line = print_time(alloc, &route, time, &picture, Some(&table))?;
    assert_eq!(rt; line.as_slice(), wanted.as_bytes(), "{text}");
    Ok(())
}

/// A value that is a digit's bound is printed, or told to be undecided.
fn bound_is_safe(rt: &impl Abort, alloc: Global, constants: Deltet) -> Result<(), Fail> {
    let route = route_of(constants, Scale::Tt, Scale::Tdb);
    let time = Point {
        units: 100 * SECOND,
        part: 0,
        of: 1,
    };
    let picture = Picture::read(alloc, SECONDS.as_bytes(), System::Tdb)?;
    match print_time(alloc, &route, time, &picture, None) {
        Ok(line) => assert_eq!(rt; line.as_slice(), b"100.000000".as_slice()),
        Err(fault) => assert_eq!(rt; fault, TimeFault::Undecided),
    }
    Ok(())
}

#[test]
fn prints_times(rt: HostRuntime) -> Result<(), Fail> {
    let rounded = "YYYY-MM-DDTHR:MN:SC.###::RND";
    let rows = [
        (
            System::Utc,
            "2000-01-01T12:00:00",
            System::Tdb,
            SECONDS,
            "64.183927",
        ),
        (
            System::Utc,
            "2000-01-01T12:00:00",
            System::Tdb,
            "SP2000.###",
            "64.183",
        ),
        (
            System::Utc,
            "2000-01-01T12:00:00",
            System::Tdb,
            "SP2000.###::RND",
            "64.184",
        ),
        (
            System::Utc,
            "2000-01-01T12:00:00",
            System::Tdb,
            CALENDAR,
            "2000-01-01T12:01:04.183",
        ),
        (
            System::Utc,
            "2017-01-01T00:00:00",
            System::Tdb,
            SECONDS,
            "536500869.183929",
        ),
        (
            System::Tai,
            "536500836.5",
            System::Utc,
            CALENDAR,
            "2016-12-31T23:59:60.500",
        ),
        (
            System::Tdb,
            "64.183927",
            System::Utc,
            CALENDAR,
            "2000-01-01T11:59:59.999",
        ),
        (
            System::Tdb,
            "64.183927",
            System::Utc,
            rounded,
            "2000-01-01T12:00:00.000",
        ),
        (System::Tai, "-0.5", System::Tai, "SP2000", "-1"),
        (System::Tai, "-0.5", System::Tai, "SP2000::RND", "0"),
        (System::Tai, "-0.5", System::Tai, "SP2000.###", "-0.500"),
    ];
    for row in rows {
        prints(&rt, rt.alloc(), usual()?, row)?;
    }
    // Where EB, M0 and M1 are 0, TDB is TT at these times.
    let even = constants(number(1657, -6), number(0, 0), [number(0, 0), number(0, 0)])?;
    let near = [
        (
            System::Tt,
            "99.999999999999",
            System::Tdb,
            SECONDS,
            "99.999999",
        ),
        (
            System::Tt,
            "100.000000000001",
            System::Tdb,
            SECONDS,
            "100.000000",
        ),
    ];
    for row in near {
        prints(&rt, rt.alloc(), even, row)?;
    }
    bound_is_safe(&rt, rt.alloc(), even)?;
    let none = constants(
        number(0, 0),
        number(1671, -5),
        [number(6_239_996, -6), number(199_096_871, -15)],
    )?;
    prints(
        &rt,
        rt.alloc(),
        none,
        (System::Tt, "100", System::Tdb, SECONDS, "100.000000"),
    )
}

/// A clock with these moduli, partitions from 0 to these ends, and records, kept in TDB where the system is 1 and in TT where
/// it is 2.
fn clock(
    alloc: Global,
    moduli: &[Dec],
    ends: &[Dec],
    system: i128,
    records: &[Dec],
) -> Result<Clock, FaceFault> {
    let fields = number(moduli.len() as i128, 0);
    let zeros = [number(0, 0); 4];
    let offsets = &zeros[..moduli.len().min(4)];
    let starts = &zeros[..ends.len().min(4)];
    let face = Face::from_parts(
        alloc,
        &[fields],
        moduli,
        offsets,
        &[number(1, 0)],
        starts,
        ends,
    )?;
    let one = [number(1, 0)];
    Clock::from_parts(alloc, face, &one, &[number(system, 0)], records)
}

/// A text of a clock is printed in ET or, of a clock that is kept in TT, in UTC.
fn prints_clock(
    rt: &impl Abort,
    alloc: Global,
    clock: &Clock,
    row: (&str, TickForm, &str),
) -> Result<(), Fail> {
    let (text, form, wanted) = row;
    let table = leaps(alloc)?;
    let is_tdb = clock.scale() == Scale::Tdb;
    let (system, picture) = if is_tdb {
        (System::Tdb, SECONDS)
    } else {
        (System::Utc, CALENDAR)
    };
    let route = route_of(usual()?, clock.scale(), scale_of(system));
    let picture = Picture::read(alloc, picture.as_bytes(), system)?;
    let tick = read_tick(text.as_bytes(), clock, form)?;
    let time = tick_time(clock, tick)?;
    let line = print_time(alloc, &route, time, &picture, Some(&table))?;
    assert_eq!(rt; line.as_slice(), wanted.as_bytes(), "{text}");
    Ok(())
}

/// The tick of a time of a clock's scale, in nanoseconds, is told as wanted.
fn tells_tick(
    rt: &impl Abort,
    alloc: Global,
    clock: &Clock,
    row: (i128, TickForm, Result<&str, TimeFault>),
) {
    let (time, form, wanted) = row;
    assert!(rt; -1_000_000_000_000 <= time && time <= 1_000_000_000_000);
    match (
        print_tick(alloc, &Route::Same, time * 1_000_000_000, clock, form),
        wanted,
    ) {
        (Ok(line), Ok(text)) => assert_eq!(rt; line.as_slice(), text.as_bytes(), "{time}"),
        (Err(fault), Err(refusal)) => assert_eq!(rt; fault, refusal, "{time}"),
        _ => panic!(rt; "{time}"),
    }
}

#[test]
fn leads_from_clocks(rt: HostRuntime) -> Result<(), Fail> {
    let fields = [number(4_294_967_296, 0), number(256, 0)];
    let end = [number(1_099_511_627_775, 0)];
    let line = [number(0, 0), number(0, 0), number(1, 0)];
    let Ok(usual) = clock(rt.alloc(), &fields, &end, 1, &line) else {
        panic!(&rt; "a clock of two fields");
    };
    prints_clock(
        &rt,
        rt.alloc(),
        &usual,
        ("1/100.128", TickForm::Clock, "100.500000"),
    )?;
    let tt = [number(0, 0), number(536_500_869_184, -3), number(1, 0)];
    let Ok(tdt) = clock(rt.alloc(), &fields, &end, 2, &tt) else {
        panic!(&rt; "a clock that is kept in TT");
    };
    prints_clock(
        &rt,
        rt.alloc(),
        &tdt,
        ("1/86400.128", TickForm::Clock, "2017-01-02T00:00:00.500"),
    )?;
    let four = [
        number(16_777_215, 0),
        number(91, 0),
        number(10, 0),
        number(8, 0),
    ];
    let slow = [number(0, 0), number(0, 0), number(60_666, -3)];
    let Ok(long) = clock(rt.alloc(), &four, &[number(122_138_125_199, 0)], 1, &slow) else {
        panic!(&rt; "a clock of four fields");
    };
    prints_clock(
        &rt,
        rt.alloc(),
        &long,
        ("1/1:1:0:0", TickForm::Clock, "61.332659"),
    )?;
    let gap = [
        number(0, 0),
        number(0, 0),
        number(1, 0),
        number(25_600, 0),
        number(90, 0),
        number(1, 0),
    ];
    let Ok(behind) = clock(rt.alloc(), &fields, &end, 1, &gap) else {
        panic!(&rt; "a clock with a gap");
    };
    prints_clock(
        &rt,
        rt.alloc(),
        &behind,
        ("24000", TickForm::Ticks, "93.750000"),
    )
}

#[test]
fn leads_to_clocks(rt: HostRuntime) -> Result<(), Fail> {
    let fields = [number(4_294_967_296, 0), number(256, 0)];
    let end = [number(1_099_511_627_775, 0)];
    let line = [number(0, 0), number(0, 0), number(1, 0)];
    let cap = [
        number(0, 0),
        number(0, 0),
        number(1, 0),
        number(25_600, 0),
        number(110, 0),
        number(1, 0),
    ];
    let gap = [
        number(0, 0),
        number(0, 0),
        number(1, 0),
        number(25_600, 0),
        number(90, 0),
        number(1, 0),
    ];
    let Ok(usual) = clock(rt.alloc(), &fields, &end, 1, &line) else {
        panic!(&rt; "a clock of two fields");
    };
    tells_tick(
        &rt,
        rt.alloc(),
        &usual,
        (1_953_125, TickForm::Ticks, Ok("1")),
    );
    tells_tick(
        &rt,
        rt.alloc(),
        &usual,
        (1_953_124, TickForm::Ticks, Ok("0")),
    );
    tells_tick(
        &rt,
        rt.alloc(),
        &usual,
        (100_500_000_000, TickForm::Clock, Ok("1/0000000100.128")),
    );
    let Ok(capped) = clock(rt.alloc(), &fields, &end, 1, &cap) else {
        panic!(&rt; "a clock whose line is capped");
    };
    tells_tick(
        &rt,
        rt.alloc(),
        &capped,
        (99_500_000_000, TickForm::Ticks, Ok("25472")),
    );
    tells_tick(
        &rt,
        rt.alloc(),
        &capped,
        (105_000_000_000, TickForm::Ticks, Ok("25600")),
    );
    tells_tick(
        &rt,
        rt.alloc(),
        &capped,
        (111_000_000_000, TickForm::Ticks, Ok("25856")),
    );
    let Ok(behind) = clock(rt.alloc(), &fields, &end, 1, &gap) else {
        panic!(&rt; "a clock with a gap");
    };
    tells_tick(
        &rt,
        rt.alloc(),
        &behind,
        (89_500_000_000, TickForm::Ticks, Ok("22912")),
    );
    tells_tick(
        &rt,
        rt.alloc(),
        &behind,
        (90_000_000_000, TickForm::Ticks, Ok("25600")),
    );
    let ends = [number(1000, 0), number(5000, 0)];
    let Ok(two) = clock(rt.alloc(), &fields, &ends, 1, &line) else {
        panic!(&rt; "a clock of two partitions");
    };
    tells_tick(
        &rt,
        rt.alloc(),
        &two,
        (23_437_500_000, TickForm::Clock, Ok("2/0000000019.136")),
    );
    tells_tick(
        &rt,
        rt.alloc(),
        &two,
        (24_000_000_000, TickForm::Clock, Err(TimeFault::AfterClock)),
    );
    tells_tick(
        &rt,
        rt.alloc(),
        &two,
        (-1_000_000_000, TickForm::Clock, Err(TimeFault::BeforeClock)),
    );
    let texts = [
        ("007", Ok(7)),
        ("6000", Ok(6000)),
        ("6001", Err(ClockTextFault::NotInPartition)),
        ("1000000000000000000", Err(ClockTextFault::NotInPartition)),
        ("1000000000000000001", Err(ClockTextFault::TooLarge)),
        ("12.5", Err(ClockTextFault::Form)),
        ("", Err(ClockTextFault::Form)),
    ];
    for (text, wanted) in texts {
        let found = read_tick(text.as_bytes(), &two, TickForm::Ticks);
        assert_eq!(rt; found, wanted.map_err(TimeFault::BadClockText), "{text}");
    }
    Ok(())
}

#[test]
fn refuses_texts(rt: HostRuntime) -> Result<(), Fail> {
    let table = leaps(rt.alloc())?;
    let rows = [
        (System::Utc, "1996-02", TimeFault::BadTime),
        (
            System::Utc,
            "12/18/1996 12:28:28 TDB",
            TimeFault::WrongSystem,
        ),
        (System::Utc, "1996-02-30", TimeFault::NoSuchDay),
        (System::Utc, "1799-12-31T23:59:59", TimeFault::OutOfRange),
        (System::Utc, "2015-12-31T23:59:60", TimeFault::NoSuchSecond),
        (System::Tai, "2016-12-31T23:59:60", TimeFault::NoSuchSecond),
        (System::Utc, "2016-12-31T12:00:60", TimeFault::NoSuchSecond),
    ];
    for (system, text, wanted) in rows {
        assert!(rt; system != System::Sclk);
        let found = read_instant(text.as_bytes(), system, Form::Any, Some(&table));
        assert_eq!(rt; found, Err(wanted), "{text}");
    }
    Ok(())
}
