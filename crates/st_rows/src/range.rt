//! Both ends of the range of times, and the hundred days to either side of each.

use st_batch::Status;
use st_dates::{Label, SECOND, civil_of, day_of, day_of_doy, is_in_range};
use st_trials::{
    Outside, SAFE, SAFE_AND_SHORT, add_line, add_word, files, put_clocks, run_row, words,
};
use std::alloc::Global;
use std::process::Abort;
use std::test::Fail;

/// A hundred days beside an end of the range.
struct Stretch {
    year: i32,
    /// The months, each with its first day and its last.
    months: [(u32, u32, u32); 4],
    /// The first day, counted from 2000-01-01, and its place in its year.
    first: i32,
    place: u32,
    /// By how many seconds TAI is ahead of UTC.
    ahead: i64,
    /// K sin E at the noons of UTC, in whole microseconds, downwards, by mpmath; none outside the range.
    sines: &'static [i64],
}

const FIRST_DAYS: [(u32, u32, u32); 4] = [(1, 1, 31), (2, 1, 28), (3, 1, 31), (4, 1, 10)];

const LAST_DAYS: [(u32, u32, u32); 4] = [(9, 23, 30), (10, 1, 31), (11, 1, 30), (12, 1, 31)];

const EARLY: [i64; 100] = [
    41, 70, 99, 127, 156, 185, 214, 243, 271, 300, 328, 357, 385, 413, 441, 469, 496, 524, 551,
    579, 606, 632, 659, 686, 712, 738, 764, 789, 814, 839, 864, 889, 913, 937, 961, 984, 1007,
    1030, 1052, 1075, 1096, 1118, 1139, 1160, 1180, 1200, 1220, 1239, 1258, 1277, 1295, 1313, 1330,
    1347, 1363, 1380, 1395, 1411, 1425, 1440, 1454, 1467, 1481, 1493, 1505, 1517, 1528, 1539, 1550,
    1560, 1569, 1578, 1586, 1594, 1602, 1609, 1616, 1622, 1627, 1632, 1637, 1641, 1645, 1648, 1651,
    1653, 1654, 1656, 1656, 1656, 1656, 1655, 1654, 1652, 1650, 1647, 1644, 1641, 1636, 1632,
];

const LATE: [i64; 100] = [
    -1602, -1609, -1616, -1622, -1627, -1633, -1637, -1641, -1645, -1648, -1651, -1653, -1655,
    -1656, -1657, -1657, -1657, -1657, -1655, -1654, -1652, -1649, -1646, -1642, -1638, -1633,
    -1628, -1623, -1617, -1610, -1603, -1596, -1588, -1579, -1570, -1561, -1551, -1540, -1530,
    -1518, -1507, -1494, -1482, -1469, -1455, -1441, -1427, -1412, -1397, -1381, -1365, -1348,
    -1331, -1314, -1296, -1278, -1259, -1241, -1221, -1202, -1182, -1161, -1140, -1119, -1098,
    -1076, -1054, -1031, -1009, -986, -962, -938, -915, -890, -866, -841, -816, -791, -765, -739,
    -713, -687, -661, -634, -607, -580, -553, -525, -498, -470, -442, -414, -386, -358, -330, -301,
    -273, -244, -215, -187,
];

const STRETCHES: [Stretch; 4] = [
    Stretch {
        year: 1799,
        months: LAST_DAYS,
        first: -73_148,
        place: 266,
        ahead: 9,
        sines: &[],
    },
    Stretch {
        year: 1800,
        months: FIRST_DAYS,
        first: -73_048,
        place: 1,
        ahead: 9,
        sines: &EARLY,
    },
    Stretch {
        year: 2199,
        months: LAST_DAYS,
        first: 72_949,
        place: 266,
        ahead: 37,
        sines: &LATE,
    },
    Stretch {
        year: 2200,
        months: FIRST_DAYS,
        first: 73_049,
        place: 1,
        ahead: 37,
        sines: &[],
    },
];

/// A scale, how many microseconds it is ahead of TAI but for K sin E, and whether that is added.
const SCALES: [(&str, i64, bool); 3] = [
    ("TAI", 0, false),
    ("TT", 32_184_000, false),
    ("ET", 32_184_000, true),
];

/// The noon of a day of UTC.
#[derive(Clone, Copy)]
struct Noon {
    date: (i32, u32, u32),
    /// The day, counted from 2000-01-01, and its place in its year.
    day: i32,
    place: u32,
    ahead: i64,
    /// K sin E in microseconds, or nothing outside the range.
    sine: Option<i64>,
}

/// The noons of all stretches, in order.
fn noons(alloc: Global) -> Result<Vec<Noon>, Fail> {
    let mut noons = Vec::new(alloc);
    for stretch in &STRETCHES {
        let mut day = stretch.first;
        let mut place = stretch.place;
        let mut sines = stretch.sines.iter();
        for (month, first, last) in stretch.months {
            for of_month in first..=last {
                noons.push(Noon {
                    date: (stretch.year, month, of_month),
                    day,
                    place,
                    ahead: stretch.ahead,
                    sine: sines.next().copied(),
                })?;
                day = day.saturating_add(1);
                place = place.saturating_add(1);
            }
        }
    }
    Ok(noons)
}

/// The texts of noons, a line each.
#[derive(Drop)]
struct Columns {
    /// The labels of UTC.
    labels: Vec<u8>,
    /// The seconds, and the dates, of the same instants in a scale.
    seconds: Vec<u8>,
    dates: Vec<u8>,
    /// The labels of UTC to which these texts, which are cut off, lead back.
    back: Vec<u8>,
}

impl Columns {
    fn new(alloc: Global) -> Columns {
        Columns {
            labels: Vec::new(alloc),
            seconds: Vec::new(alloc),
            dates: Vec::new(alloc),
            back: Vec::new(alloc),
        }
    }

    fn add(&mut self, alloc: Global, noon: &Noon, scale: (&str, i64, bool)) -> Result<(), Fail> {
        let (_, past_tai, has_sine) = scale;
        let sine = if has_sine { noon.sine.unwrap_or(0) } else { 0 };
        let past_utc = noon
            .ahead
            .saturating_mul(1_000_000)
            .saturating_add(past_tai);
        let later = past_utc.saturating_add(sine);
        let label = date_text(alloc, noon.date, 0)?;
        add_line(&mut self.labels, label.as_str())?;
        let micros = i64::from(noon.day).saturating_mul(86_400_000_000);
        let seconds = seconds_text(alloc, micros.saturating_add(later))?;
        add_line(&mut self.seconds, seconds.as_str())?;
        add_line(
            &mut self.dates,
            date_text(alloc, noon.date, later)?.as_str(),
        )?;
        let back = if has_sine {
            just_before(alloc, noon.date)?
        } else {
            label
        };
        add_line(&mut self.back, back.as_str())?;
        Ok(())
    }

    fn refuse(&mut self) -> Result<(), Fail> {
        add_line(&mut self.seconds, "refused OUT_OF_RANGE")?;
        add_line(&mut self.dates, "refused OUT_OF_RANGE")?;
        add_line(&mut self.back, "refused OUT_OF_RANGE")?;
        Ok(())
    }
}

/// The texts of noons in a scale. Where these are `answers`, those outside the range are refused.
fn texts_of(
    alloc: Global,
    noons: &[Noon],
    scale: (&str, i64, bool),
    answers: bool,
) -> Result<Columns, Fail> {
    let mut columns = Columns::new(alloc);
    for noon in noons {
        if answers && noon.sine.is_none() {
            columns.refuse()?;
        } else {
            columns.add(alloc, noon, scale)?;
        }
    }
    Ok(columns)
}

/// A number of microseconds as seconds with six decimals.
fn seconds_text(alloc: Global, micros: i64) -> Result<String, Fail> {
    let sign = if micros < 0 { "-" } else { "" };
    let size = micros.unsigned_abs();
    let whole = size / 1_000_000;
    let part = size % 1_000_000;
    Ok(format!(in alloc; "{sign}{whole}.{part:06}")?)
}

/// The time so many microseconds after noon, cut off to milliseconds.
fn date_text(alloc: Global, date: (i32, u32, u32), micros: i64) -> Result<String, Fail> {
    let (year, month, day) = date;
    let size = micros.unsigned_abs();
    let minute = size / 60_000_000;
    let second = size / 1_000_000 % 60;
    let milli = size / 1_000 % 1_000;
    Ok(format!(in alloc; "{year}-{month:02}-{day:02}T12:{minute:02}:{second:02}.{milli:03}")?)
}

/// The last millisecond before noon.
fn just_before(alloc: Global, date: (i32, u32, u32)) -> Result<String, Fail> {
    let (year, month, day) = date;
    Ok(format!(in alloc; "{year}-{month:02}-{day:02}T11:59:59.999")?)
}

/// Runs a batch of these lines from one system to another, which writes this.
fn converts(
    rt: &impl Abort,
    alloc: Global,
    systems: &[&str],
    lines: &Vec<u8>,
    wanted: &Vec<u8>,
) -> Result<(), Fail> {
    let mut all = words(alloc, &["-setup", "naif.tls", "-batch"])?;
    for word in systems {
        add_word(alloc, &mut all, word)?;
    }
    let (status, output) = run_row(alloc, all.as_slice(), files(alloc)?, lines.as_slice(), SAFE)?;
    assert_eq!(rt; status, Status::SomeRefused);
    assert_eq!(rt; output.as_slice(), wanted.as_slice());
    Ok(())
}

#[test]
fn a_hundred_days_there_and_back(rt: HostRuntime) -> Result<(), Fail> {
    let alloc = rt.alloc();
    let noons = noons(alloc)?;
    assert_eq!(rt; noons.len(), 400);
    for scale in SCALES {
        let (name, _, _) = scale;
        let asked = texts_of(alloc, noons.as_slice(), scale, false)?;
        let answered = texts_of(alloc, noons.as_slice(), scale, true)?;
        let there = ["-from", "UTC", "-to", name];
        converts(&rt, alloc, &there, &asked.labels, &answered.seconds)?;
        let there = ["-from", "UTC", "-to", name, "-totype", "SCET"];
        converts(&rt, alloc, &there, &asked.labels, &answered.dates)?;
        let back = ["-from", name, "-to", "UTC"];
        converts(&rt, alloc, &back, &asked.seconds, &answered.back)?;
        converts(&rt, alloc, &back, &asked.dates, &answered.back)?;
    }
    Ok(())
}

#[test]
fn days_and_labels(rt: HostRuntime) -> Result<(), Fail> {
    for noon in noons(rt.alloc())?.iter() {
        let (year, month, of_month) = noon.date;
        let day = noon.day;
        assert!(rt; 0 <= year && year <= 9_999);
        assert!(rt; -73_200 <= day && day <= 73_200);
        assert_eq!(rt; day_of(year, month, of_month), Some(day));
        assert_eq!(rt; day_of_doy(year, noon.place), Some(day));
        let civil = civil_of(day);
        assert_eq!(rt;
            (civil.year, u32::from(civil.month), u32::from(civil.day)),
            noon.date
        );
        assert_eq!(rt; u32::from(civil.doy), noon.place);
        // Midnight, noon and the day's last unit.
        for of_day in [0, 43_200 * SECOND, 86_400 * SECOND - 1] {
            let is_end = day == 73_049 && of_day == 0;
            let lies = noon.sine.is_some() || is_end;
            assert_eq!(rt; is_in_range(Label { day, of_day }), lies);
        }
    }
    Ok(())
}

/// The words after `-setup`, without the time that follows them; the time; and the line that is written.
type Row = (&'static [&'static str], &'static str, &'static str);

const UTC: &[&str] = &["naif.tls", "-from", "UTC", "-to", "UTC"];

const TO_DAYS: &[&str] = &[
    "naif.tls",
    "-from",
    "UTC",
    "-to",
    "UTC",
    "-format",
    "YYYY-MM-DD::RND",
];

const TO_SECONDS: &[&str] = &[
    "naif.tls",
    "-from",
    "UTC",
    "-to",
    "UTC",
    "-format",
    "YYYY-DOYTHR:MN:SC::RND",
];

const TO_TT: &[&str] = &["naif.tls", "-from", "UTC", "-to", "TT", "-totype", "SCET"];

const TO_ET: &[&str] = &["naif.tls", "-from", "UTC", "-to", "ET"];

const FROM_TAI: &[&str] = &["naif.tls", "-from", "TAI", "-to", "UTC"];

const FROM_ET: &[&str] = &["naif.tls", "-from", "ET", "-to", "TT"];

const TT: &[&str] = &["naif.tls", "-from", "TT", "-to", "TT"];

const FROM_FAST: &[&str] = &["fast.setup", "-from", "SCLK", "-to", "ET"];

const TO_FAST: &[&str] = &["fast.setup", "-from", "UTC", "-to", "SCLK"];

/// What is answered at the ends; what is printed may lie beyond them.
const INSIDE: [Row; 16] = [
    (UTC, "1800-01-01", "1800-01-01T00:00:00.000"),
    (UTC, "2200-001", "2200-01-01T00:00:00.000"),
    (TO_SECONDS, "2199-12-31T23:59:59.5", "2200-001T00:00:00"),
    (TO_SECONDS, "2200-01-01", "2200-001T00:00:00"),
    (TO_DAYS, "2199-12-31T12:00", "2200-01-01"),
    (TO_DAYS, "2200-01-01", "2200-01-01"),
    (TO_TT, "1800-01-01", "1800-01-01T00:00:41.184"),
    (TO_TT, "2200-01-01", "2200-01-01T00:01:09.184"),
    (TO_ET, "1800-01-01", "-6311390358.815974"),
    (TO_ET, "2200-01-01", "6311390469.183828"),
    (FROM_TAI, "-6311390400", "1799-12-31T23:59:51.000"),
    (FROM_TAI, "6311390400", "2199-12-31T23:59:23.000"),
    (TT, "JD 2378496.5", "-6311390400.000000"),
    (TT, "JD 2524593.5", "6311390400.000000"),
    (FROM_FAST, "1/3155695200.000", "6311390400.000000"),
    (TO_FAST, "2200-01-01", "1/3155695234.152"),
];

/// What is refused beside the ends. The second 60 of the day before one counts as the end itself.
const OUTSIDE: [Row; 13] = [
    (UTC, "1799-12-31T23:59:59.999999999999", "OUT_OF_RANGE"),
    (UTC, "1799-12-31T23:59:60", "NO_SUCH_SECOND"),
    (UTC, "2199-12-31T23:59:60", "NO_SUCH_SECOND"),
    (UTC, "2199-12-31T23:59:60.5", "OUT_OF_RANGE"),
    (UTC, "2200-01-01T00:00:00.000000000001", "OUT_OF_RANGE"),
    (FROM_TAI, "-6311390400.000000000001", "OUT_OF_RANGE"),
    (FROM_TAI, "6311390400.000000000001", "OUT_OF_RANGE"),
    (FROM_ET, "-6311390401", "OUT_OF_RANGE"),
    (FROM_ET, "2200 JAN 1 00:00:01", "OUT_OF_RANGE"),
    (TT, "JD 2378496.499999999999", "OUT_OF_RANGE"),
    (TT, "JD 2524593.500000000001", "OUT_OF_RANGE"),
    (FROM_FAST, "1/3155695200.001", "OUT_OF_RANGE"),
    (FROM_FAST, "1/4294967295.255", "OUT_OF_RANGE"),
];

/// What a row's time is answered, without the line's end.
fn answer(alloc: Global, row: Row, outside: Outside) -> Result<(Status, Vec<u8>), Fail> {
    let (setup, time, _) = row;
    let mut all = words(alloc, &["-time", time, "-setup"])?;
    for word in setup {
        add_word(alloc, &mut all, word)?;
    }
    let mut map = files(alloc)?;
    put_clocks(alloc, &mut map)?;
    Ok(run_row(alloc, all.as_slice(), map, b"", outside)?)
}

#[test]
fn both_ends(rt: HostRuntime) -> Result<(), Fail> {
    let alloc = rt.alloc();
    for outside in SAFE_AND_SHORT {
        for row in INSIDE {
            let wanted = format!(in alloc; "{}\n", row.2)?;
            let (status, line) = answer(alloc, row, outside)?;
            assert_eq!(rt; line.as_slice(), wanted.as_bytes(), "{}", row.1);
            assert_eq!(rt; status, Status::Done);
        }
        for row in OUTSIDE {
            let wanted = format!(in alloc; "refused {}\n", row.2)?;
            let (status, line) = answer(alloc, row, outside)?;
            assert_eq!(rt; line.as_slice(), wanted.as_bytes(), "{}", row.1);
            assert_eq!(rt; status, Status::SomeRefused);
        }
    }
    Ok(())
}
