use super::*;
use st_dates::SECOND;
use std::test::Fail;

/// The counts and dates of NAIF's kernel of 2016, and a second that is removed at the end of 2029.
const PAIRS: [(i128, i32); 29] = [
    (10, -10_227),
    (11, -10_045),
    (12, -9861),
    (13, -9496),
    (14, -9131),
    (15, -8766),
    (16, -8400),
    (17, -8035),
    (18, -7670),
    (19, -7305),
    (20, -6758),
    (21, -6393),
    (22, -6028),
    (23, -5297),
    (24, -4383),
    (25, -3652),
    (26, -3287),
    (27, -2740),
    (28, -2375),
    (29, -2010),
    (30, -1461),
    (31, -914),
    (32, -365),
    (33, 2192),
    (34, 3288),
    (35, 4565),
    (36, 5660),
    (37, 6210),
    (36, 10_958),
];

/// Days, units of the day, and TAI, which was computed outside.
const LABELS: [(i32, i128, i128); 24] = [
    (-73_048, 0, -6_311_390_391_000_000_000_000_000_000),
    (-73_048, 1, -6_311_390_390_999_999_999_999_999_999),
    (
        -10_228,
        86_399_000_000_000_000_000_000,
        -883_655_992_000_000_000_000_000_000,
    ),
    (
        -10_228,
        86_400_000_000_000_000_000_000,
        -883_655_991_000_000_000_000_000_000,
    ),
    (
        -10_228,
        86_400_999_999_999_999_999_999,
        -883_655_990_000_000_000_000_000_001,
    ),
    (-10_227, 0, -883_655_990_000_000_000_000_000_000),
    (
        -10_046,
        86_400_000_000_000_000_000_000,
        -867_931_190_000_000_000_000_000_000,
    ),
    (-10_045, 0, -867_931_189_000_000_000_000_000_000),
    (
        0,
        43_200_000_000_000_000_000_000,
        32_000_000_000_000_000_000,
    ),
    (
        -1,
        500_000_000_000_000_000,
        -129_567_500_000_000_000_000_000,
    ),
    (
        6209,
        86_399_999_999_999_999_999_999,
        536_500_835_999_999_999_999_999_999,
    ),
    (
        6209,
        86_400_000_000_000_000_000_000,
        536_500_836_000_000_000_000_000_000,
    ),
    (
        6209,
        86_400_500_000_000_000_000_000,
        536_500_836_500_000_000_000_000_000,
    ),
    (
        6209,
        86_400_999_999_999_999_999_999,
        536_500_836_999_999_999_999_999_999,
    ),
    (6210, 0, 536_500_837_000_000_000_000_000_000),
    (6210, 1, 536_500_837_000_000_000_000_000_001),
    (
        10_957,
        86_398_000_000_000_000_000_000,
        946_728_035_000_000_000_000_000_000,
    ),
    (
        10_957,
        86_398_500_000_000_000_000_000,
        946_728_035_500_000_000_000_000_000,
    ),
    (
        10_957,
        86_398_999_999_999_999_999_999,
        946_728_035_999_999_999_999_999_999,
    ),
    (10_958, 0, 946_728_036_000_000_000_000_000_000),
    (
        10_958,
        86_399_000_000_000_000_000_000,
        946_814_435_000_000_000_000_000_000,
    ),
    (73_049, 0, 6_311_390_436_000_000_000_000_000_000),
    (
        -73_050,
        63_191_000_000_000_000_000_000,
        -6_311_500_000_000_000_000_000_000_000,
    ),
    (
        73_050,
        23_164_000_000_000_000_000_000,
        6_311_500_000_000_000_000_000_000_000,
    ),
];

/// Days and units that they haven't.
const NO_LABELS: [(i32, i128); 10] = [
    (6208, 86_400_000_000_000_000_000_000),
    (6209, 86_401_000_000_000_000_000_000),
    (6574, 86_400_000_000_000_000_000_000),
    (10_957, 86_399_000_000_000_000_000_000),
    (10_957, 86_400_000_000_000_000_000_000),
    (11_322, 86_400_000_000_000_000_000_000),
    (-10_229, 86_400_000_000_000_000_000_000),
    (-10_228, 86_401_000_000_000_000_000_000),
    (6210, -1),
    (-73_048, 86_400_000_000_000_000_000_000),
];

/// Appends a count and the midnight of a day.
fn add(numbers: &mut Vec<Dec>, count: i128, day: i32) -> Result<(), Fail> {
    let seconds = i128::from(day) * 86_400 - 43_200;
    numbers.push(Dec {
        digits: count,
        tens: 0,
    })?;
    numbers.push(Dec {
        digits: seconds,
        tens: 0,
    })?;
    Ok(())
}

/// The fault of the numbers with these digits and powers of ten.
fn fault_of(alloc: Global, digits: &[(i128, i32)]) -> Result<Option<LeapFault>, Fail> {
    let mut numbers = Vec::new(alloc);
    for (digits, tens) in digits {
        numbers.push(Dec {
            digits: *digits,
            tens: *tens,
        })?;
    }
    Ok(error_of(LeapTable::from_pairs(alloc, numbers.as_slice())))
}

fn error_of(answer: Result<LeapTable, LeapFault>) -> Option<LeapFault> {
    answer.err()
}

/// The most seconds in magnitude of the times that are tried.
const MOST: i128 = 6_311_500_000;

/// What a label that is tried has as TAI.
fn tai_of(table: &LeapTable, day: i32, of_day: i128) -> Option<Result<i128, NoSuchSecond>> {
    if day < -73_050 || 73_050 < day || of_day < -SECOND || 86_402 * SECOND < of_day {
        return None;
    }
    Some(table.tai_of(Label { day, of_day }))
}

/// The day and the units of it of the label of a TAI that is tried.
fn utc_of(table: &LeapTable, tai: i128) -> Option<(i32, i128)> {
    if tai < -MOST * SECOND || MOST * SECOND < tai {
        return None;
    }
    let label = table.utc_of(tai);
    Some((label.day, label.of_day))
}

#[test]
fn tells_labels_both_ways(rt: HostRuntime) -> Result<(), Fail> {
    let alloc = rt.alloc();
    let mut numbers = Vec::new(alloc);
    for (count, day) in PAIRS {
        add(&mut numbers, count, day)?;
    }
    let Ok(table) = LeapTable::from_pairs(alloc, numbers.as_slice()) else {
        assert!(rt; false);
        return Ok(());
    };
    for (day, of_day, tai) in LABELS {
        assert_eq!(rt; tai_of(&table, day, of_day), Some(Ok(tai)));
        assert_eq!(rt; utc_of(&table, tai), Some((day, of_day)));
    }
    for (day, of_day) in NO_LABELS {
        assert_eq!(rt; tai_of(&table, day, of_day), Some(Err(NoSuchSecond)));
    }
    Ok(())
}

/// Three midnights in their order, as seconds past J2000, and a noon.
const A: (i128, i32) = (-883_656, 3);

const B: (i128, i32) = (-867_931_200, 0);

const C: (i128, i32) = (-852_033_600, 0);

const NOON: (i128, i32) = (0, 0);

/// A count.
const fn count(digits: i128) -> (i128, i32) {
    (digits, 0)
}

#[test]
fn finds_the_first_fault(rt: HostRuntime) -> Result<(), Fail> {
    let rows: [(&[(i128, i32)], Option<LeapFault>); 30] = [
        (&[], Some(LeapFault::Empty)),
        (&[count(10)], Some(LeapFault::Odd)),
        (&[(105, -1), NOON, count(11)], Some(LeapFault::Odd)),
        (&[count(0), A], None),
        (&[count(1000), A], None),
        (&[(1, 1), A, (1100, -2), B], None),
        (&[(105, -1), A], Some(LeapFault::NotWhole(1))),
        (&[count(-1), A], Some(LeapFault::NotWhole(1))),
        (&[count(1001), A], Some(LeapFault::NotWhole(1))),
        (&[(1, 30), A], Some(LeapFault::NotWhole(1))),
        (&[(105, -1), NOON], Some(LeapFault::NotWhole(1))),
        (&[count(10), NOON], Some(LeapFault::NotMidnight(1))),
        (
            &[count(10), NOON, (5, -1), B],
            Some(LeapFault::NotMidnight(1)),
        ),
        (
            &[count(10), (-883_655_999_999_999_999_999_999_999, -18)],
            Some(LeapFault::NotMidnight(1)),
        ),
        (
            &[count(10), (-8_836_560_000_000_000_000_000_000_001, -19)],
            Some(LeapFault::NotMidnight(1)),
        ),
        (
            &[count(10), (-883_656_000_000_000_000_000_000_000, -18)],
            None,
        ),
        (&[count(10), (1, 40)], Some(LeapFault::NotMidnight(1))),
        (
            &[count(10), (-6_311_476_800, 0)],
            Some(LeapFault::NotMidnight(1)),
        ),
        (&[count(10), (-6_311_390_400, 0)], None),
        (&[count(10), (6_311_390_400, 0)], None),
        (
            &[count(10), (6_311_476_800, 0)],
            Some(LeapFault::NotMidnight(1)),
        ),
        (&[count(10), A, count(11), B, count(10), C], None),
        (
            &[count(10), A, count(12), NOON],
            Some(LeapFault::NotMidnight(2)),
        ),
        (&[count(10), A, count(11), A], Some(LeapFault::NotRising(2))),
        (&[count(10), B, count(12), A], Some(LeapFault::NotRising(2))),
        (&[count(10), A, count(10), B], Some(LeapFault::BadStep(2))),
        (&[count(10), A, count(12), B], Some(LeapFault::BadStep(2))),
        (
            &[count(10), A, count(8), B, (5, -1), C],
            Some(LeapFault::BadStep(2)),
        ),
        (
            &[count(10), A, count(11), B, (5, -1), C],
            Some(LeapFault::NotWhole(3)),
        ),
        (
            &[count(10), A, count(11), B, count(11), A],
            Some(LeapFault::NotRising(3)),
        ),
    ];
    for (digits, fault) in rows {
        assert_eq!(rt; fault_of(rt.alloc(), digits)?, fault);
    }
    Ok(())
}

#[test]
fn takes_a_thousand_pairs(rt: HostRuntime) -> Result<(), Fail> {
    let alloc = rt.alloc();
    let mut numbers = Vec::new(alloc);
    for k in 0..1000_u16 {
        add(
            &mut numbers,
            1000 - i128::from(k % 2),
            146 * i32::from(k) - 73_048,
        )?;
    }
    let Ok(table) = LeapTable::from_pairs(alloc, numbers.as_slice()) else {
        assert!(rt; false);
        return Ok(());
    };
    let rows = [
        (-73_049, 86_400 * SECOND, -6_311_389_401 * SECOND),
        (-73_048, 0, -6_311_389_400 * SECOND),
        (-72_903, 86_398 * SECOND, -6_298_775_002 * SECOND),
        (-72_902, 0, -6_298_775_001 * SECOND),
        (72_659, 86_400 * SECOND, 6_277_781_799 * SECOND),
        (72_660, 0, 6_277_781_800 * SECOND),
        (72_805, 86_398 * SECOND, 6_290_396_198 * SECOND),
        (72_806, 0, 6_290_396_199 * SECOND),
    ];
    for (day, of_day, tai) in rows {
        assert_eq!(rt; tai_of(&table, day, of_day), Some(Ok(tai)));
        assert_eq!(rt; utc_of(&table, tai), Some((day, of_day)));
    }
    // A pair too many is told before the first pair's count.
    numbers.insert(
        0,
        Dec {
            digits: 5,
            tens: -1,
        },
    )?;
    assert_eq!(rt;
        error_of(LeapTable::from_pairs(alloc, numbers.as_slice())),
        Some(LeapFault::Odd)
    );
    numbers.insert(
        0,
        Dec {
            digits: 5,
            tens: -1,
        },
    )?;
    assert_eq!(rt;
        error_of(LeapTable::from_pairs(alloc, numbers.as_slice())),
        Some(LeapFault::TooMany)
    );
    Ok(())
}

#[test]
fn counts_from_one_less_than_none(rt: HostRuntime) -> Result<(), Fail> {
    let alloc = rt.alloc();
    let mut numbers = Vec::new(alloc);
    add(&mut numbers, 0, 0)?;
    let Ok(table) = LeapTable::from_pairs(alloc, numbers.as_slice()) else {
        assert!(rt; false);
        return Ok(());
    };
    assert_eq!(rt;
        table.utc_of(-43_201 * SECOND),
        Label {
            day: -1,
            of_day: 86_400 * SECOND
        }
    );
    assert_eq!(rt; table.utc_of(-43_200 * SECOND), Label { day: 0, of_day: 0 });
    assert_eq!(rt; tai_of(&table, -1, 0), Some(Ok(-129_601 * SECOND)));
    assert_eq!(rt;
        tai_of(&table, -1, 86_400 * SECOND),
        Some(Ok(-43_201 * SECOND))
    );
    assert_eq!(rt;
        tai_of(&table, -1, 86_401 * SECOND),
        Some(Err(NoSuchSecond))
    );
    assert_eq!(rt; tai_of(&table, 0, 0), Some(Ok(-43_200 * SECOND)));
    Ok(())
}
