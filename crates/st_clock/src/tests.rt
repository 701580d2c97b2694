//! Worked clocks, as calls through `from_parts`, with answers that were computed apart from the program.

use crate::{Clock, ClockRange, Point, Ticks, TicksUndecided, check_system};
use st_decimal::Dec;
use st_enclosure::Enc;
use st_scales::Scale;
use st_ticks::{ClockFault, ClockVar, ClockWhy, Face, FaceFault};
use std::alloc::Global;
use std::test::Fail;

const NONE: Dec = Dec { digits: 0, tens: 0 };

const ONE: Dec = Dec { digits: 1, tens: 0 };

const TWO: Dec = Dec { digits: 2, tens: 0 };

const COUNT: Dec = Dec {
    digits: 25_600,
    tens: 0,
};

/// The units in a millisecond.
const MILLI: i128 = 1_000_000_000_000_000;

/// A clock of fields of 4294967296 and 256 counts, with these partitions.
fn clock(
    alloc: Global,
    system: Dec,
    ends: &[Dec],
    coefficients: &[Dec],
) -> Result<Clock, FaceFault> {
    let moduli = [
        Dec {
            digits: 4_294_967_296,
            tens: 0,
        },
        Dec {
            digits: 256,
            tens: 0,
        },
    ];
    let starts: &[Dec] = if ends.len() == 1 {
        &[NONE]
    } else {
        &[NONE, NONE]
    };
    let face = Face::from_parts(alloc, &[TWO], &moduli, &[NONE, NONE], &[ONE], starts, ends)?;
    Clock::from_parts(alloc, face, &[ONE], &[system], coefficients)
}

#[test]
fn gives_times_and_ticks(rt: HostRuntime) -> Result<(), Fail> {
    let end = [Dec {
        digits: 1_099_511_627_775,
        tens: 0,
    }];
    let Ok(usual) = clock(rt.alloc(), ONE, &end, &[NONE, NONE, ONE]) else {
        assert!(rt; false);
        return Ok(());
    };
    let at = Point {
        units: 100_500 * MILLI,
        part: 0,
        of: 256,
    };
    assert_eq!(rt; usual.time_of(25_728), Ok(at));
    assert_eq!(rt; usual.time_of(u64::MAX), Err(ClockRange::OutOfRange));
    assert_eq!(rt; usual.ticks_of(1_953_125_000_000_000), Ticks::At(1));
    assert_eq!(rt; usual.ticks_of(1_953_124_000_000_000), Ticks::At(0));
    assert_eq!(rt; usual.ticks_of(100_500 * MILLI), Ticks::At(25_728));
    let late = Dec {
        digits: 110,
        tens: 0,
    };
    let Ok(capped) = clock(rt.alloc(), ONE, &end, &[NONE, NONE, ONE, COUNT, late, ONE]) else {
        assert!(rt; false);
        return Ok(());
    };
    assert_eq!(rt; capped.ticks_of(99_500 * MILLI), Ticks::At(25_472));
    assert_eq!(rt; capped.ticks_of(105_000 * MILLI), Ticks::At(25_600));
    assert_eq!(rt; capped.ticks_of(111_000 * MILLI), Ticks::At(25_856));
    Ok(())
}

#[test]
fn tells_what_is_before_and_behind(rt: HostRuntime) -> Result<(), Fail> {
    let ends = [
        Dec {
            digits: 1_000,
            tens: 0,
        },
        Dec {
            digits: 5_000,
            tens: 0,
        },
    ];
    let Ok(short) = clock(rt.alloc(), ONE, &ends, &[NONE, NONE, ONE]) else {
        assert!(rt; false);
        return Ok(());
    };
    assert_eq!(rt;
        short.ticks_of(23_437 * MILLI + MILLI / 2),
        Ticks::At(6_000)
    );
    assert_eq!(rt; short.ticks_of(24_000 * MILLI), Ticks::After);
    assert_eq!(rt; short.ticks_of(-1_000 * MILLI), Ticks::Before);
    let twice = clock(rt.alloc(), TWO, &ends, &[NONE, NONE, ONE, NONE, ONE, ONE]);
    let fault = ClockFault {
        var: ClockVar::Coefficients,
        why: ClockWhy::NotRising,
    };
    assert!(rt; matches!(twice, Err(FaceFault::Bad(found)) if found == fault));
    Ok(())
}

#[test]
fn leaves_a_gap(rt: HostRuntime) -> Result<(), Fail> {
    let end = [Dec {
        digits: 1_099_511_627_775,
        tens: 0,
    }];
    let early = Dec {
        digits: 90,
        tens: 0,
    };
    let Ok(gap) = clock(rt.alloc(), ONE, &end, &[NONE, NONE, ONE, COUNT, early, ONE]) else {
        assert!(rt; false);
        return Ok(());
    };
    assert_eq!(rt; gap.ticks_of(89_500 * MILLI), Ticks::At(22_912));
    assert_eq!(rt; gap.ticks_of(90_000 * MILLI), Ticks::At(25_600));
    let at = Point {
        units: 93_750 * MILLI,
        part: 0,
        of: 256,
    };
    assert_eq!(rt; gap.time_of(24_000), Ok(at));
    let lo = 93_750 * MILLI;
    let one = gap.ticks_in(Enc { lo, hi: lo + 1 });
    assert!(rt; matches!(one, Ok(Ticks::At(26_560))));
    let two = gap.ticks_in(Enc {
        lo: lo - 4 * MILLI,
        hi: lo,
    });
    let ends = TicksUndecided {
        lo: Ticks::At(26_559),
        hi: Ticks::At(26_560),
    };
    assert!(rt; matches!(two, Err(found) if found == ends));
    Ok(())
}

#[test]
fn keeps_terrestrial_time(rt: HostRuntime) -> Result<(), Fail> {
    let end = [Dec {
        digits: 1_099_511_627_775,
        tens: 0,
    }];
    let start = Dec {
        digits: 536_500_869_184,
        tens: -3,
    };
    let Ok(late) = clock(rt.alloc(), TWO, &end, &[ONE, start, ONE]) else {
        assert!(rt; false);
        return Ok(());
    };
    assert_eq!(rt; late.time_of(0), Err(ClockRange::Before));
    let at = Point {
        units: 536_587_269_684 * MILLI,
        part: 0,
        of: 256,
    };
    assert_eq!(rt; late.time_of(22_118_529), Ok(at));
    assert!(rt; late.scale() == Scale::Tt);
    assert_eq!(rt; late.face().ticks_per_count(), 256);
    assert_eq!(rt; late.face().total(), 1_099_511_627_775);
    assert_eq!(rt; check_system(&[ONE], &[]), Ok(Scale::Tdb));
    let fault = ClockFault {
        var: ClockVar::DataType,
        why: ClockWhy::NotOne,
    };
    assert_eq!(rt; check_system(&[], &[TWO]), Err(fault));
    Ok(())
}

#[test]
fn counts_four_fields(rt: HostRuntime) -> Result<(), Fail> {
    let moduli = [
        Dec {
            digits: 16_777_215,
            tens: 0,
        },
        Dec {
            digits: 91,
            tens: 0,
        },
        Dec {
            digits: 10,
            tens: 0,
        },
        Dec { digits: 8, tens: 0 },
    ];
    let offsets = [NONE, NONE, NONE, NONE];
    let four = [Dec { digits: 4, tens: 0 }];
    let end = [Dec {
        digits: 122_138_125_199,
        tens: 0,
    }];
    let rate = Dec {
        digits: 60_666,
        tens: -3,
    };
    let face = Face::from_parts(rt.alloc(), &four, &moduli, &offsets, &[TWO], &[NONE], &end);
    let Ok(face) = face else {
        assert!(rt; false);
        return Ok(());
    };
    let Ok(clock) = Clock::from_parts(rt.alloc(), face, &[ONE], &[], &[NONE, NONE, rate]) else {
        assert!(rt; false);
        return Ok(());
    };
    let at = Point {
        units: 61_332_659_340_659_340_659,
        part: 2_480,
        of: 7_280,
    };
    assert_eq!(rt; clock.time_of(7_360), Ok(at));
    Ok(())
}

#[test]
fn keeps_the_time_of_a_string(rt: HostRuntime) -> Result<(), Fail> {
    let end = [Dec {
        digits: 1_099_511_627_775,
        tens: 0,
    }];
    let start = Dec {
        digits: 536_500_869_184,
        tens: -3,
    };
    let Ok(tsc) = clock(rt.alloc(), TWO, &end, &[NONE, start, ONE]) else {
        assert!(rt; false);
        return Ok(());
    };
    let at = Point {
        units: 536_587_269_684 * MILLI,
        part: 0,
        of: 256,
    };
    assert_eq!(rt; tsc.time_of(22_118_528), Ok(at));
    let lo = 536_587_269_684 * MILLI;
    assert_eq!(rt; tsc.ticks_of(lo), Ticks::At(22_118_528));
    let one = tsc.ticks_in(Enc { lo, hi: lo + 1 });
    assert!(rt; matches!(one, Ok(Ticks::At(22_118_528))));
    assert_eq!(rt; tsc.ticks_of(536_500_869_183 * MILLI), Ticks::Before);
    assert!(rt; tsc.scale() == Scale::Tt);
    Ok(())
}

const HALF: Dec = Dec {
    digits: 5,
    tens: -1,
};

const LEAST: Dec = Dec {
    digits: -1,
    tens: 0,
};

/// A tenth of a unit.
const FINE: Dec = Dec {
    digits: 1,
    tens: -19,
};

/// 10^38 units.
const HUGE: Dec = Dec {
    digits: 1,
    tens: 20,
};

const MOST_TICKS: Dec = Dec {
    digits: 1,
    tens: 18,
};

const MORE_TICKS: Dec = Dec {
    digits: 1_000_000_000_000_000_001,
    tens: 0,
};

const MOST_TIME: Dec = Dec {
    digits: 1,
    tens: 10,
};

const MORE_TIME: Dec = Dec {
    digits: 10_000_000_000_000_000_000_000_000_001,
    tens: -18,
};

const LESS_TIME: Dec = Dec {
    digits: -10_000_000_000_000_000_000_000_000_001,
    tens: -18,
};

const MOST_RATE: Dec = Dec { digits: 1, tens: 5 };

const MORE_RATE: Dec = Dec {
    digits: 100_001,
    tens: 0,
};

#[test]
fn refuses_coefficients(rt: HostRuntime) -> Result<(), Fail> {
    let end = [Dec {
        digits: 1_099_511_627_775,
        tens: 0,
    }];
    let count = ClockFault {
        var: ClockVar::Coefficients,
        why: ClockWhy::Count,
    };
    let none = clock(rt.alloc(), ONE, &end, &[]);
    assert!(rt; matches!(none, Err(FaceFault::Bad(found)) if found == count));
    let two = clock(rt.alloc(), ONE, &end, &[NONE, NONE]);
    assert!(rt; matches!(two, Err(FaceFault::Bad(found)) if found == count));
    let four = clock(rt.alloc(), ONE, &end, &[NONE, NONE, ONE, HALF]);
    assert!(rt; matches!(four, Err(FaceFault::Bad(found)) if found == count));
    let whole = ClockFault {
        var: ClockVar::Coefficients,
        why: ClockWhy::NotWhole,
    };
    let half = clock(rt.alloc(), ONE, &end, &[HALF, NONE, ONE]);
    assert!(rt; matches!(half, Err(FaceFault::Bad(found)) if found == whole));
    let half_first = clock(rt.alloc(), ONE, &end, &[HALF, FINE, NONE]);
    assert!(rt; matches!(half_first, Err(FaceFault::Bad(found)) if found == whole));
    let parts = ClockFault {
        var: ClockVar::Coefficients,
        why: ClockWhy::NotUnits,
    };
    let fine_time = clock(rt.alloc(), ONE, &end, &[NONE, FINE, ONE]);
    assert!(rt; matches!(fine_time, Err(FaceFault::Bad(found)) if found == parts));
    let fine_rate = clock(rt.alloc(), ONE, &end, &[NONE, NONE, FINE]);
    assert!(rt; matches!(fine_rate, Err(FaceFault::Bad(found)) if found == parts));
    let huge_time = clock(rt.alloc(), ONE, &end, &[NONE, HUGE, ONE]);
    assert!(rt; matches!(huge_time, Err(FaceFault::Bad(found)) if found == parts));
    let parts_first = clock(rt.alloc(), ONE, &end, &[LEAST, FINE, NONE]);
    assert!(rt; matches!(parts_first, Err(FaceFault::Bad(found)) if found == parts));
    Ok(())
}

#[test]
fn refuses_coefficients_out_of_range(rt: HostRuntime) -> Result<(), Fail> {
    let end = [Dec {
        digits: 1_099_511_627_775,
        tens: 0,
    }];
    let range = ClockFault {
        var: ClockVar::Coefficients,
        why: ClockWhy::Range,
    };
    let more_ticks = clock(rt.alloc(), ONE, &end, &[MORE_TICKS, NONE, ONE]);
    assert!(rt; matches!(more_ticks, Err(FaceFault::Bad(found)) if found == range));
    let fewer_ticks = clock(rt.alloc(), ONE, &end, &[LEAST, NONE, ONE]);
    assert!(rt; matches!(fewer_ticks, Err(FaceFault::Bad(found)) if found == range));
    let more_time = clock(rt.alloc(), ONE, &end, &[NONE, MORE_TIME, ONE]);
    assert!(rt; matches!(more_time, Err(FaceFault::Bad(found)) if found == range));
    let less_time = clock(rt.alloc(), ONE, &end, &[NONE, LESS_TIME, ONE]);
    assert!(rt; matches!(less_time, Err(FaceFault::Bad(found)) if found == range));
    let no_rate = clock(rt.alloc(), ONE, &end, &[NONE, NONE, NONE]);
    assert!(rt; matches!(no_rate, Err(FaceFault::Bad(found)) if found == range));
    let more_rate = clock(rt.alloc(), ONE, &end, &[NONE, NONE, MORE_RATE]);
    assert!(rt; matches!(more_rate, Err(FaceFault::Bad(found)) if found == range));
    let range_first = clock(rt.alloc(), ONE, &end, &[NONE, NONE, ONE, NONE, NONE, NONE]);
    assert!(rt; matches!(range_first, Err(FaceFault::Bad(found)) if found == range));
    let Ok(most) = clock(rt.alloc(), ONE, &end, &[MOST_TICKS, MOST_TIME, MOST_RATE]) else {
        assert!(rt; false);
        return Ok(());
    };
    assert!(rt; most.scale() == Scale::Tdb);
    Ok(())
}

#[test]
fn refuses_systems(rt: HostRuntime) -> Result<(), Fail> {
    let kind = ClockFault {
        var: ClockVar::DataType,
        why: ClockWhy::Range,
    };
    assert_eq!(rt; check_system(&[TWO], &[]), Err(kind));
    assert_eq!(rt; check_system(&[TWO], &[ONE, TWO]), Err(kind));
    let many = ClockFault {
        var: ClockVar::TimeSystem,
        why: ClockWhy::NotOne,
    };
    assert_eq!(rt; check_system(&[ONE], &[ONE, TWO]), Err(many));
    let range = ClockFault {
        var: ClockVar::TimeSystem,
        why: ClockWhy::Range,
    };
    let three = Dec { digits: 3, tens: 0 };
    assert_eq!(rt; check_system(&[ONE], &[three]), Err(range));
    assert_eq!(rt; check_system(&[ONE], &[ONE]), Ok(Scale::Tdb));
    assert_eq!(rt; check_system(&[ONE], &[TWO]), Ok(Scale::Tt));
    Ok(())
}
