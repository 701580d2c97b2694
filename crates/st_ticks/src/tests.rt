//! Clock strings of worked clocks, with answers that were computed apart from the program.

use crate::{ClockFault, ClockTextFault, ClockVar, ClockWhy, Face, FaceFault};
use st_decimal::Dec;
use std::alloc::Global;
use std::test::Fail;

const NONE: Dec = Dec { digits: 0, tens: 0 };

const ONE: Dec = Dec { digits: 1, tens: 0 };

const TWO: Dec = Dec { digits: 2, tens: 0 };

/// A clock of two fields, 4294967296 and 256, with one partition up to 1099511627775.
fn two_fields(alloc: Global) -> Result<Face, FaceFault> {
    let moduli = [
        Dec {
            digits: 4_294_967_296,
            tens: 0,
        },
        Dec {
            digits: 256,
            tens: 0,
        },
    ];
    let end = [Dec {
        digits: 1_099_511_627_775,
        tens: 0,
    }];
    Face::from_parts(alloc, &[TWO], &moduli, &[NONE, NONE], &[ONE], &[NONE], &end)
}

/// A clock of four fields, with colons.
fn four_fields(alloc: Global) -> Result<Face, FaceFault> {
    let moduli = [
        Dec {
            digits: 16_777_215,
            tens: 0,
        },
        Dec {
            digits: 91,
            tens: 0,
        },
        Dec { digits: 1, tens: 1 },
        Dec { digits: 8, tens: 0 },
    ];
    let end = [Dec {
        digits: 122_138_125_199,
        tens: 0,
    }];
    let four = [Dec { digits: 4, tens: 0 }];
    Face::from_parts(
        alloc,
        &four,
        &moduli,
        &[NONE, NONE, NONE, NONE],
        &[TWO],
        &[NONE],
        &end,
    )
}

/// A clock of three fields, of which the last counts from 1.
fn offset(alloc: Global) -> Result<Face, FaceFault> {
    let moduli = [
        Dec {
            digits: 65_536,
            tens: 0,
        },
        Dec { digits: 6, tens: 1 },
        Dec { digits: 8, tens: 2 },
    ];
    let end = [Dec {
        digits: 3_145_727_999,
        tens: 0,
    }];
    let three = [Dec { digits: 3, tens: 0 }];
    Face::from_parts(
        alloc,
        &three,
        &moduli,
        &[NONE, NONE, ONE],
        &[TWO],
        &[NONE],
        &end,
    )
}

/// The clock of two fields with two partitions, from 0 to 1000 and from 0 to 5000.
fn two_partitions(alloc: Global) -> Result<Face, FaceFault> {
    let moduli = [
        Dec {
            digits: 4_294_967_296,
            tens: 0,
        },
        Dec {
            digits: 256,
            tens: 0,
        },
    ];
    let ends = [Dec { digits: 1, tens: 3 }, Dec { digits: 5, tens: 3 }];
    Face::from_parts(
        alloc,
        &[TWO],
        &moduli,
        &[NONE, NONE],
        &[ONE],
        &[NONE, NONE],
        &ends,
    )
}

/// The clock of two fields with an output delimiter.
fn delimited(alloc: Global, code: Dec) -> Result<Face, FaceFault> {
    let moduli = [
        Dec {
            digits: 4_294_967_296,
            tens: 0,
        },
        Dec {
            digits: 256,
            tens: 0,
        },
    ];
    let end = [Dec {
        digits: 1_099_511_627_775,
        tens: 0,
    }];
    Face::from_parts(
        alloc,
        &[TWO],
        &moduli,
        &[NONE, NONE],
        &[code],
        &[NONE],
        &end,
    )
}

const FORM: Result<u64, ClockTextFault> = Err(ClockTextFault::Form);

#[test]
fn reads_clock_strings(rt: HostRuntime) -> Result<(), Fail> {
    let Ok(face) = two_fields(rt.alloc()) else {
        assert!(rt; false);
        return Ok(());
    };
    let table: [(&[u8], Result<u64, ClockTextFault>); 24] = [
        (b"100", Ok(25_600)),
        (b"1/100.128", Ok(25_728)),
        (b" \t1 / 100 : 128 ", Ok(25_728)),
        (b"0 300", Ok(300)),
        (b"1/4294967295.255", Ok(1_099_511_627_775)),
        (b"1/4294967296.0", Err(ClockTextFault::NotInPartition)),
        (b"2/0", Err(ClockTextFault::NoPartition)),
        (b"0/0", Err(ClockTextFault::NoPartition)),
        (
            b"99999999999999999999999/0",
            Err(ClockTextFault::NoPartition),
        ),
        (b"0001/0001.0001", Ok(257)),
        (b"", FORM),
        (b"1/", FORM),
        (b"1.", FORM),
        (b".1", FORM),
        (b"1..2", FORM),
        (b"1/2/3", FORM),
        (b"-1", FORM),
        (b"1;2", FORM),
        (b"1.2 x", FORM),
        (b"0.0.0", Err(ClockTextFault::TooManyFields)),
        (b"2/0.0.0", Err(ClockTextFault::TooManyFields)),
        (b"1000000000000000001", Err(ClockTextFault::TooLarge)),
        (b"3906250000000000", Err(ClockTextFault::NotInPartition)),
        (b"0.2000000000000000001", Err(ClockTextFault::TooLarge)),
    ];
    for (text, answer) in table {
        assert_eq!(rt; face.read_clock(text), answer);
    }
    assert_eq!(rt; face.ticks_per_count(), 256);
    assert_eq!(rt; face.total(), 1_099_511_627_775);
    assert!(rt; 300 <= face.total());
    let line = face.write_clock(rt.alloc(), 300)?;
    assert_eq!(rt; line.as_slice(), b"1/0000000001.044".as_slice());
    Ok(())
}

#[test]
fn reads_and_writes_fields(rt: HostRuntime) -> Result<(), Fail> {
    if let Ok(face) = four_fields(rt.alloc()) {
        assert_eq!(rt; face.read_clock(b"1 / 1 : 1"), Ok(7_360));
        assert_eq!(rt; face.read_clock(b"1/1:1:0:0"), Ok(7_360));
        assert_eq!(rt; face.total(), 122_138_125_199);
        assert!(rt; 7_360 <= face.total());
        let line = face.write_clock(rt.alloc(), 7_360)?;
        assert_eq!(rt; line.as_slice(), b"1/00000001:01:0:0".as_slice());
    }
    if let Ok(face) = offset(rt.alloc()) {
        assert_eq!(rt; face.read_clock(b"0:0:1"), Ok(0));
        assert_eq!(rt; face.read_clock(b"0"), Ok(0));
        assert_eq!(rt; face.read_clock(b"0:0:801"), Ok(800));
        assert_eq!(rt;
            face.read_clock(b"0:0:0"),
            Err(ClockTextFault::FieldBelowOffset)
        );
        let line = face.write_clock(rt.alloc(), 0)?;
        assert_eq!(rt; line.as_slice(), b"1/00000:00:001".as_slice());
        let total = face.total();
        assert_eq!(rt; total, 3_145_727_999);
        assert!(rt; 800 <= total);
        let next = face.write_clock(rt.alloc(), 800)?;
        assert_eq!(rt; next.as_slice(), b"1/00000:01:001".as_slice());
    }
    Ok(())
}

#[test]
fn tells_partitions(rt: HostRuntime) -> Result<(), Fail> {
    let Ok(face) = two_partitions(rt.alloc()) else {
        assert!(rt; false);
        return Ok(());
    };
    let total = face.total();
    assert_eq!(rt; total, 6_000);
    assert!(rt; 1_000 <= total);
    assert_eq!(rt; face.read_clock(b"1/3.232"), Ok(1_000));
    assert_eq!(rt; face.read_clock(b"3.233"), Ok(2_001));
    assert_eq!(rt;
        face.read_clock(b"1/3.233"),
        Err(ClockTextFault::NotInPartition)
    );
    let start = face.write_clock(rt.alloc(), 1_000)?;
    assert_eq!(rt; start.as_slice(), b"2/0000000000.000".as_slice());
    let before = face.write_clock(rt.alloc(), 999)?;
    assert_eq!(rt; before.as_slice(), b"1/0000000003.231".as_slice());
    let end = face.write_clock(rt.alloc(), total)?;
    assert_eq!(rt; end.as_slice(), b"2/0000000019.136".as_slice());
    Ok(())
}

#[test]
fn refuses_in_order(rt: HostRuntime) -> Result<(), Fail> {
    let Ok(face) = offset(rt.alloc()) else {
        assert!(rt; false);
        return Ok(());
    };
    let table: [(&[u8], Result<u64, ClockTextFault>); 7] = [
        (b"2/0:0:0:0", Err(ClockTextFault::TooManyFields)),
        (b"2/0:0:0", Err(ClockTextFault::NoPartition)),
        (b"2/1000000000000000001", Err(ClockTextFault::NoPartition)),
        (
            b"1000000000000000001:0:0",
            Err(ClockTextFault::FieldBelowOffset),
        ),
        (
            b"2000000000000000001:0:0",
            Err(ClockTextFault::FieldBelowOffset),
        ),
        (b"65536:0:0", Err(ClockTextFault::FieldBelowOffset)),
        (b"1000000000000000001:0:1", Err(ClockTextFault::TooLarge)),
    ];
    for (text, answer) in table {
        assert_eq!(rt; face.read_clock(text), answer);
    }
    Ok(())
}

#[test]
fn writes_with_each_delimiter(rt: HostRuntime) -> Result<(), Fail> {
    let Ok(face) = two_fields(rt.alloc()) else {
        assert!(rt; false);
        return Ok(());
    };
    assert!(rt; 25_600 <= face.total());
    let whole = face.write_clock(rt.alloc(), 25_600)?;
    assert_eq!(rt; whole.as_slice(), b"1/0000000100.000".as_slice());
    assert!(rt; 25_728 <= face.total());
    let half = face.write_clock(rt.alloc(), 25_728)?;
    assert_eq!(rt; half.as_slice(), b"1/0000000100.128".as_slice());
    let Ok(dashed) = delimited(rt.alloc(), Dec { digits: 3, tens: 0 }) else {
        assert!(rt; false);
        return Ok(());
    };
    assert!(rt; 25_728 <= dashed.total());
    let dashed_line = dashed.write_clock(rt.alloc(), 25_728)?;
    assert_eq!(rt; dashed_line.as_slice(), b"1/0000000100-128".as_slice());
    let Ok(listed) = delimited(rt.alloc(), Dec { digits: 4, tens: 0 }) else {
        assert!(rt; false);
        return Ok(());
    };
    assert!(rt; 25_728 <= listed.total());
    let listed_line = listed.write_clock(rt.alloc(), 25_728)?;
    assert_eq!(rt; listed_line.as_slice(), b"1/0000000100,128".as_slice());
    let Ok(spaced) = delimited(rt.alloc(), Dec { digits: 5, tens: 0 }) else {
        assert!(rt; false);
        return Ok(());
    };
    assert!(rt; 25_728 <= spaced.total());
    let spaced_line = spaced.write_clock(rt.alloc(), 25_728)?;
    assert_eq!(rt; spaced_line.as_slice(), b"1/0000000100 128".as_slice());
    Ok(())
}

#[test]
fn refuses_variables(rt: HostRuntime) {
    let half = Dec {
        digits: 5,
        tens: -1,
    };
    let huge = Dec {
        digits: 1,
        tens: 30,
    };
    let least = Dec {
        digits: -1,
        tens: 0,
    };
    let most = Dec {
        digits: 1,
        tens: 18,
    };
    let over = Dec {
        digits: 1_000_000_000_000_000_001,
        tens: 0,
    };
    let ticks = Dec {
        digits: 1,
        tens: 12,
    };
    let more_ticks = Dec {
        digits: 1_000_000_000_001,
        tens: 0,
    };
    let six = Dec { digits: 6, tens: 0 };
    let (var, why) = (ClockVar::NFields, ClockWhy::NotOne);
    let face = Face::from_parts(rt.alloc(), &[], &[ONE], &[NONE], &[ONE], &[NONE], &[ONE]);
    assert!(rt; is_fault(&face, var, why));
    let face = Face::from_parts(
        rt.alloc(),
        &[half],
        &[ONE],
        &[NONE],
        &[ONE],
        &[NONE],
        &[ONE],
    );
    assert!(rt; is_fault(&face, ClockVar::NFields, ClockWhy::NotWhole));
    let face = Face::from_parts(
        rt.alloc(),
        &[huge],
        &[ONE],
        &[NONE],
        &[ONE],
        &[NONE],
        &[ONE],
    );
    assert!(rt; is_fault(&face, ClockVar::NFields, ClockWhy::Range));
    let face = Face::from_parts(
        rt.alloc(),
        &[TWO],
        &[half],
        &[NONE],
        &[ONE],
        &[NONE],
        &[ONE],
    );
    assert!(rt; is_fault(&face, ClockVar::Moduli, ClockWhy::Count));
    let face = Face::from_parts(
        rt.alloc(),
        &[ONE],
        &[half],
        &[NONE],
        &[ONE],
        &[NONE],
        &[ONE],
    );
    assert!(rt; is_fault(&face, ClockVar::Moduli, ClockWhy::NotWhole));
    let face = Face::from_parts(
        rt.alloc(),
        &[ONE],
        &[over],
        &[NONE],
        &[ONE],
        &[NONE],
        &[ONE],
    );
    assert!(rt; is_fault(&face, ClockVar::Moduli, ClockWhy::Range));
    let face = Face::from_parts(
        rt.alloc(),
        &[ONE],
        &[NONE],
        &[NONE],
        &[ONE],
        &[NONE],
        &[ONE],
    );
    assert!(rt; is_fault(&face, ClockVar::Moduli, ClockWhy::Range));
    let face = Face::from_parts(
        rt.alloc(),
        &[TWO],
        &[ONE, more_ticks],
        &[NONE],
        &[ONE],
        &[NONE],
        &[ONE],
    );
    assert!(rt; is_fault(&face, ClockVar::Moduli, ClockWhy::Product));
    let face = Face::from_parts(
        rt.alloc(),
        &[TWO],
        &[most, ticks],
        &[NONE],
        &[ONE],
        &[NONE],
        &[ONE],
    );
    assert!(rt; is_fault(&face, ClockVar::Offsets, ClockWhy::Count));
    let face = Face::from_parts(
        rt.alloc(),
        &[ONE],
        &[ONE],
        &[more_ticks],
        &[ONE],
        &[NONE],
        &[ONE],
    );
    assert!(rt; is_fault(&face, ClockVar::Offsets, ClockWhy::Range));
    let face = Face::from_parts(rt.alloc(), &[ONE], &[ONE], &[NONE], &[six], &[NONE], &[ONE]);
    assert!(rt; is_fault(&face, ClockVar::Delim, ClockWhy::Range));
    let face = Face::from_parts(rt.alloc(), &[ONE], &[ONE], &[NONE], &[ONE], &[], &[]);
    assert!(rt; is_fault(&face, ClockVar::Start, ClockWhy::Count));
    let face = Face::from_parts(
        rt.alloc(),
        &[ONE],
        &[ONE],
        &[NONE],
        &[ONE],
        &[least],
        &[ONE],
    );
    assert!(rt; is_fault(&face, ClockVar::Start, ClockWhy::Range));
    let face = Face::from_parts(rt.alloc(), &[ONE], &[ONE], &[NONE], &[ONE], &[NONE], &[]);
    assert!(rt; is_fault(&face, ClockVar::End, ClockWhy::Count));
    let face = Face::from_parts(rt.alloc(), &[ONE], &[ONE], &[NONE], &[ONE], &[TWO], &[ONE]);
    assert!(rt; is_fault(&face, ClockVar::End, ClockWhy::Range));
    let face = Face::from_parts(
        rt.alloc(),
        &[ONE],
        &[ONE],
        &[NONE],
        &[ONE],
        &[NONE, NONE],
        &[most, ONE],
    );
    assert!(rt; is_fault(&face, ClockVar::End, ClockWhy::Product));
    let face = Face::from_parts(
        rt.alloc(),
        &[ONE],
        &[most],
        &[ticks],
        &[ONE],
        &[NONE],
        &[most],
    );
    assert!(rt; face.is_ok());
}

const HALF: Dec = Dec {
    digits: 5,
    tens: -1,
};

const MOST_TICKS: Dec = Dec {
    digits: 1,
    tens: 18,
};

const MORE_TICKS: Dec = Dec {
    digits: 1_000_000_000_000_000_001,
    tens: 0,
};

const LEAST: Dec = Dec {
    digits: -1,
    tens: 0,
};

const ONE_AND_HALF: Dec = Dec {
    digits: 15,
    tens: -1,
};

/// Each row: offsets, delimiter, starts, ends, and the fault.
#[test]
fn refuses_one_above_the_limits(rt: HostRuntime) {
    use ClockVar::{Delim, End, Offsets, Start};
    use ClockWhy::{NotOne, NotWhole, Range};
    let table: [([&[Dec]; 4], ClockVar, ClockWhy); 8] = [
        ([&[HALF], &[ONE], &[NONE], &[ONE]], Offsets, NotWhole),
        ([&[NONE], &[], &[NONE], &[ONE]], Delim, NotOne),
        ([&[NONE], &[ONE, ONE], &[NONE], &[ONE]], Delim, NotOne),
        ([&[NONE], &[ONE_AND_HALF], &[NONE], &[ONE]], Delim, Range),
        ([&[NONE], &[ONE], &[HALF], &[ONE]], Start, NotWhole),
        ([&[NONE], &[ONE], &[MORE_TICKS], &[ONE]], Start, Range),
        ([&[NONE], &[ONE], &[NONE], &[HALF]], End, NotWhole),
        ([&[NONE], &[ONE], &[NONE], &[MORE_TICKS]], End, Range),
    ];
    for ([offsets, delim, starts, ends], var, why) in table {
        let face = Face::from_parts(rt.alloc(), &[ONE], &[ONE], offsets, delim, starts, ends);
        assert!(rt; is_fault(&face, var, why));
    }
    let most = [MOST_TICKS];
    let face = Face::from_parts(rt.alloc(), &[ONE], &[ONE], &[NONE], &[ONE], &most, &most);
    assert!(rt; face.is_ok());
}

/// Each row: offsets, delimiter, starts, ends, and the fault.
#[test]
fn refuses_one_below_the_limits(rt: HostRuntime) {
    use ClockVar::{Delim, Offsets};
    use ClockWhy::Range;
    let table: [([&[Dec]; 4], ClockVar, ClockWhy); 2] = [
        ([&[LEAST], &[ONE], &[NONE], &[ONE]], Offsets, Range),
        ([&[NONE], &[NONE], &[NONE], &[ONE]], Delim, Range),
    ];
    for ([offsets, delim, starts, ends], var, why) in table {
        let face = Face::from_parts(rt.alloc(), &[ONE], &[ONE], offsets, delim, starts, ends);
        assert!(rt; is_fault(&face, var, why));
    }
}

#[test]
fn has_up_to_ten_fields(rt: HostRuntime) {
    let ten = [Dec { digits: 1, tens: 1 }];
    let eleven = [Dec {
        digits: 11,
        tens: 0,
    }];
    let face = Face::from_parts(
        rt.alloc(),
        &ten,
        &[ONE; 10],
        &[NONE; 10],
        &[ONE],
        &[NONE],
        &[ONE],
    );
    assert!(rt; face.is_ok());
    let face = Face::from_parts(
        rt.alloc(),
        &eleven,
        &[ONE; 11],
        &[NONE; 11],
        &[ONE],
        &[NONE],
        &[ONE],
    );
    assert!(rt; is_fault(&face, ClockVar::NFields, ClockWhy::Range));
    let face = Face::from_parts(rt.alloc(), &[NONE], &[], &[], &[ONE], &[NONE], &[ONE]);
    assert!(rt; is_fault(&face, ClockVar::NFields, ClockWhy::Range));
}

#[test]
fn has_up_to_9999_partitions(rt: HostRuntime) {
    let most = [NONE; 9_999];
    let face = Face::from_parts(rt.alloc(), &[ONE], &[ONE], &[NONE], &[ONE], &most, &most);
    assert!(rt; face.is_ok());
    let more = [NONE; 10_000];
    let face = Face::from_parts(rt.alloc(), &[ONE], &[ONE], &[NONE], &[ONE], &more, &more);
    assert!(rt; is_fault(&face, ClockVar::Start, ClockWhy::Count));
}

/// Whether making a face was refused for this.
fn is_fault(face: &Result<Face, FaceFault>, var: ClockVar, why: ClockWhy) -> bool {
    match face {
        Err(FaceFault::Bad(fault)) => *fault == ClockFault { var, why },
        _ => false,
    }
}
