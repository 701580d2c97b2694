//! Texts of each form and near misses of each, against answers by the table of forms.

use crate::{Form, FormFault, TimeText, read_time};
use st_dates::{Label, SECOND, System};

/// Calendar dates without a time, and their days past 2000-01-01.
const DATES: [(&[u8], i32); 31] = [
    (b"1996-12-18", -1109),
    (b"1996-1-8", -1454),
    (b"1996-01-8", -1454),
    (b"1996-353", -1109),
    (b"1996-001", -1461),
    (b"1996 DEC 18", -1109),
    (b"1996-DEC-18", -1109),
    (b"1996 December 8", -1119),
    (b"1996-december-08", -1119),
    (b"1996   dec\t18", -1109),
    (b"18 DEC 1996", -1109),
    (b"18-DEC-1996", -1109),
    (b"8 may 1996", -1333),
    (b"08-May-1996", -1333),
    (b"8 \t May   1996", -1333),
    (b"DEC 18, 1996", -1109),
    (b"DEC 18,1996", -1109),
    (b"December 8,  1996", -1119),
    (b"sep  8,\t1996", -1210),
    (b"12/18/1996", -1109),
    (b"1/8/1996", -1454),
    (b"01/08/1996", -1454),
    (b"2000-02-29", 59),
    (b"2000-366", 365),
    (b"1800-01-01", -73_048),
    (b"2200-01-01", 73_049),
    (b"2000-JAN-1", 0),
    (b"  2000-01-01", 0),
    (b"2000-01-01\t ", 0),
    (b"\t2000 Jan 01 ", 0),
    (b"1-January-2000", 0),
];

/// Times of 2000-01-01, in seconds and 10^-12 of a second.
const TIMES: [(&[u8], i64, i64); 24] = [
    (b"2000-01-01T12:28:28", 44_908, 0),
    (b"2000-01-01 12:28:28", 44_908, 0),
    (b"2000-01-01t12:28:28", 44_908, 0),
    (b"2000-01-01 \t 12:28:28", 44_908, 0),
    (b"2000-001T12:28:28", 44_908, 0),
    (b"2000-001 12:28:28", 44_908, 0),
    (b"2000 JAN 1T12:28:28", 44_908, 0),
    (b"2000-JAN-1 12:28:28", 44_908, 0),
    (b"1 JAN 2000T12:28:28", 44_908, 0),
    (b"1-JAN-2000 12:28:28", 44_908, 0),
    (b"JAN 1, 2000T12:00", 43_200, 0),
    (b"JAN 1, 2000 12:28:28", 44_908, 0),
    (b"1/1/2000T12:28:28", 44_908, 0),
    (b"1/1/2000 12:28:28", 44_908, 0),
    (b"2000-01-01T0:0", 0, 0),
    (b"2000-01-01T1:2", 3720, 0),
    (b"2000-01-01T1:2:3", 3723, 0),
    (b"2000-01-01T1:2:3.5", 3723, 500_000_000_000),
    (b"2000-01-01T1:2:3.000000000001", 3723, 1),
    (b"2000-01-01T23:59:59.999999999999", 86_399, 999_999_999_999),
    (b"2000-01-01T23:59:60", 86_400, 0),
    (b"2000-01-01T23:59:60.5", 86_400, 500_000_000_000),
    (b"2000-01-01T23:59:60.999999999999", 86_400, 999_999_999_999),
    (b" 2000-01-01T1:2:3 ", 3723, 0),
];

/// Instants of a source in TT, in seconds and 10^-12 of a second past J2000.
const INSTANTS: [(&[u8], i64, i64); 28] = [
    (b"JD 2451545.5", 43_200, 0),
    (b"jd 2451545", 0, 0),
    (b"Jd   2451545.0", 0, 0),
    (b"jD\t2451544.5", -43_200, 0),
    (b"JD 2451545.000000000001", 0, 86_400),
    (b"JD 2451545.5 TT", 43_200, 0),
    (b"JD 2451545.5  tdt", 43_200, 0),
    (b"JD 0002451545", 0, 0),
    (b"JD 2378496.5", -6_311_390_400, 0),
    (b"JD 2524593.5", 6_311_390_400, 0),
    (b" JD 2451545 ", 0, 0),
    (b"0", 0, 0),
    (b"5", 5, 0),
    (b"+5", 5, 0),
    (b"-5", -5, 0),
    (b"-0", 0, 0),
    (b"-0.5", 0, -500_000_000_000),
    (b"64.183927", 64, 183_927_000_000),
    (b"007.50", 7, 500_000_000_000),
    (b"+0.000000000001", 0, 1),
    (b"-0.999999999999", 0, -999_999_999_999),
    (b"1996", 1996, 0),
    (b"19961218", 19_961_218, 0),
    (b"6311390400", 6_311_390_400, 0),
    (b"-6311390400.000000000000", -6_311_390_400, 0),
    (b"00000000000000000000000000000000000000000000000003", 3, 0),
    (b"\t5 ", 5, 0),
    (b" -5.25\t", -5, -250_000_000_000),
];

/// Texts of no form.
const BAD_TIMES: [&[u8]; 79] = [
    b"",
    b" \t",
    b"now",
    b"1996",
    b"1996-02",
    b"1996-12-",
    b"1996-12-018",
    b"1996-012-18",
    b"96-12-18",
    b"01996-12-18",
    b"1996-12-18-",
    b"1996-12/18",
    b"1996 12 18",
    b"1996 12-18",
    b"1996-35",
    b"1996-3",
    b"1996-0353",
    b"1996 353",
    b"1996 DEC-18",
    b"1996-DEC 18",
    b"1996DEC18",
    b"1996 DECE 18",
    b"1996 DE 18",
    b"1996 DEC 018",
    b"1996 DEC",
    b"1996/DEC/18",
    b"DEC 18 1996",
    b"DEC 18 , 1996",
    b"DEC18, 1996",
    b"DEC-18, 1996",
    b"DEC 18, 96",
    b"DEC 018, 1996",
    b"DEC, 1996",
    b"18 DEC, 1996",
    b"18 DEC-1996",
    b"18-DEC 1996",
    b"18 DEC 96",
    b"018 DEC 1996",
    b"18DEC1996",
    b"12/18/96",
    b"12/018/1996",
    b"1996/12/18",
    b"12/18-1996",
    b"12 / 18 / 1996",
    b"12/18",
    b"2000-01-01T24:00",
    b"2000-01-01T23:60",
    b"2000-01-01T23:59:61",
    b"2000-01-01T12",
    b"2000-01-01T12:",
    b"2000-01-01T12:00:",
    b"2000-01-01T12:00:00.",
    b"2000-01-01T12:00:00.0000000000000",
    b"2000-01-01T12:00.5",
    b"2000-01-01T012:00",
    b"2000-01-01T12:000",
    b"2000-01-01T12 :00",
    b"2000-01-01T 12:00",
    b"2000-01-01 T12:00",
    b"2000-01-01/12:00",
    b"2000-01-01-12:00",
    b"2000-01-01T",
    b"2000-01-01T12:00Z",
    b"2000-01-01Z",
    b"2000-01-01T12:00+01:00",
    b"2000-01-01T12:00UTC",
    b"2000-01-01UTC",
    b"2000-01-01 GPS",
    b"2000-01-01 UTC UTC",
    b"2000-01-01 UTC 12:00",
    b"2000-01-01 12:00 A.M.",
    b"2000-01-01::UTC",
    b"-2000-01-01",
    b"44 B.C. MAR 15",
    b"A.D. 1996 DEC 18",
    b"2000\x0b01-01",
    b"2000-01-01\r",
    b"2000-01-01T12:00:00,5",
    b"SAT 1 JAN 2000",
];

/// Texts of no form for a source in TT either.
const BAD_INSTANTS: [&[u8]; 20] = [
    b"JD2451545",
    b"JD -2451545",
    b"JD +2451545",
    b"JD",
    b"JD 2451545.",
    b"JD .5",
    b"JD 2451545.0000000000000",
    b"JD 2451545T12:00",
    b"JD 2451545 12:00",
    b"MJD 51544",
    b"JD 2451545 GPS",
    b".5",
    b"5.",
    b"+",
    b"- 5",
    b"--5",
    b"5.0000000000000",
    b"5E3",
    b"5 TT",
    b"0x5",
];

/// Texts of a source in UTC with their first refusal.
const UTC_REFUSALS: [(&[u8], FormFault); 31] = [
    (b"12/18/1996 12:28:28 TDB", FormFault::WrongSystem),
    (b"1996-12-18 TAI", FormFault::WrongSystem),
    (b"1996-02-30 TAI", FormFault::WrongSystem),
    (b"9999-12-31 TAI", FormFault::WrongSystem),
    (b"1996-02-30", FormFault::NoSuchDay),
    (b"1996-02-30 12:00 UTC", FormFault::NoSuchDay),
    (b"1996-13-01", FormFault::NoSuchDay),
    (b"1996-00-01", FormFault::NoSuchDay),
    (b"1996-01-00", FormFault::NoSuchDay),
    (b"1996-1-32", FormFault::NoSuchDay),
    (b"1700-02-29", FormFault::NoSuchDay),
    (b"0000-02-30", FormFault::NoSuchDay),
    (b"1996-367", FormFault::NoSuchDay),
    (b"1995-366", FormFault::NoSuchDay),
    (b"1996-000", FormFault::NoSuchDay),
    (b"0/1/1996", FormFault::NoSuchDay),
    (b"13/1/1996", FormFault::NoSuchDay),
    (b"18/12/1996", FormFault::NoSuchDay),
    (b"FEB 30, 1996", FormFault::NoSuchDay),
    (b"31-APR-2000", FormFault::NoSuchDay),
    (b"0 JAN 2000", FormFault::NoSuchDay),
    (b"2000-06-31T10:10:60", FormFault::NoSuchDay),
    (b"0000-02-29", FormFault::OutOfRange),
    (b"0000-001", FormFault::OutOfRange),
    (b"9999-12-31", FormFault::OutOfRange),
    (b"9999-365T23:59:60", FormFault::OutOfRange),
    (b"1799-12-31T23:59:59", FormFault::OutOfRange),
    (b"2200-01-01T0:0:0.000000000001", FormFault::OutOfRange),
    (b"2200-1-2", FormFault::OutOfRange),
    (b"2199-12-31T23:59:60.5", FormFault::OutOfRange),
    (b"2201-01-01T10:10:60", FormFault::OutOfRange),
];

/// Texts of a source in TT with their first refusal.
const TT_REFUSALS: [(&[u8], FormFault); 14] = [
    (
        b"-99999999999999999999999999999999999999999999",
        FormFault::OutOfRange,
    ),
    (b"1996-12-18 UTC", FormFault::WrongSystem),
    (b"1996-12-18 ET", FormFault::WrongSystem),
    (b"JD 2451545 UTC", FormFault::WrongSystem),
    (b"1800 FEB 29", FormFault::NoSuchDay),
    (b"1799-12-31T23:59:59.999999999999", FormFault::OutOfRange),
    (b"JAN 1, 2200 00:01", FormFault::OutOfRange),
    (b"JD 2378496.499999999999", FormFault::OutOfRange),
    (b"JD 2524593.500000000001", FormFault::OutOfRange),
    (b"JD 0", FormFault::OutOfRange),
    (
        b"JD 999999999999999999999999999999999999999999 TT",
        FormFault::OutOfRange,
    ),
    (b"6311390400.000000000001", FormFault::OutOfRange),
    (b"-6311390400.000000000001", FormFault::OutOfRange),
    (
        b"99999999999999999999999999999999999999999999",
        FormFault::OutOfRange,
    ),
];

/// Calendar dates with a scale word or near an end of the range: the days past 2000-01-01 and the seconds.
const NAMED: [(&[u8], System, i32, i64); 17] = [
    (b"1996-12-18 UTC", System::Utc, -1109, 0),
    (b"1996-353 UTC", System::Utc, -1109, 0),
    (b"DEC 18, 1996 UTC", System::Utc, -1109, 0),
    (b"12/18/1996 UTC", System::Utc, -1109, 0),
    (b"DEC 18, 1996 12:28:28", System::Utc, -1109, 44_908),
    (b"1996-353T12:28:28", System::Utc, -1109, 44_908),
    (b"12/18/1996 12:28:28 UTC", System::Utc, -1109, 44_908),
    (b"1996 DEC 18 utc", System::Utc, -1109, 0),
    (b"18-DEC-1996T0:1  UTC", System::Utc, -1109, 60),
    (b"1996-12-18 TAI", System::Tai, -1109, 0),
    (b"1996-353 12:28:28 tai", System::Tai, -1109, 44_908),
    (b"1996-12-18 TT", System::Tt, -1109, 0),
    (b"1996-12-18 Tdt", System::Tt, -1109, 0),
    (b"1996-12-18 TDB", System::Tdb, -1109, 0),
    (b"1996-12-18T12:28:28\tET", System::Tdb, -1109, 44_908),
    (b"2199-12-31T23:59:60", System::Utc, 73_048, 86_400),
    (b"1799-12-31T23:59:60", System::Utc, -73_049, 86_400),
];

#[test]
fn reads_dates(rt: HostRuntime) {
    for (text, day) in DATES {
        let label = Ok(TimeText::Label(Label { day, of_day: 0 }));
        assert_eq!(rt; read_time(text, System::Utc, Form::Any), label);
        assert_eq!(rt; read_time(text, System::Tdb, Form::Calendar), label);
    }
}

#[test]
fn reads_times(rt: HostRuntime) {
    for (text, seconds, parts) in TIMES {
        let of_day = i128::from(seconds) * SECOND + i128::from(parts) * 1_000_000;
        let label = Ok(TimeText::Label(Label { day: 0, of_day }));
        assert_eq!(rt; read_time(text, System::Utc, Form::Any), label);
    }
}

#[test]
fn reads_instants(rt: HostRuntime) {
    for (text, seconds, parts) in INSTANTS {
        let instant = i128::from(seconds) * SECOND + i128::from(parts) * 1_000_000;
        let instant = Ok(TimeText::Instant(instant));
        assert_eq!(rt; read_time(text, System::Tt, Form::Any), instant);
        assert_eq!(rt;
            read_time(text, System::Utc, Form::Any),
            Err(FormFault::BadTime)
        );
    }
}

#[test]
fn refuses_forms(rt: HostRuntime) {
    for text in BAD_TIMES {
        assert_eq!(rt;
            read_time(text, System::Utc, Form::Any),
            Err(FormFault::BadTime)
        );
    }
    for text in BAD_INSTANTS {
        assert_eq!(rt;
            read_time(text, System::Tt, Form::Any),
            Err(FormFault::BadTime)
        );
    }
}

#[test]
fn refuses_in_order(rt: HostRuntime) {
    for (text, fault) in UTC_REFUSALS {
        assert_eq!(rt; read_time(text, System::Utc, Form::Any), Err(fault));
    }
    for (text, fault) in TT_REFUSALS {
        assert_eq!(rt; read_time(text, System::Tt, Form::Any), Err(fault));
    }
}

#[test]
fn refuses_by_system_and_form(rt: HostRuntime) {
    let bad_time = Err(FormFault::BadTime);
    let wrong_system = Err(FormFault::WrongSystem);
    assert_eq!(rt;
        read_time(b"1996-12-18 12:00 tt", System::Utc, Form::Calendar),
        wrong_system
    );
    assert_eq!(rt;
        read_time(b"1996-12-18 TDT", System::Tdb, Form::Any),
        wrong_system
    );
    assert_eq!(rt;
        read_time(b"JD 9999999999 TAI", System::Tdb, Form::Calendar),
        wrong_system
    );
    assert_eq!(rt; read_time(b"5", System::Tt, Form::Calendar), bad_time);
    assert_eq!(rt;
        read_time(b"1996-12-18", System::Tt, Form::Seconds),
        bad_time
    );
    assert_eq!(rt;
        read_time(b"1996-02-30 UTC", System::Tt, Form::Seconds),
        bad_time
    );
    assert_eq!(rt;
        read_time(b"JD 2451545", System::Tt, Form::Seconds),
        bad_time
    );
    assert_eq!(rt; read_time(b"5", System::Utc, Form::Seconds), bad_time);
    assert_eq!(rt;
        read_time(b"1996-12-18", System::Utc, Form::Seconds),
        bad_time
    );
    assert_eq!(rt;
        read_time(b"JD 2451545 UTC", System::Utc, Form::Calendar),
        bad_time
    );
}

#[test]
fn reads_long_lines(rt: HostRuntime) {
    let bad_time = Err(FormFault::BadTime);
    let out_of_range = Err(FormFault::OutOfRange);
    assert_eq!(rt;
        read_time(&[b'9'; 1000], System::Tt, Form::Any),
        out_of_range
    );
    assert_eq!(rt; read_time(&[b'9'; 1000], System::Utc, Form::Any), bad_time);
    assert_eq!(rt;
        read_time(&[b'0'; 1000], System::Tt, Form::Any),
        Ok(TimeText::Instant(0))
    );
    assert_eq!(rt; read_time(&[b' '; 1000], System::Tt, Form::Any), bad_time);
    assert_eq!(rt; read_time(&[b'J'; 1000], System::Tt, Form::Any), bad_time);
    assert_eq!(rt; read_time(&[255; 1000], System::Tt, Form::Any), bad_time);
}

#[test]
fn reads_scale_words(rt: HostRuntime) {
    for (text, system, day, seconds) in NAMED {
        assert!(rt; system != System::Sclk);
        let of_day = i128::from(seconds) * SECOND;
        let label = Ok(TimeText::Label(Label { day, of_day }));
        assert_eq!(rt; read_time(text, system, Form::Any), label);
        assert_eq!(rt; read_time(text, system, Form::Calendar), label);
    }
}

#[test]
fn takes_forms(rt: HostRuntime) {
    let zero = Ok(TimeText::Instant(0));
    assert_eq!(rt;
        read_time(b"JD 2451545 ET", System::Tdb, Form::Calendar),
        zero
    );
    assert_eq!(rt; read_time(b"0", System::Tai, Form::Seconds), zero);
    assert_eq!(rt; read_time(b"+0.0", System::Tai, Form::Any), zero);
}

#[test]
fn reads_second_sixty(rt: HostRuntime) {
    let mut text = *b"2000-01-01T00:00:60";
    let last = Label {
        day: 0,
        of_day: 86_400 * SECOND,
    };
    for hour in 0..24u8 {
        for minute in 0..60u8 {
            text[11] = b'0' + hour / 10;
            text[12] = b'0' + hour % 10;
            text[14] = b'0' + minute / 10;
            text[15] = b'0' + minute % 10;
            let answer = if hour == 23 && minute == 59 {
                TimeText::Label(last)
            } else {
                TimeText::NoSecond
            };
            assert_eq!(rt; read_time(&text, System::Tt, Form::Any), Ok(answer));
        }
    }
    let decimals = b"2000-01-01T10:10:60.5";
    assert_eq!(rt;
        read_time(decimals, System::Utc, Form::Any),
        Ok(TimeText::NoSecond)
    );
}
