//! Rows that were computed outside, with Python's integers and `datetime`.

use crate::{MOST_LINES, Summary, label_line, next, put_summary, seconds_line, tick_line, tick_of};
use std::test::Fail;

#[test]
fn makes_lines(rt: HostRuntime) -> Result<(), Fail> {
    let rows = [
        ("1471672182.513", "2046-08-20T17:49:42.513", "182"),
        ("249632843.861", "2007-11-29T18:27:23.861", "432"),
        ("1736581863.753", "2055-01-11T19:51:03.753", "461"),
        ("1638832114.585", "2051-12-07T11:08:34.585", "562"),
        ("1422763554.465", "2045-01-31T16:05:54.465", "259"),
    ];
    let mut x = 0;
    for (seconds, label, tick) in rows {
        x = next(x);
        assert_eq!(rt; seconds_line(rt.alloc(), x)?.as_slice(), seconds.as_bytes());
        assert_eq!(rt; label_line(rt.alloc(), x)?.as_slice(), label.as_bytes());
        let line = tick_line(rt.alloc(), tick_of(x, 1_000))?;
        assert_eq!(rt; line.as_slice(), tick.as_bytes());
    }
    let last = label_line(rt.alloc(), u64::MAX)?;
    assert_eq!(rt; last.as_slice(), b"2068-01-19T15:14:07.935".as_slice());
    Ok(())
}

#[test]
fn sums_answers_up(rt: HostRuntime) -> Result<(), Fail> {
    let mut summary = Summary::new();
    let mut out = Vec::new(rt.alloc());
    assert!(rt; summary.lines() < MOST_LINES);
    summary.add_text(b"1471672214.697000");
    put_summary(&mut out, &summary)?;
    out.push(b'\n')?;
    assert!(rt; summary.lines() < MOST_LINES);
    summary.add_refusal(b"refused OUT_OF_RANGE");
    put_summary(&mut out, &summary)?;
    let wanted = b"sample 1 texts 1 refused 0 sum 871\nsample 2 texts 1 refused 1 sum 2605";
    assert_eq!(rt; out.as_slice(), wanted.as_slice());
    assert_eq!(rt; summary.refused(), 1);
    Ok(())
}
