//! Lists of words with their answers, written by hand from the rules. A blank stands between two
//! words, so two blanks have an empty word between them.

use crate::{FromKind, Job, ToKind, Work, put_word_fault, read_words};
use st_dates::System;
use st_forms::Form;
use std::alloc::Global;
use std::process::Abort;
use std::test::Fail;

/// The words of a row.
fn words_of(alloc: Global, row: &str) -> Result<Vec<String>, Fail> {
    let mut words = Vec::new(alloc);
    if !row.is_empty() {
        for word in row.split(' ') {
            words.push(String::from_str(alloc, word)?)?;
        }
    }
    Ok(words)
}

/// The words are refused as wanted.
fn is_refused(rt: &impl Abort, alloc: Global, row: &str, wanted: &str) -> Result<(), Fail> {
    let words = words_of(alloc, row)?;
    match read_words(alloc, words.as_slice()) {
        Ok(_) => assert!(rt; false, "{row}"),
        Err(fault) => {
            let mut text = Vec::new(alloc);
            put_word_fault(&mut text, &fault)?;
            assert_eq!(rt; text.as_slice(), wanted.as_bytes(), "{row}");
        }
    }
    Ok(())
}

#[test]
fn refuses_words_by_place(rt: HostRuntime) -> Result<(), Fail> {
    let rows = [
        ("--help", "UNKNOWN 1"),
        ("--version", "UNKNOWN 1"),
        ("-ſetup a", "UNKNOWN 1"),
        ("-trace", "UNKNOWN 1"),
        ("", "MISSING -setup"),
        ("-setup a x -from UTC", "UNKNOWN 3"),
        ("-sample 1 1 7", "UNKNOWN 4"),
        ("-batch x -batch", "UNKNOWN 2"),
        ("foo -setup", "UNKNOWN 1"),
        (
            "-setup naif.tls -from TAI -to TAI -time 5 -time 6",
            "TWICE 9",
        ),
        ("-setup a -SETUP b", "TWICE 3"),
        ("-setup a -setup", "TWICE 3"),
        ("-batch -batch foo", "TWICE 2"),
        ("-setup", "NO_VALUE 1"),
        ("-setup -from XYZ", "NO_VALUE 1"),
        ("-from -FROM UTC", "NO_VALUE 1"),
        ("-setup a -from UTC -to TAI -time", "NO_VALUE 7"),
        ("-format -batch", "NO_VALUE 1"),
        ("-sample x", "NO_VALUE 1"),
        ("-sample 1 -batch", "NO_VALUE 1"),
        ("-sc", "NO_VALUE 1"),
        ("-setup ", "BAD_VALUE 2"),
        ("-from XYZ", "BAD_VALUE 2"),
        ("-from SCET", "BAD_VALUE 2"),
        ("-from ſclk", "BAD_VALUE 2"),
        ("-batch -to ſCLK", "BAD_VALUE 3"),
        ("-totype ſcet", "BAD_VALUE 2"),
        ("-batch -fromtype UTC", "BAD_VALUE 3"),
        ("-to TICKS", "BAD_VALUE 2"),
        ("-totype SP2000", "BAD_VALUE 2"),
        ("-from XYZ -setup", "BAD_VALUE 2"),
        ("-from XYZ foo", "BAD_VALUE 2"),
        ("-from XYZ -sample 0 1", "BAD_VALUE 2"),
        ("-sample 0 y", "BAD_NUMBER 2"),
        ("-sample 1000001 1", "BAD_NUMBER 2"),
        ("-sample +1 1", "BAD_NUMBER 2"),
        ("-sample 1 x", "BAD_NUMBER 3"),
        ("-sample 1 -1", "BAD_NUMBER 3"),
        ("-sample 1 18446744073709551616", "BAD_NUMBER 3"),
        ("-sample 0 1 -from XYZ", "BAD_NUMBER 2"),
        ("-sc 82", "BAD_NUMBER 2"),
        ("-sc +82", "BAD_NUMBER 2"),
        ("-sc -", "BAD_NUMBER 2"),
        ("-sc -0", "BAD_NUMBER 2"),
        ("-sc -1000000000", "BAD_NUMBER 2"),
        ("-sc 82 -sc", "BAD_NUMBER 2"),
    ];
    for (row, wanted) in rows {
        is_refused(&rt, rt.alloc(), row, wanted)?;
    }
    Ok(())
}

#[test]
fn refuses_words_by_rule(rt: HostRuntime) -> Result<(), Fail> {
    let rows = [
        ("-batch", "MISSING -setup"),
        ("-setup a -to TAI -batch", "MISSING -from"),
        ("-setup a -batch", "MISSING -from"),
        ("-setup a -from UTC", "MISSING -to"),
        (
            "-setup a -from UTC -fromtype TICKS -to TAI",
            "MISSING -time",
        ),
        (
            "-setup a -from UTC -fromtype SECONDS -to ET -totype SCLK -batch",
            "BAD_PAIR -fromtype",
        ),
        (
            "-setup a -from SCLK -fromtype SCET -to ET -time x -batch",
            "BAD_PAIR -fromtype",
        ),
        (
            "-setup naif.tls -from UTC -to ET -totype SCLK -batch",
            "BAD_PAIR -totype",
        ),
        (
            "-setup a -from UTC -to UTC -totype SECONDS -batch -time x",
            "BAD_PAIR -totype",
        ),
        (
            "-setup a -from UTC -to TAI -sample 1 0 -batch -time x",
            "CONFLICT -time -batch",
        ),
        (
            "-setup a -from UTC -to TAI -sample 1 0 -time x",
            "CONFLICT -time -sample",
        ),
        (
            "-setup a -from UTC -to SCLK -format YYYY -sample 1 0 -time x",
            "CONFLICT -time -sample",
        ),
        (
            "-setup a -from UTC -to SCLK -format YYYY -sample 1 0 -batch",
            "CONFLICT -batch -sample",
        ),
        (
            "-setup a -from UTC -to SCLK -format YYYY -batch",
            "CONFLICT -format -to",
        ),
        (
            "-setup a -from UTC -to SCLK -format YYYY -batch -back",
            "CONFLICT -format -to",
        ),
        (
            "-setup a -from UTC -to TAI -totype SECONDS -format x -batch",
            "CONFLICT -format -totype",
        ),
        (
            "-setup a -from UTC -to TAI -format é -batch",
            "PICTURE BAD_BYTE 0",
        ),
        (
            "-setup a -from UTC -to TAI -format YYYYé -batch",
            "PICTURE BAD_BYTE 4",
        ),
        (
            "-setup a -from UTC -to TAI -format YYYY YR -batch",
            "PICTURE LEFT_OUT_MARK",
        ),
        (
            "-setup a -from UTC -to TAI -format #YYYY -batch",
            "PICTURE STRAY_HASH",
        ),
        (
            "-setup a -from UTC -to TAI -format SC.########## -batch",
            "PICTURE TOO_MANY_PLACES",
        ),
        (
            "-setup a -from UTC -to TAI -format x -batch",
            "PICTURE EMPTY",
        ),
        (
            "-setup a -from UTC -to TAI -format SP2000 YYYY -batch",
            "PICTURE MIXED_FORMS",
        ),
        (
            "-setup naif.tls -from UTC -to UTC -format JULIAND -batch",
            "PICTURE COUNT_IN_UTC",
        ),
        (
            "-setup a -from UTC -to TAI -format YYYY::UTC -batch",
            "PICTURE WRONG_SYSTEM",
        ),
        (
            "-setup a -from UTC -to TAI -format YYYY::RND -batch -back",
            "PICTURE NO_UNIT",
        ),
        (
            "-setup a -from UTC -to TAI -batch -back",
            "CONFLICT -back -from",
        ),
        (
            "-setup a -from SCLK -to TAI -format YYYY -batch -back",
            "CONFLICT -back -to",
        ),
        (
            "-setup a -from SCLK -to SCLK -batch -back",
            "CONFLICT -back -to",
        ),
        (
            "-setup mission.setup -from SCLK -to ET -format SP2000X -back -time 1/0",
            "CONFLICT -back -format",
        ),
        (
            "-setup a -from SCLK -to ET -totype SCET -back -batch",
            "CONFLICT -back -format",
        ),
    ];
    for (row, wanted) in rows {
        is_refused(&rt, rt.alloc(), row, wanted)?;
    }
    Ok(())
}

/// What a job is told by: its systems, how their times are written, and the rest.
fn told(alloc: Global, job: &Job) -> Result<String, Fail> {
    let form = match job.form {
        FromKind::Time(Form::Any) => "any",
        FromKind::Time(Form::Calendar) => "calendar",
        FromKind::Time(Form::Seconds) => "seconds",
        FromKind::Clock => "clock",
        FromKind::Ticks => "ticks",
    };
    let shape = match &job.shape {
        ToKind::Pictured(picture) if picture.seconds_alone() => "seconds",
        ToKind::Pictured(_) => "picture",
        ToKind::Clock => "clock",
        ToKind::Ticks => "ticks",
    };
    let work = match &job.work {
        Work::Time(text) => format!(in alloc; "time of {}", text.len())?,
        Work::Batch => String::from_str(alloc, "batch")?,
        Work::Sample { lines, seed } => format!(in alloc; "sample {lines} {seed}")?,
    };
    let clock = job.clock.unwrap_or(0);
    let back = if job.back { " back" } else { "" };
    let from = name(job.from);
    let to = name(job.to);
    Ok(format!(in alloc; "{from} {form} {to} {shape} {clock} {work}{back}")?)
}

fn name(system: System) -> &'static str {
    match system {
        System::Utc => "UTC",
        System::Tai => "TAI",
        System::Tt => "TT",
        System::Tdb => "ET",
        System::Sclk => "SCLK",
    }
}

#[test]
fn gives_jobs(rt: HostRuntime) -> Result<(), Fail> {
    let rows = [
        (
            "-setup a -from utc -to tai -time 2000-01-01",
            "UTC calendar TAI seconds 0 time of 10",
        ),
        (
            "-SETUP a -From Tdt -fromType seconds -TO et -toType Scet -TIME 5 6  7",
            "TT seconds ET picture 0 time of 6",
        ),
        (
            "-batch -to UTC -from TDB -setup a",
            "ET any UTC picture 0 batch",
        ),
        (
            "-setup a -from SCLK -fromtype TICKS -to SCLK -totype TICKS -sc -082 -batch",
            "SCLK ticks SCLK ticks 82 batch",
        ),
        (
            "-setup a -from SCLK -to ET -batch -back",
            "SCLK clock ET seconds 0 batch back",
        ),
        (
            "-setup a -from SCLK -to tdb -format SP2000.###::RND::TDB -batch -back",
            "SCLK clock ET seconds 0 batch back",
        ),
        (
            "-setup a -from TAI -to TAI -sample 1000000 18446744073709551615",
            "TAI any TAI seconds 0 sample 1000000 18446744073709551615",
        ),
        (
            "-setup a -from TAI -fromtype SCET -to SCLK -sample 007 00",
            "TAI calendar SCLK clock 0 sample 7 0",
        ),
        (
            "-time -5 -setup TAI -from UTC -to UTC -sc -999999999",
            "UTC calendar UTC picture 999999999 time of 2",
        ),
        (
            "-setup a -from UTC -to TAI -format YYYY MM -time $load --help",
            "UTC calendar TAI picture 0 time of 12",
        ),
        (
            "-setup a -from TAI -to ET -time 5\r",
            "TAI any ET seconds 0 time of 2",
        ),
    ];
    for (row, wanted) in rows {
        let words = words_of(rt.alloc(), row)?;
        let job = read_words(rt.alloc(), words.as_slice())?;
        assert_eq!(rt; told(rt.alloc(), &job)?.as_str(), wanted, "{row}");
    }
    Ok(())
}

#[test]
fn limits_names(rt: HostRuntime) -> Result<(), Fail> {
    for (len, good) in [(255, true), (256, false)] {
        let mut words = words_of(rt.alloc(), "-from UTC -to TAI -batch -setup")?;
        let mut name = String::new(rt.alloc());
        for _ in 0..len {
            name.push('n')?;
        }
        words.push(name)?;
        assert_eq!(rt; read_words(rt.alloc(), words.as_slice()).is_ok(), good);
    }
    Ok(())
}

#[test]
fn limits_pictures(rt: HostRuntime) -> Result<(), Fail> {
    let start = "-setup a -from UTC -to TAI -batch -format YYYY ";
    let mut row = String::from_str(rt.alloc(), start)?;
    for _ in 0..250 {
        row.push('-')?;
    }
    let words = words_of(rt.alloc(), row.as_str())?;
    let job = read_words(rt.alloc(), words.as_slice())?;
    assert_eq!(rt;
        told(rt.alloc(), &job)?.as_str(),
        "UTC calendar TAI picture 0 batch"
    );
    row.push('-')?;
    is_refused(&rt, rt.alloc(), row.as_str(), "PICTURE TOO_LONG")
}
