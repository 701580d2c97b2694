//! A session by its own calls: its kernels, its answers, and the texts of refusals.

use st_batch::{Answer, LineFault, Session, put_refusal};
use st_decimal::Dec;
use st_kernel_text::{TextCause, Value};
use st_outside::{Files, MemFiles, SafeFiles};
use st_pool::Kind;
use st_ticks::Var;
use st_trials::{folder, million, words};
use st_words::read_words;
use std::alloc::Global;
use std::test::Fail;

/// The session of a batch from UTC to TAI with this setup file.
fn open<F: Files>(
    alloc: Global,
    setup: &str,
    kernels: &mut F,
) -> Result<Result<Session, LineFault>, Fail> {
    let shape = ["-setup", setup, "-from", "UTC", "-to", "TAI", "-batch"];
    let words = words(alloc, shape.as_slice())?;
    match read_words(alloc, words.as_slice()) {
        Ok(job) => Ok(Session::open(alloc, job, kernels)),
        Err(_) => Ok(Err(LineFault::BadCommand)),
    }
}

#[test]
fn opens_a_setup(rt: HostRuntime) -> Result<(), Fail> {
    let alloc = rt.alloc();
    let mut kernels = MemFiles::short(folder(alloc)?, Vec::new(alloc), 1);
    let Ok(session) = open(alloc, "values.ker", &mut kernels)? else {
        assert!(rt; false);
        return Ok(());
    };
    assert_eq!(rt; session.job().setup.as_slice(), b"values.ker".as_slice());
    let pool = session.pool();
    assert_eq!(rt; pool.len(), 1);
    assert_eq!(rt; pool.kind(b"X"), Kind::Texts);
    assert_eq!(rt; pool.count(b"Z"), 1);
    match pool.value(b"Z", 0) {
        Some(Value::Number(number)) => assert_eq!(rt;
            *number,
            Dec {
                digits: -883656,
                tens: 3
            }
        ),
        _ => assert!(rt; false),
    }
    Ok(())
}

#[test]
fn opens_a_setup_without_an_assignment(rt: HostRuntime) -> Result<(), Fail> {
    let alloc = rt.alloc();
    let mut kernels = MemFiles::short(folder(alloc)?, Vec::new(alloc), 1);
    for setup in ["empty.ker", "plain.ker"] {
        let Ok(session) = open(alloc, setup, &mut kernels)? else {
            assert!(rt; false);
            return Ok(());
        };
        assert_eq!(rt; session.pool().len(), 1);
        assert_eq!(rt; session.pool().kind(b"DELTET/DELTA_AT"), Kind::Absent);
    }
    Ok(())
}

#[test]
fn refuses_a_setup(rt: HostRuntime) -> Result<(), Fail> {
    let alloc = rt.alloc();
    let mut kernels = SafeFiles::new(folder(alloc)?);
    let refused = [
        ("absent", LineFault::NoFile),
        (
            "cut.ker",
            LineFault::KernelText {
                line: 2,
                cause: TextCause::Unclosed,
            },
        ),
    ];
    for (setup, wanted) in refused {
        match open(alloc, setup, &mut kernels)? {
            Ok(_) => assert!(rt; false),
            Err(fault) => assert_eq!(rt; fault, wanted),
        }
    }
    Ok(())
}

#[test]
fn answers_lines(rt: HostRuntime) -> Result<(), Fail> {
    let alloc = rt.alloc();
    let mut kernels = SafeFiles::new(folder(alloc)?);
    let Ok(mut session) = open(alloc, "naif.tls", &mut kernels)? else {
        assert!(rt; false);
        return Ok(());
    };
    let lines: [(&[u8], &[u8]); 4] = [
        (b"2017-06-01T00:00:00", b"549547237.000000"),
        (b"$load short.tls", b"loaded"),
        (b"2017-06-01T00:00:00", b"549547236.000000"),
        (b"$unload short.tls", b"unloaded"),
    ];
    for (line, wanted) in lines {
        match session.answer_line(line, &mut kernels)? {
            Answer::Text(text) => assert_eq!(rt; text.as_slice(), wanted),
            Answer::Refused(_) => assert!(rt; false),
        }
    }
    assert_eq!(rt; session.pool().len(), 1);
    match session.command_line(b"$clear", &mut kernels)? {
        Answer::Text(text) => assert_eq!(rt; text.as_slice(), b"cleared".as_slice()),
        Answer::Refused(_) => assert!(rt; false),
    }
    match session.answer_line(b"2017-06-01T00:00:00", &mut kernels)? {
        Answer::Text(_) => assert!(rt; false),
        Answer::Refused(fault) => assert_eq!(rt; fault, LineFault::NoVariable(Var::DeltaAt)),
    }
    Ok(())
}

#[test]
fn loads_a_million_values(rt: HostRuntime) -> Result<(), Fail> {
    let alloc = rt.alloc();
    let mut map = folder(alloc)?;
    map.put(b"million.ker", million(alloc)?)?;
    let mut kernels = SafeFiles::new(map);
    let Ok(mut session) = open(alloc, "naif.tls", &mut kernels)? else {
        assert!(rt; false);
        return Ok(());
    };
    match session.answer_line(b"$load million.ker", &mut kernels)? {
        Answer::Text(text) => assert_eq!(rt; text.as_slice(), b"loaded".as_slice()),
        Answer::Refused(_) => assert!(rt; false),
    }
    // Beside a million and the setup's values a second million has no room.
    match session.answer_line(b"$load million.ker", &mut kernels)? {
        Answer::Text(_) => assert!(rt; false),
        Answer::Refused(fault) => assert_eq!(rt; fault, LineFault::TooManyValues),
    }
    assert_eq!(rt; session.pool().count(b"X"), 1_000_000);
    Ok(())
}

#[test]
fn puts_refusals(rt: HostRuntime) -> Result<(), Fail> {
    let mut text = Vec::from_slice(rt.alloc(), b"refused ")?;
    let fault = LineFault::KernelText {
        line: 12,
        cause: TextCause::MixedKinds,
    };
    put_refusal(&mut text, &fault)?;
    assert_eq!(rt;
        text.as_slice(),
        b"refused KERNEL_TEXT 12 MIXED_KINDS".as_slice()
    );
    Ok(())
}
