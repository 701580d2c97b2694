//! Small pools, as calls with answers.

use crate::{Kind, NotLoaded, Place, Pool};
use st_decimal::{Dec, KText};
use st_kernel_text::{Assignment, AssignmentList, Mode, Value, ValueList, read_kernel};
use std::alloc::Global;
use std::test::Fail;

/// The variables of a leapseconds kernel, with the last two of its pairs.
const LEAPS: &[u8] = b"KPL/LSK\n\\begindata\nDELTET/DELTA_T_A = 32.184\nDELTET/K = 1.657D-3\n\
DELTET/EB = 1.671D-2\nDELTET/M = ( 6.239996D0 1.99096871D-7 )\n\
DELTET/DELTA_AT = ( 36, @2015-JUL-1\n37, @2017-JAN-1 )\n\\begintext\n";

/// A kernel that adds one pair.
const MORE: &[u8] = b"\\begindata\nDELTET/DELTA_AT += ( 38, @2030-JAN-1 )\n";

/// One assignment of one value.
fn one(alloc: Global, name: &[u8], mode: Mode, value: Value) -> Result<AssignmentList, Fail> {
    let mut values = ValueList::new(alloc);
    values.push(value)?;
    let mut list = AssignmentList::new(alloc);
    list.push(Assignment {
        name: KText::from_slice(alloc, name)?,
        mode,
        values,
    })?;
    Ok(list)
}

fn number(digits: i128) -> Value {
    Value::Number(Dec { digits, tens: 0 })
}

fn digits_at(pool: &Pool, name: &[u8], i: usize) -> Option<i128> {
    match pool.value(name, i) {
        Some(Value::Number(number)) => Some(number.digits),
        _ => None,
    }
}

#[test]
fn keeps_kernels(rt: HostRuntime) -> Result<(), Fail> {
    let alloc = rt.alloc();
    let mut pool = Pool::new(alloc);
    assert!(rt;
        pool.load(b"a", one(alloc, b"X", Mode::Set, number(1))?)
            .is_ok()
    );
    assert!(rt;
        pool.load(b"b", one(alloc, b"X", Mode::Add, number(2))?)
            .is_ok()
    );
    assert!(rt;
        pool.load(b"a", one(alloc, b"X", Mode::Set, number(3))?)
            .is_ok()
    );
    assert_eq!(rt; pool.len(), 3);
    assert_eq!(rt; pool.count(b"X"), 1);
    assert_eq!(rt; digits_at(&pool, b"X", 0), Some(3));
    assert!(rt; pool.unload(b"a").is_ok());
    assert_eq!(rt; pool.count(b"X"), 2);
    assert_eq!(rt; digits_at(&pool, b"X", 0), Some(1));
    assert_eq!(rt; digits_at(&pool, b"X", 1), Some(2));
    assert_eq!(rt; digits_at(&pool, b"X", 2), None);
    assert!(rt; pool.unload(b"a").is_ok());
    assert_eq!(rt; pool.unload(b"a"), Err(NotLoaded));
    match pool.name_at(0) {
        Some(name) => assert_eq!(rt; name, b"b".as_slice()),
        None => assert!(rt; false),
    }
    assert!(rt; pool.name_at(1).is_none());
    pool.clear();
    assert_eq!(rt; pool.len(), 0);
    assert_eq!(rt; pool.count(b"X"), 0);
    Ok(())
}

#[test]
fn knows_kinds(rt: HostRuntime) -> Result<(), Fail> {
    let alloc = rt.alloc();
    let mut pool = Pool::new(alloc);
    let text = Value::Text(KText::from_slice(alloc, b"text")?);
    assert_eq!(rt; pool.kind(b"X"), Kind::Absent);
    assert!(rt;
        pool.load(b"a", one(alloc, b"X", Mode::Add, number(1))?)
            .is_ok()
    );
    assert!(rt; pool.load(b"a", one(alloc, b"Y", Mode::Set, text)?).is_ok());
    assert_eq!(rt; pool.kind(b"X"), Kind::Numbers);
    assert_eq!(rt; pool.kind(b"Y"), Kind::Texts);
    assert!(rt;
        pool.load(b"b", one(alloc, b"Y", Mode::Add, number(1))?)
            .is_ok()
    );
    assert_eq!(rt; pool.kind(b"Y"), Kind::Mixed);
    Ok(())
}

fn loads(pool: &mut Pool, alloc: Global, name: &[u8], text: &[u8]) -> bool {
    match read_kernel(alloc, text) {
        Ok(assignments) => pool.load(name, assignments).is_ok(),
        Err(_) => false,
    }
}

#[test]
fn keeps_places(rt: HostRuntime) -> Result<(), Fail> {
    let alloc = rt.alloc();
    let mut pool = Pool::new(alloc);
    let first = Place {
        kernel: 0,
        assignment: 4,
    };
    let second = Place {
        kernel: 1,
        assignment: 0,
    };
    let only = Place {
        kernel: 0,
        assignment: 0,
    };
    assert!(rt; pool.places(b"DELTET/DELTA_AT").is_empty());
    assert!(rt; loads(&mut pool, alloc, b"naif.tls", LEAPS));
    assert!(rt; loads(&mut pool, alloc, b"more.tls", MORE));
    assert_eq!(rt; pool.places(b"DELTET/DELTA_AT"), [first, second].as_slice());
    assert_eq!(rt; pool.count(b"DELTET/DELTA_AT"), 6);
    assert!(rt; loads(&mut pool, alloc, b"more.tls", MORE));
    assert!(rt; pool.unload(b"more.tls").is_ok());
    assert_eq!(rt; pool.places(b"DELTET/DELTA_AT"), [first, second].as_slice());
    assert!(rt; pool.unload(b"naif.tls").is_ok());
    assert_eq!(rt; pool.places(b"DELTET/DELTA_AT"), [only].as_slice());
    assert!(rt; pool.places(b"DELTET/K").is_empty());
    assert_eq!(rt; pool.kind(b"DELTET/K"), Kind::Absent);
    pool.clear();
    assert!(rt; pool.places(b"DELTET/DELTA_AT").is_empty());
    Ok(())
}
