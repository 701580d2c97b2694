//! Pools of worked kernels and the tables that they give.

ghost use Rattle.std.specs.Prelude.{IsTrue};

use crate::{Kernels, TableFault, Tables, put_name};
use st_dates::Label;
use st_kernel_text::read_kernel;
use st_leaps::LeapFault;
use st_pool::Pool;
use st_scales::{DeltetFault, DeltetVar, Scale};
use st_ticks::{ClockFault, ClockVar, ClockWhy, Var};
use std::alloc::Global;
use std::test::Fail;

const LEAPS: &[u8] = b"\\begindata\nDELTET/DELTA_AT = ( 10 @1972-JAN-1 11 @1972-JUL-1 )";

const CONSTANTS: &[u8] = b"\\begindata
DELTET/DELTA_T_A = 32.184
DELTET/K = 1.657D-3
DELTET/EB = 1.671D-2
DELTET/M = ( 6.239996 1.99096871D-7 )";

const CLOCK: &[u8] = b"\\begindata
SCLK_DATA_TYPE_82 = 1
SCLK01_N_FIELDS_82 = 2
SCLK01_MODULI_82 = ( 4294967296 256 )
SCLK01_OFFSETS_82 = ( 0 0 )
SCLK01_OUTPUT_DELIM_82 = 1
SCLK_PARTITION_START_82 = 0
SCLK_PARTITION_END_82 = 1099511627775
SCLK01_COEFFICIENTS_82 = ( 0 0 1 )";

/// A pool with these kernels, in order.
fn pool_of(alloc: Global, kernels: &[&[u8]]) -> Result<Pool, Fail> {
    let mut pool = Pool::new(alloc);
    for kernel in kernels {
        pool.load(b"kernel", read_kernel(alloc, kernel)?)?;
    }
    Ok(pool)
}

/// A variable of the clock -82.
fn clock_var(var: ClockVar) -> Var {
    Var::Clock { var, n: 82 }
}

/// TAI of noon on 2000-01-01, in whole seconds past J2000.
fn noon(tables: &mut Tables, pool: &Pool) -> Option<i128> {
    let noon = Label {
        day: 0,
        of_day: 43_200_000_000_000_000_000_000,
    };
    let leaps = tables.leaps(pool).ok()?;
    let tai = leaps.tai_of(noon).ok()?;
    Some(tai / 1_000_000_000_000_000_000)
}

#[test]
fn refuses_leaps(rt: HostRuntime) -> Result<(), Fail> {
    let rows: [(&[u8], TableFault); 4] = [
        (b"\\begindata\nX = 1", TableFault::NoVariable(Var::DeltaAt)),
        (
            b"\\begindata\nDELTET/DELTA_AT = 'ten'",
            TableFault::WrongKind(Var::DeltaAt),
        ),
        (
            b"\\begindata\nDELTET/DELTA_AT = 10\nDELTET/DELTA_AT += 'x'",
            TableFault::WrongKind(Var::DeltaAt),
        ),
        (
            b"\\begindata\nDELTET/DELTA_AT = 10",
            TableFault::Leaps(LeapFault::Odd),
        ),
    ];
    for (kernel, fault) in rows {
        let pool = pool_of(rt.alloc(), &[kernel])?;
        let mut tables = Tables::new(rt.alloc());
        assert_eq!(rt; tables.leaps(&pool).err(), Some(fault));
    }
    Ok(())
}

#[test]
fn gives_constants(rt: HostRuntime) -> Result<(), Fail> {
    let rows: [(&[u8], TableFault); 4] = [
        (b"\\begindata\nX = 1", TableFault::NoVariable(Var::DeltaTa)),
        (
            b"\\begindata\nDELTET/DELTA_T_A = 'x'",
            TableFault::WrongKind(Var::DeltaTa),
        ),
        (
            b"\\begindata\nDELTET/DELTA_T_A = 32.184\nDELTET/EB = 'x'",
            TableFault::NoVariable(Var::K),
        ),
        (
            b"\\begindata\nDELTET/DELTA_T_A = 32\nDELTET/K = 0\nDELTET/EB = 0\nDELTET/M = 1",
            TableFault::Deltet(DeltetFault::Count(DeltetVar::M)),
        ),
    ];
    for (kernel, fault) in rows {
        let pool = pool_of(rt.alloc(), &[kernel])?;
        let mut tables = Tables::new(rt.alloc());
        assert_eq!(rt; tables.deltet(&pool).err(), Some(fault));
    }
    let pool = pool_of(rt.alloc(), &[CONSTANTS])?;
    let mut tables = Tables::new(rt.alloc());
    let k = tables.deltet(&pool).map(|constants| constants.k());
    assert_eq!(rt; k, Ok(1_657_000_000_000_000));
    Ok(())
}

#[test]
fn gives_a_clock(rt: HostRuntime) -> Result<(), Fail> {
    let rows: [(&[u8], TableFault); 5] = [
        (
            b"\\begindata\nSCLK01_TIME_SYSTEM_82 = 'x'",
            TableFault::WrongKind(clock_var(ClockVar::TimeSystem)),
        ),
        (
            b"\\begindata\nSCLK01_MODULI_82 = 'x'\nSCLK01_COEFFICIENTS_82 = 'x'",
            TableFault::WrongKind(clock_var(ClockVar::Moduli)),
        ),
        (
            b"\\begindata\nSCLK_DATA_TYPE_82 = 2\nSCLK01_N_FIELDS_82 = 0",
            TableFault::Clock(ClockFault {
                var: ClockVar::DataType,
                why: ClockWhy::Range,
            }),
        ),
        (
            b"\\begindata\nSCLK01_TIME_SYSTEM_82 = 3\nSCLK01_N_FIELDS_82 = 0",
            TableFault::Clock(ClockFault {
                var: ClockVar::TimeSystem,
                why: ClockWhy::Range,
            }),
        ),
        (
            b"\\begindata\nSCLK01_OFFSETS_82 = 0\nSCLK01_COEFFICIENTS_82 = 0",
            TableFault::Clock(ClockFault {
                var: ClockVar::Offsets,
                why: ClockWhy::Count,
            }),
        ),
    ];
    for (kernel, fault) in rows {
        let pool = pool_of(rt.alloc(), &[CLOCK, kernel])?;
        let mut tables = Tables::new(rt.alloc());
        assert_eq!(rt; tables.clock(&pool, 82).err(), Some(fault));
    }
    let pool = pool_of(rt.alloc(), &[CLOCK])?;
    let mut tables = Tables::new(rt.alloc());
    let scale = tables.clock(&pool, 82).map(|clock| clock.scale());
    assert_eq!(rt; scale, Ok(Scale::Tdb));
    let other = TableFault::NoVariable(Var::Clock {
        var: ClockVar::DataType,
        n: 83,
    });
    assert_eq!(rt; tables.clock(&pool, 83).err(), Some(other));
    Ok(())
}

#[test]
fn follows_loads_and_unloads(rt: HostRuntime) -> Result<(), Fail> {
    let alloc = rt.alloc();
    let mut tables = Tables::new(alloc);
    let mut pool = pool_of(alloc, &[LEAPS])?;
    assert_eq!(rt; noon(&mut tables, &pool), Some(11));
    let wrong = read_kernel(alloc, b"\\begindata\nDELTET/DELTA_AT = 'ten'")?;
    pool.load(b"wrong.ker", wrong)?;
    let refused = tables.leaps(&pool).err();
    assert_eq!(rt; refused, Some(TableFault::WrongKind(Var::DeltaAt)));
    pool.unload(b"wrong.ker")?;
    assert_eq!(rt; noon(&mut tables, &pool), Some(11));
    let more = read_kernel(alloc, b"\\begindata\nDELTET/DELTA_AT += ( 12 @1973-JAN-1 )")?;
    pool.load(b"more.tls", more)?;
    assert_eq!(rt; noon(&mut tables, &pool), Some(12));
    pool.unload(b"more.tls")?;
    assert_eq!(rt; noon(&mut tables, &pool), Some(11));
    Ok(())
}

#[test]
fn finds_tables(rt: HostRuntime) -> Result<(), Fail> {
    let alloc = rt.alloc();
    let mut kernels = Kernels::new(alloc);
    assert!(rt; kernels.find_deltet().is_err());
    kernels.load(b"constants.tpc", read_kernel(alloc, CONSTANTS)?)?;
    assert!(rt; kernels.find_deltet().is_ok());
    kernels.clear();
    assert!(rt; kernels.find_deltet().is_err());
    Ok(())
}

/// Whether a second call over the same pool answers a table, where the first one does.
fn twice(tables: &mut Tables, pool: &Pool) -> bool
    ensures { IsTrue result }
{
    if tables.leaps(pool).is_err() {
        return true;
    }
    tables.leaps(pool).is_ok()
}

#[test]
fn names_variables(rt: HostRuntime) -> Result<(), Fail> {
    let mut out = Vec::new(rt.alloc());
    put_name(&mut out, Var::DeltaAt)?;
    out.push(b' ')?;
    put_name(&mut out, clock_var(ClockVar::Moduli))?;
    assert_eq!(rt;
        out.as_slice(),
        b"DELTET/DELTA_AT SCLK01_MODULI_82".as_slice()
    );
    let pool = pool_of(rt.alloc(), &[LEAPS])?;
    assert!(rt; twice(&mut Tables::new(rt.alloc()), &pool));
    Ok(())
}
