//! The files and the clock that a setup names.

ghost use Rattle.std.specs.Prelude.{◌≡◌, ◌≢◌, ◌++◌, ◌∷◌, [], ℕ, List, Result, Ok, Err, IfOk, IfErr, OnOk, IfSome, Some, codes};
ghost use Rattle.st_decimal.specs.Scaling.{IsWhole};
ghost use Rattle.st_pool.specs.Variable.{loaded_values, loaded_kind};
ghost use Rattle.st_pool.specs.declared.kind.Kind.TheVariants.{Numbers};
ghost use Rattle.st_words.specs.Setup.{SetupClock, SetupFiles, IsClockOf, IsId, texts_in, is_of_texts, id_name};
ghost use Rattle.st_words.specs.declared.fault.IdFault.{IdFault as TheIdFault};
ghost use Rattle.st_words.specs.declared.fault.SetupFault.{SetupFault as TheSetupFault};
ghost use Rattle.st_words.specs.declared.fault.SetupFault.TheVariants as faults;

use crate::fault::{IdFault, SetupFault};
use st_decimal::{Dec, KText, NameList, OutOfMemory};
use st_kernel_text::Value;
use st_pool::{Kind, Pool};
use st_ticks::Var;
use std::alloc::Global;

/// The variable that names the leapseconds kernels.
const LEAPSECONDS_FILE: &[u8] = b"LEAPSECONDS_FILE";

/// The variable that names the clock kernels.
const SCLK_FILE: &[u8] = b"SCLK_FILE";

/// The variable that names the clock.
const SPACECRAFT_ID: &[u8] = b"SPACECRAFT_ID";

/// The greatest magnitude of a clock's id.
const MOST_ID: i64 = 999_999_999;

/// The files that the loaded setup names, in the order in which they are loaded: all values of
/// `LEAPSECONDS_FILE` and then those of `SCLK_FILE`, which both may be absent.
///
/// Source: the CHRONOS User's Guide, on the setup file.
///
/// # Errors
///
/// [`SetupFault`]: the first of the two that has a value that is no text; or want of memory.
pub fn setup_files(alloc: Global, pool: &Pool) -> Result<NameList, SetupFault>
    ensures ok { IfOk result (λ names. SetupFiles pool.now (Ok names)) }
    ensures err { IfErr result (λ fault. fault ≢ faults.OutOfMemory → SetupFiles pool.now (Err fault)) }
    ensures only { (answer : Result (List (List ℕ)) TheSetupFault) → SetupFiles pool.now answer
        → result ≢ Err faults.OutOfMemory → result ≡ answer }
{
    named_files(alloc, pool)
}

/// The files that the loaded setup names.
fn named_files(alloc: Global, pool: &Pool) -> Result<NameList, SetupFault>
    ensures ok { IfOk result (λ names. SetupFiles pool.now (Ok names)) }
    ensures err { IfErr result (λ fault. fault ≢ faults.OutOfMemory → SetupFiles pool.now (Err fault)) }
{
    if !are_texts(pool.kind(LEAPSECONDS_FILE)) {
        return Err(SetupFault::WrongKind(Var::LeapsecondsFile));
    }
    if !are_texts(pool.kind(SCLK_FILE)) {
        return Err(SetupFault::WrongKind(Var::SclkFile));
    }
    let mut names = NameList::new(alloc);
    add_texts(alloc, &mut names, pool, LEAPSECONDS_FILE)?;
    add_texts(alloc, &mut names, pool, SCLK_FILE)?;
    Ok(names)
}

/// Whether a variable of this kind has no value that is no text.
fn are_texts(kind: Kind) -> bool
    ensures { result ≡ is_of_texts kind }
{
    match kind {
        Kind::Absent | Kind::Texts => true,
        Kind::Numbers | Kind::Mixed => false,
    }
}

/// Appends the texts among the values of the variable of this name.
fn add_texts(
    alloc: Global,
    names: &mut NameList,
    pool: &Pool,
    name: &[u8],
) -> Result<(), OutOfMemory>
    ensures { OnOk result (names.new ≡ names.old ++ texts_in (loaded_values name.now pool.now)) }
{
    for value in pool.values(name) {
        add_text(alloc, names, value)?;
    }
    Ok(())
}

/// Appends a value, where it is a text.
fn add_text(alloc: Global, names: &mut NameList, value: &Value) -> Result<(), OutOfMemory>
    ensures { OnOk result (names.new ≡ names.old ++ texts_in (value.now ∷ [])) }
{
    if let Value::Text(text) = value {
        names.push(KText::from_slice(alloc, text.as_slice())?)?;
    }
    Ok(())
}

/// The magnitude of the clock's id that the loaded setup names by `SPACECRAFT_ID`, from 1 to
/// 999,999,999.
///
/// Source: the CHRONOS User's Guide, on the setup file.
///
/// # Errors
///
/// [`IdFault`]: the first of its variants that holds.
pub fn setup_clock(pool: &Pool) -> Result<u32, IdFault>
    ensures gives { SetupClock pool.now result }
    ensures only { (answer : Result ℕ TheIdFault) → SetupClock pool.now answer → result ≡ answer }
{
    named_clock(pool)
}

/// The magnitude of the clock's id.
fn named_clock(pool: &Pool) -> Result<u32, IdFault>
    ensures gives { SetupClock pool.now result }
    ensures finds { (n : ℕ) → loaded_kind id_name pool.now ≡ Numbers → IsClockOf (loaded_values id_name pool.now) n → result ≡ Ok n }
{
    match pool.kind(SPACECRAFT_ID) {
        Kind::Absent => Err(IdFault::Missing),
        Kind::Texts | Kind::Mixed => Err(IdFault::WrongKind),
        Kind::Numbers => match only_clock(pool) {
            Some(n) => Ok(n),
            None => Err(IdFault::BadId),
        },
    }
}

/// The magnitude of an id that is the only value of `SPACECRAFT_ID`.
fn only_clock(pool: &Pool) -> Option<u32>
    ensures some { IfSome result (IsClockOf (loaded_values id_name pool.now)) }
    ensures only { (n : ℕ) → IsClockOf (loaded_values id_name pool.now) n → result ≡ Some n }
{
    if pool.count(SPACECRAFT_ID) != 1 {
        return None;
    }
    match pool.value(SPACECRAFT_ID, 0) {
        Some(Value::Number(number)) => clock_of(*number),
        _ => None,
    }
}

/// The magnitude of an id.
fn clock_of(number: Dec) -> Option<u32>
    ensures some { IfSome result (IsId number) }
    ensures only { (n : ℕ) → IsId number n → result ≡ Some n }
{
    let id = number.whole()?;
    if -MOST_ID <= id && id < 0 {
        Some(id.unsigned_abs() as u32)
    } else {
        None
    }
}

#[cfg(test)]
mod tests {
    use super::*;
    use st_kernel_text::read_kernel;
    use std::test::Fail;

    /// A pool with a setup file of these lines.
    fn pool_of(alloc: Global, lines: &str) -> Result<Pool, Fail> {
        let text = format!(in alloc; "\\begindata\n{lines}\n")?;
        let mut pool = Pool::new(alloc);
        pool.load(b"setup", read_kernel(alloc, text.as_bytes())?)?;
        Ok(pool)
    }

    #[test]
    fn names_files(rt: HostRuntime) -> Result<(), Fail> {
        let alloc = rt.alloc();
        let both = pool_of(
            alloc,
            "SCLK_FILE = 'c'\nLEAPSECONDS_FILE = ( 'a' 'b' )\nSPACECRAFT_ID = -82",
        )?;
        let names = setup_files(alloc, &both)?;
        assert_eq!(rt; names.len(), 3);
        assert_eq!(rt;
            names.get(0).map(|name| name.as_slice()),
            Some(b"a".as_slice())
        );
        assert_eq!(rt;
            names.get(2).map(|name| name.as_slice()),
            Some(b"c".as_slice())
        );
        assert!(rt; setup_files(alloc, &Pool::new(alloc))?.is_empty());
        let wrong = pool_of(alloc, "LEAPSECONDS_FILE = 1\nSCLK_FILE = 2")?;
        assert!(rt;
            matches!(
                &setup_files(alloc, &wrong),
                Err(SetupFault::WrongKind(Var::LeapsecondsFile))
            )
        );
        let wrong = pool_of(alloc, "LEAPSECONDS_FILE = 'a'\nSCLK_FILE = 2")?;
        assert!(rt;
            matches!(
                &setup_files(alloc, &wrong),
                Err(SetupFault::WrongKind(Var::SclkFile))
            )
        );
        Ok(())
    }

    #[test]
    fn names_clock(rt: HostRuntime) -> Result<(), Fail> {
        let rows = [
            ("SPACECRAFT_ID = -82", Ok(82)),
            ("SPACECRAFT_ID = -999999999", Ok(999_999_999)),
            ("SPACECRAFT_ID = -0.82D2", Ok(82)),
            ("SPACECRAFT = -82", Err(IdFault::Missing)),
            ("SPACECRAFT_ID = '-82'", Err(IdFault::WrongKind)),
            ("SPACECRAFT_ID = 0", Err(IdFault::BadId)),
            ("SPACECRAFT_ID = 82", Err(IdFault::BadId)),
            ("SPACECRAFT_ID = -1000000000", Err(IdFault::BadId)),
            ("SPACECRAFT_ID = -82.5", Err(IdFault::BadId)),
            ("SPACECRAFT_ID = ( -82 -82 )", Err(IdFault::BadId)),
        ];
        for (line, wanted) in rows {
            assert_eq!(rt; setup_clock(&pool_of(rt.alloc(), line)?), wanted, "{line}");
        }
        Ok(())
    }
}
