//! The loaded kernels with the tables that they gave.

ghost use Rattle.std.specs.Prelude.{◌≡◌, ◌≤◌, ◌<◌, ◌+◌, ◌↔◌, [], ◌∷◌, ◌++◌, true, false, length, Ok, Err, IfSome, IsSome, OnOk, OnErr, IsOk, IsErr};
ghost use Rattle.st_leaps.specs.OfTable.{pairs_of};
ghost use Rattle.st_pool.specs.Limits.{most_kernels, most_values};
ghost use Rattle.st_pool.specs.Loaded.{is_loaded, loaded_count, value_count, without_last};
ghost use Rattle.st_pool.specs.declared.fault.LoadFault.TheVariants.{TooManyKernels, TooManyValues};
ghost use Rattle.st_tables.specs.Kept.{HasLeapsOf, HasConstantsOf, HasClockOf};
ghost use Rattle.st_tables.specs.Kernels.{Find, FindsLeaps, FindsConstants, FindsClock, found_none, found_leaps, found_constants, found_clock, lasting as lasting_fault, refused_leaps, refused_constants, refused_clock};
ghost use Rattle.st_tables.specs.declared.fault.TableFault.{TableFault as TheFault};
ghost use Rattle.st_tables.specs.Tables.{LeapsGive, ConstantsGive, ClockGives};

use crate::fault::TableFault;
use crate::tables::Tables;
use st_clock::Clock;
use st_kernel_text::AssignmentList;
use st_leaps::LeapTable;
use st_pool::{LoadFault, NotLoaded, Pool};
use st_scales::Deltet;
use std::alloc::Global;
use std::marker::Model;

/// The loaded kernels with the tables that they gave or refused. A table that was found stays found until a kernel is
/// loaded or unloaded, a clock also until another one is found: finding it again compares nothing. After that a kept
/// table is compared with the loaded kernels once. A refusal stays for as long, that of a clock also until another one
/// is refused, and is answered again without a look at the loaded kernels.
#[derive(Debug, Drop)]
pub struct Kernels {
    pool: Pool,
    tables: Tables,
    found: Found,
    refused: Refused,
}

/// Which kept tables are those of the loaded kernels.
#[derive(Clone, Copy, Debug)]
struct Found {
    leaps: bool,
    constants: bool,
    /// The id of the kept clock, without its sign, where it is that of the loaded kernels.
    clock: Option<u32>,
}

impl Found {
    ghost use Rattle.std.specs.Prelude.{None, Some, IsTrue};

    /// No kept table is known to be that of the loaded kernels.
    fn none() -> Found
        ensures { result ≡ record { leaps = false; constants = false; clock = None } }
    {
        Found {
            leaps: false,
            constants: false,
            clock: None,
        }
    }

    /// Whether the kept clock is known to be that of the id -n by the loaded kernels.
    fn has_clock(&self, n: u32) -> bool
        ensures { IsTrue result ↔ (self.now.clock ≡ Some n) }
    {
        self.clock == Some(n)
    }
}

/// Why the loaded kernels refuse tables, as far as that is known.
#[derive(Clone, Copy, Debug)]
struct Refused {
    leaps: Option<TableFault>,
    constants: Option<TableFault>,
    /// The id of a refused clock, without its sign, and why it is refused.
    clock: Option<(u32, TableFault)>,
}

impl Refused {
    ghost use Rattle.std.specs.Prelude.{None, Some};

    /// No refusal is known.
    fn none() -> Refused
        ensures { result ≡ record { leaps = None; constants = None; clock = None } }
    {
        Refused {
            leaps: None,
            constants: None,
            clock: None,
        }
    }

    /// Why the clock of the id -n is refused, where that is known.
    fn of_clock(&self, n: u32) -> Option<TableFault>
        ensures some { IfSome result (λ fault. self.now.clock ≡ Some (n, fault)) }
        ensures none { (fault : TheFault) → self.now.clock ≡ Some (n, fault) → result ≡ Some fault }
    {
        match self.clock {
            Some((refused, fault)) if refused == n => Some(fault),
            _ => None,
        }
    }
}

/// The refusal that is kept after a fault in place of the one before. Want of memory is never kept.
fn lasting(fault: TableFault, before: Option<TableFault>) -> Option<TableFault>
    ensures { result ≡ lasting_fault fault fault before }
{
    match fault {
        TableFault::OutOfMemory => before,
        _ => Some(fault),
    }
}

/// The same for the clock of the id -n.
fn lasting_clock(
    n: u32,
    fault: TableFault,
    before: Option<(u32, TableFault)>,
) -> Option<(u32, TableFault)>
    ensures { result ≡ lasting_fault fault (n, fault) before }
{
    match fault {
        TableFault::OutOfMemory => before,
        _ => Some((n, fault)),
    }
}

impl Model for Kernels {
    ghost use Rattle.st_tables.specs.Kernels.{Kernels as SeenKernels, AreKnown};
    ghost use Rattle.st_tables.specs.KernelsSteps.{seen};

    ghost Value = { SeenKernels };

    ghost view = { λ k. seen k.pool k.tables k.found k.refused };

    ghost invariant = { λ k. AreKnown (seen k.pool k.tables k.found k.refused) };
}

impl Kernels {
    ghost use Rattle.std.specs.Prelude.{None};

    /// No kernel is loaded. The kernels and their tables will take their memory from `alloc`.
    pub fn new(alloc: Global) -> Kernels
        ensures { result ≡ found_none [] (record { leaps = None; constants = None; clock = None }) }
    {
        Kernels {
            pool: Pool::new(alloc),
            tables: Tables::new(alloc),
            found: Found::none(),
            refused: Refused::none(),
        }
    }

    /// The loaded kernels.
    pub fn pool(&self) -> &Pool
        ensures { result.now ≡ self.now.loaded }
    {
        &self.pool
    }

    /// Loads a kernel after all others, also where one of its name is loaded already. Nothing is then found or refused.
    ///
    /// # Errors
    ///
    /// [`LoadFault`]; all is then as before, and the assignments are dropped.
    pub fn load(&mut self, name: &[u8], assignments: AssignmentList) -> Result<(), LoadFault>
        ensures loaded { OnOk result
            (self.new ≡ found_none (self.old.loaded ++ record { name = name.now; assignments = assignments } ∷ []) self.old.kept) }
        ensures refused { OnErr result (self.new ≡ self.old) }
        ensures too_many_kernels { result ≡ Err TooManyKernels ↔ most_kernels ≤ length self.old.loaded }
        ensures too_many_values { result ≡ Err TooManyValues
            ↔ ((length self.old.loaded < most_kernels)
            × (most_values < loaded_count self.old.loaded + value_count assignments)) }
    {
        self.pool.load(name, assignments)?;
        self.found = Found::none();
        self.refused = Refused::none();
        Ok(())
    }

    /// Unloads the last loaded kernel of the name. Nothing is then found or refused.
    ///
    /// # Errors
    ///
    /// [`NotLoaded`] where no kernel of the name is loaded; all is then as before.
    pub fn unload(&mut self, name: &[u8]) -> Result<(), NotLoaded>
        ensures unloaded { OnOk result (self.new ≡ found_none (without_last name.now self.old.loaded) self.old.kept) }
        ensures refused { OnErr result (self.new ≡ self.old) }
        ensures not_loaded { IsErr result ↔ (is_loaded name.now self.old.loaded ≡ false) }
    {
        self.pool.unload(name)?;
        self.found = Found::none();
        self.refused = Refused::none();
        Ok(())
    }

    /// Unloads all kernels. Nothing is then found or refused.
    pub fn clear(&mut self)
        ensures { self.new ≡ found_none [] self.old.kept }
    {
        self.pool.clear();
        self.found = Found::none();
        self.refused = Refused::none();
    }

    /// Finds the table of leap seconds that the loaded kernels give.
    ///
    /// # Errors
    ///
    /// [`TableFault`], as of [`Tables::leaps`], which is kept unless it is want of memory; all else is then as before.
    pub fn find_leaps(&mut self) -> Result<(), TableFault>
        ensures gives { FindsLeaps self.old.loaded result }
        ensures found { Find result (refused_leaps self.old) (found_leaps self.old) self.new }
        ensures refused { IfSome self.old.refused.leaps (λ fault. result ≡ Err fault) }
        ensures no_memory { HasLeapsOf self.old.loaded self.old.kept → IsOk result }
    {
        if let Some(fault) = self.refused.leaps {
            return Err(fault);
        }
        if self.found.leaps {
            return Ok(());
        }
        match self.tables.leaps(&self.pool) {
            Ok(_) => {
                self.found.leaps = true;
                Ok(())
            }
            Err(fault) => {
                self.refused.leaps = lasting(fault, self.refused.leaps);
                Err(fault)
            }
        }
    }

    /// Finds the constants of the scales that the loaded kernels give.
    ///
    /// # Errors
    ///
    /// [`TableFault`], as of [`Tables::deltet`], which is kept unless it is want of memory; all else is then as before.
    pub fn find_deltet(&mut self) -> Result<(), TableFault>
        ensures gives { FindsConstants self.old.loaded result }
        ensures found { Find result (refused_constants self.old) (found_constants self.old) self.new }
        ensures refused { IfSome self.old.refused.constants (λ fault. result ≡ Err fault) }
        ensures no_memory { HasConstantsOf self.old.loaded self.old.kept → IsOk result }
    {
        if let Some(fault) = self.refused.constants {
            return Err(fault);
        }
        if self.found.constants {
            return Ok(());
        }
        match self.tables.deltet(&self.pool) {
            Ok(_) => {
                self.found.constants = true;
                Ok(())
            }
            Err(fault) => {
                self.refused.constants = lasting(fault, self.refused.constants);
                Err(fault)
            }
        }
    }

    /// Finds the clock of the spacecraft whose id is -n that the loaded kernels give. n lies from 1 to 999,999,999.
    ///
    /// # Errors
    ///
    /// [`TableFault`], as of [`Tables::clock`], which is kept unless it is want of memory; all else is then as before.
    pub fn find_clock(&mut self, n: u32) -> Result<(), TableFault>
        requires from { 1 ≤ n }
        requires to { n ≤ 999_999_999 }
        ensures gives { FindsClock n self.old.loaded result }
        ensures found { Find result (refused_clock n self.old) (found_clock n self.old) self.new }
        ensures refused { IfSome self.old.refused.clock (λ kept. kept.0 ≡ n → result ≡ Err kept.1) }
        ensures no_memory { HasClockOf n self.old.loaded self.old.kept → IsOk result }
    {
        if let Some(fault) = self.refused.of_clock(n) {
            return Err(fault);
        }
        if self.found.has_clock(n) {
            return Ok(());
        }
        match self.tables.clock(&self.pool, n) {
            Ok(_) => {
                self.found.clock = Some(n);
                Ok(())
            }
            Err(fault) => {
                self.refused.clock = lasting_clock(n, fault, self.refused.clock);
                Err(fault)
            }
        }
    }

    /// The table of leap seconds, which is found.
    pub fn leaps(&self) -> &LeapTable
        requires { self.now.leaps ≡ true }
        ensures { LeapsGive self.now.loaded (Ok (pairs_of result.now)) }
    {
        self.tables.kept_leaps()
    }

    /// The constants of the scales, which are found.
    pub fn deltet(&self) -> &Deltet
        requires { self.now.constants ≡ true }
        ensures { ConstantsGive self.now.loaded (Ok result.now) }
    {
        self.tables.kept_constants()
    }

    /// The clock, which is found.
    pub fn clock(&self) -> &Clock
        requires { IsSome self.now.clock }
        ensures { IfSome self.now.clock (λ n. ClockGives n self.now.loaded (Ok result.now)) }
    {
        self.tables.kept_clock()
    }
}
