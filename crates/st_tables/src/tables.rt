//! The tables, and what is kept of them from call to call.

ghost use Rattle.std.specs.Prelude.{◌≡◌, ◌≤◌, ⊤, Option, None, Some, List, Result, Ok, Err, IsSome, IsOk, IfErr, IfSome, OnOk, OnErr};
ghost use Rattle.std.specs.Borrow.{sem, follows_so};
ghost use mathlib.Core.Option.{none};
ghost use Rattle.st_clock.specs.Clock.{Clock as SeenClock};
ghost use Rattle.st_leaps.specs.OfTable.{pairs_of};
ghost use Rattle.st_leaps.specs.declared.pair.LeapPair.{LeapPair as Pair};
ghost use Rattle.st_scales.specs.declared.deltet.Deltet.{Deltet as Constants};
ghost use Rattle.st_rules.specs.Rules.{AreKept};
ghost use Rattle.st_tables.specs.Answers.{shown};
ghost use Rattle.st_tables.specs.Kept.{HasLeapsOf, HasConstantsOf, HasClockOf, Keep, with_leaps, with_constants, with_clock};
ghost use Rattle.st_tables.specs.Tables.{LeapsGive, ConstantsGive, ClockGives, LeapsMade, ConstantsMade, ClockMade, Agree};
ghost use Rattle.st_tables.specs.TablesMachine.{list_at, clock_numbers};
ghost use Rattle.st_tables.specs.Variables.{Keeps, leap_vars, constant_vars, clock_vars, rules_of_all};
ghost use Rattle.st_tables.specs.declared.fault.TableFault.{TableFault as Fault};

use crate::clock::{self, KeptClock};
use crate::constants::{self, KeptConstants};
use crate::fault::TableFault;
use crate::leaps::{self, KeptLeaps};
use st_clock::Clock;
use st_leaps::LeapTable;
use st_pool::Pool;
use st_scales::Deltet;
use std::alloc::Global;
use std::marker::Model;

/// The tables of the loaded kernels. Each is kept with the numbers of its variables, and made anew where the loaded kernels
/// give these variables other numbers. One clock is kept at a time.
#[derive(Debug, Drop)]
pub struct Tables {
    alloc: Global,
    leaps: Option<KeptLeaps>,
    constants: Option<KeptConstants>,
    clock: Option<KeptClock>,
}

impl Model for Tables {
    ghost use Rattle.std.specs.Prelude.{option_map};
    ghost use Rattle.st_tables.specs.Kept.{Kept};

    ghost Value = { Kept };

    ghost view = { λ t. record {
      leaps = option_map (λ k. k.0) t.leaps;
      constants = option_map (λ k. k.0) t.constants;
      clock = option_map (λ k. k.0) t.clock;
    } };
}

impl Tables {
    ghost use Rattle.st_tables.specs.contracts.tables.Tables.{the_row};

    /// Tables of which none is kept. They will take their memory from `alloc`.
    pub fn new(alloc: Global) -> Tables
        ensures { result ≡ record { leaps = None; constants = None; clock = None } }
    {
        Tables {
            alloc,
            leaps: None,
            constants: None,
            clock: None,
        }
    }

    /// The table of leap seconds, of `DELTET/DELTA_AT`.
    ///
    /// # Errors
    ///
    /// [`TableFault`]; all kept tables are then as before. Where the table of these numbers is kept, there is none, and no memory
    /// is taken.
    pub fn leaps(&mut self, pool: &Pool) -> Result<&LeapTable, TableFault>
        ensures gives { LeapsGive pool.now (shown pairs_of result) }
        // No other answer meets it.
        ensures only { (answer : Result (List Pair) Fault) → LeapsGive pool.now answer → Agree (shown pairs_of result) answer }
        ensures no_memory { HasLeapsOf pool.now self.old → IsOk result }
        ensures* kept { sem 𝓛 (follows_so the_row the_row self.entry.ghost_name none (λ _ _. ⊤)
            (λ after. Keep result self.old (with_leaps pool.now self.old) after)) }
    {
        self.keep_leaps(pool)?;
        Ok(self.kept_leaps())
    }

    /// The constants of the scales, of `DELTET/DELTA_T_A`, `DELTET/K`, `DELTET/EB` and `DELTET/M`.
    ///
    /// # Errors
    ///
    /// [`TableFault`]; all kept tables are then as before. Where the constants of these numbers are kept, there is none, and no
    /// memory is taken.
    pub fn deltet(&mut self, pool: &Pool) -> Result<&Deltet, TableFault>
        ensures gives { ConstantsGive pool.now (shown (λ c. c) result) }
        // No other answer meets it.
        ensures only { (answer : Result Constants Fault) → ConstantsGive pool.now answer → Agree (shown (λ c. c) result) answer }
        ensures no_memory { HasConstantsOf pool.now self.old → IsOk result }
        ensures* kept { sem 𝓛 (follows_so the_row the_row self.entry.ghost_name none (λ _ _. ⊤)
            (λ after. Keep result self.old (with_constants pool.now self.old) after)) }
    {
        self.keep_constants(pool)?;
        Ok(self.kept_constants())
    }

    /// The clock of the spacecraft whose id is -n, of nine variables from `SCLK_DATA_TYPE_n` to `SCLK01_COEFFICIENTS_n`. The time
    /// system may be absent, and then is 1. n lies from 1 to 999,999,999.
    ///
    /// # Errors
    ///
    /// [`TableFault`]; all kept tables are then as before. Where the clock of this id and of these numbers is kept, there is
    /// none, and no memory is taken.
    pub fn clock(&mut self, pool: &Pool, n: u32) -> Result<&Clock, TableFault>
        requires from { 1 ≤ n }
        requires to { n ≤ 999_999_999 }
        ensures gives { ClockGives n pool.now (shown (λ c. c) result) }
        // No other answer meets it.
        ensures only { (answer : Result SeenClock Fault) → ClockGives n pool.now answer → Agree (shown (λ c. c) result) answer }
        ensures no_memory { HasClockOf n pool.now self.old → IsOk result }
        ensures* kept { sem 𝓛 (follows_so the_row the_row self.entry.ghost_name none (λ _ _. ⊤)
            (λ after. Keep result self.old (with_clock n pool.now self.old) after)) }
    {
        self.keep_clock(pool, n)?;
        Ok(self.kept_clock())
    }

    fn keep_leaps(&mut self, pool: &Pool) -> Result<(), TableFault>
        ensures kinds { OnOk result (AreKept (Keeps pool.now) (rules_of_all leap_vars)) }
        ensures keep { Keep result self.old (with_leaps pool.now self.old) self.new }
        ensures fault { IfErr result (λ fault. LeapsGive pool.now (Err fault)) }
        ensures no_memory { HasLeapsOf pool.now self.old → IsOk result }
    {
        leaps::keep(self.alloc, &mut self.leaps, pool)
    }

    fn keep_constants(&mut self, pool: &Pool) -> Result<(), TableFault>
        ensures kinds { OnOk result (AreKept (Keeps pool.now) (rules_of_all constant_vars)) }
        ensures keep { Keep result self.old (with_constants pool.now self.old) self.new }
        ensures fault { IfErr result (λ fault. ConstantsGive pool.now (Err fault)) }
        ensures no_memory { HasConstantsOf pool.now self.old → IsOk result }
    {
        constants::keep(self.alloc, &mut self.constants, pool)
    }

    fn keep_clock(&mut self, pool: &Pool, n: u32) -> Result<(), TableFault>
        ensures kinds { OnOk result (AreKept (Keeps pool.now) (rules_of_all (clock_vars n))) }
        ensures keep { Keep result self.old (with_clock n pool.now self.old) self.new }
        ensures fault { IfErr result (λ fault. ClockGives n pool.now (Err fault)) }
        ensures no_memory { HasClockOf n pool.now self.old → IsOk result }
    {
        clock::keep(self.alloc, &mut self.clock, pool, n)
    }

    /// The kept table of leap seconds.
    pub(crate) fn kept_leaps(&self) -> &LeapTable
        requires { IsSome self.now.leaps }
        ensures { IfSome self.now.leaps (λ numbers. LeapsMade (list_at numbers 0) (Ok (pairs_of result.now))) }
    {
        match &self.leaps {
            Some(kept) => kept.table(),
            None => unreachable!(),
        }
    }

    /// The kept constants.
    pub(crate) fn kept_constants(&self) -> &Deltet
        requires { IsSome self.now.constants }
        ensures { IfSome self.now.constants (λ numbers.
            ConstantsMade (list_at numbers 0) (list_at numbers 1) (list_at numbers 2) (list_at numbers 3) (Ok result.now)) }
    {
        match &self.constants {
            Some(kept) => kept.table(),
            None => unreachable!(),
        }
    }

    /// The kept clock.
    pub(crate) fn kept_clock(&self) -> &Clock
        requires { IsSome self.now.clock }
        ensures { IfSome self.now.clock (λ kept. ClockMade (clock_numbers kept.1) (Ok result.now)) }
    {
        match &self.clock {
            Some(kept) => kept.table(),
            None => unreachable!(),
        }
    }
}
