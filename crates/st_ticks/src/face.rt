//! The face of a clock, as contracts see it.

ghost use Rattle.std.specs.Prelude.{◌≡◌, ◌≤◌, ◌<◌, ◌^◌, ◌-◌, ℕ, Result, IfOk, IsTrue, length, take};
ghost use Rattle.st_ticks.specs.Face as face;
ghost use Rattle.st_ticks.specs.Face.{IsFace, tpm};
ghost use Rattle.st_ticks.specs.Reading.{ReadsClock};
ghost use Rattle.st_ticks.specs.ReadingMachine as machine;
ghost use Rattle.st_ticks.specs.ReadingMachine.{clock_of, counted_of, ticked, is_numbered as is_number};
ghost use Rattle.st_ticks.specs.Tick as encoded;
ghost use Rattle.st_ticks.specs.Tick.{IsCanonical, spelled};
ghost use Rattle.st_ticks.specs.TickMachine as tick;
ghost use Rattle.st_ticks.specs.TickMachine.{canonical};
ghost use Rattle.st_ticks.specs.declared.fault.ClockTextFault.{ClockTextFault as TextFault};

use crate::clock_text::read_parts;
use crate::count::{are_from_offsets, are_small, count_of};
use crate::fault::{ClockTextFault, FaceFault};
use crate::field::{Field, Partition};
use crate::make::{begins_of, delimiter_of, fields_of, number, partitions_of, rest_span, total_of};
use crate::numbers::{Numbers, first_broken};
use crate::place::{begun, count_at, is_numbered, meant_place};
use crate::spelling::put_fields;
use crate::variable::{ClockFault, ClockVar, ClockWhy};
use st_decimal::{Dec, Line, OutOfMemory};
use st_text::put_padded;
use std::alloc::Global;
use std::marker::Model;

/// The greatest count of a clock string.
const MOST_COUNT: u128 = 1_000_000_000_000_000_000;

/// Room for a partition's number, a `/`, and ten fields of at most 20 digits with delimiters.
const ROOM: usize = 220;

/// The fields, the partitions and the output delimiter of a type 1 clock.
#[derive(Debug, Drop)]
pub struct Face {
    fields: Vec<Field>,
    delimiter: u8,
    partitions: Vec<Partition>,
    /// For each partition the ticks of all earlier ones.
    begins: Vec<u64>,
    /// The product of all moduli but the first.
    ticks_per_count: u64,
    /// The ticks of all partitions.
    total: u64,
}

impl Model for Face {
    ghost use Rattle.st_ticks.specs.Face.{Face as Seen};
    ghost use Rattle.st_ticks.specs.FaceSteps.{seen, IsSound};

    ghost Value = { Seen };

    ghost view = { λ f. seen f.fields.items f.delimiter f.partitions.items };

    ghost invariant = { λ f. IsSound (seen f.fields.items f.delimiter f.partitions.items) f.begins.items f.ticks_per_count f.total };
}

impl Face {
    ghost use Rattle.std.specs.Prelude.{◌⊎◌, Err};
    ghost use Rattle.st_ticks.specs.Face.{Face as Seen};
    ghost use Rattle.st_ticks.specs.declared.fault.FaceFault.{FaceFault as Fault};
    ghost use Rattle.st_ticks.specs.declared.fault.FaceFault.TheVariants.{OutOfMemory as NoMemory};
    ghost use Rattle.st_ticks.specs.NumbersMachine.{numbers_of};
    ghost use Rattle.st_rules.specs.Rules.{AreKept};
    ghost use Rattle.st_ticks.specs.Variables.{Keeps, MakesFace, first_rules};

    /// The face that the values of six variables of a clock describe: `SCLK01_N_FIELDS_n`,
    /// `SCLK01_MODULI_n`, `SCLK01_OFFSETS_n`, `SCLK01_OUTPUT_DELIM_n`, `SCLK_PARTITION_START_n` and
    /// `SCLK_PARTITION_END_n`, as NAIF's SCLK Required Reading has them.
    ///
    /// # Errors
    ///
    /// The first fault of the variables, in their order, or want of memory.
    pub fn from_parts(
        alloc: Global,
        n_fields: &[Dec],
        moduli: &[Dec],
        offsets: &[Dec],
        delim: &[Dec],
        starts: &[Dec],
        ends: &[Dec],
    ) -> Result<Face, FaceFault>
        ensures makes { MakesFace (record {
          n_fields = n_fields.now;
          moduli = moduli.now;
          offsets = offsets.now;
          delim = delim.now;
          starts = starts.now;
          ends = ends.now;
        }) result }
        // No other answer meets it, unless memory was refused.
        ensures only { (answer : Result Seen Fault) → MakesFace (record {
          n_fields = n_fields.now;
          moduli = moduli.now;
          offsets = offsets.now;
          delim = delim.now;
          starts = starts.now;
          ends = ends.now;
        }) answer → (result ≡ answer) ⊎ ((result ≡ Err NoMemory) ⊎ (answer ≡ Err NoMemory)) }
    {
        let numbers = Numbers {
            n_fields,
            moduli,
            offsets,
            delim,
            starts,
            ends,
        };
        Face::made(alloc, &numbers)
    }

    fn made(alloc: Global, numbers: &Numbers) -> Result<Face, FaceFault>
        ensures { MakesFace (numbers_of numbers.now) result }
    {
        if let Some(fault) = first_broken(numbers) {
            return Err(FaceFault::Bad(fault));
        }
        Face::make(alloc, numbers)
    }

    /// The face of numbers that keep all rules but perhaps those on the ends.
    fn make(alloc: Global, numbers: &Numbers) -> Result<Face, FaceFault>
        requires { AreKept (Keeps (numbers_of numbers.now)) first_rules }
        ensures { MakesFace (numbers_of numbers.now) result }
    {
        let fields = fields_of(alloc, numbers.moduli, numbers.offsets)?;
        let partitions = partitions_of(alloc, numbers.starts, numbers.ends)?;
        let Some(total) = total_of(&partitions) else {
            return Err(FaceFault::Bad(ClockFault {
                var: ClockVar::End,
                why: ClockWhy::Product,
            }));
        };
        let begins = begins_of(alloc, &partitions)?;
        let ticks_per_count = rest_span(&fields);
        let delimiter = delimiter_of(number(numbers.delim[0]));
        Ok(Face {
            fields,
            delimiter,
            partitions,
            begins,
            ticks_per_count,
            total,
        })
    }

    /// The ticks of all partitions.
    pub fn total(&self) -> u64
        ensures value { result ≡ face.total self.now }
        ensures face { IsFace self.now }
    {
        self.total
    }

    /// The ticks of one count of the first field: the product of all moduli but the first.
    pub fn ticks_per_count(&self) -> u64
        ensures value { result ≡ tpm self.now }
        ensures face { IsFace self.now }
    {
        self.ticks_per_count
    }

    /// The encoded tick of a clock string, as NAIF's SCLK Required Reading has it: the ticks of the
    /// partitions before the string's own, and those from that partition's start to its count.
    ///
    /// A string is a partition and a `/`, which may be left out, and one field or more, from the most
    /// significant on. Between two fields stands a run of blanks, or one of `.`, `:`, `-` and `,`. Blanks
    /// may stand around these marks and the `/`, and at both ends.
    ///
    /// # Errors
    ///
    /// The first of `ClockTextFault`'s variants whose condition holds.
    pub fn read_clock(&self, text: &[u8]) -> Result<u64, ClockTextFault>
        ensures reads { ReadsClock self.now text.now result }
        // No other answer meets it.
        ensures only { (answer : Result ℕ TextFault) → ReadsClock self.now text.now answer → result ≡ answer }
        ensures exact { result ≡ clock_of self.now text.now }
    {
        self.read(text)
    }

    fn read(&self, text: &[u8]) -> Result<u64, ClockTextFault>
        ensures value { result ≡ clock_of self.now text.now }
        ensures face { IsFace self.now }
    {
        let most = self.fields.len();
        let Some(written) = read_parts(text) else {
            return Err(ClockTextFault::Form);
        };
        let count = written.values.count;
        if count > most {
            return Err(ClockTextFault::TooManyFields);
        }
        if !is_numbered(&self.partitions, written.partition) {
            return Err(ClockTextFault::NoPartition);
        }
        self.tick_of(written.partition, &written.values.numbers[..count])
    }

    /// The tick of the values of fields.
    fn tick_of(&self, partition: Option<u64>, values: &[u64]) -> Result<u64, ClockTextFault>
        requires few { length values.now ≤ length self.now.fields }
        requires numbered { IsTrue (is_number self.now.partitions partition) }
        ensures { result ≡ counted_of self.now partition values.now }
    {
        if !are_from_offsets(&self.fields, values) {
            return Err(ClockTextFault::FieldBelowOffset);
        }
        if !are_small(values) {
            return Err(ClockTextFault::TooLarge);
        }
        let count = count_of(&self.fields, self.ticks_per_count, values);
        if count > MOST_COUNT {
            return Err(ClockTextFault::TooLarge);
        }
        self.tick_at(partition, count as u64)
    }

    /// The tick of a count.
    fn tick_at(&self, partition: Option<u64>, count: u64) -> Result<u64, ClockTextFault>
        requires numbered { IsTrue (is_number self.now.partitions partition) }
        requires small { count ≤ 10 ^ 18 }
        ensures { result ≡ ticked self.now count (machine.meant_place self.now.partitions partition count) }
    {
        match meant_place(&self.partitions, partition, count) {
            Some(place) => Ok(self.begins[place] + (count - self.partitions[place].start)),
            None => Err(ClockTextFault::NotInPartition),
        }
    }

    /// The canonical spelling of an encoded tick: the number of its partition, a `/`, and the fields of
    /// its count, each with leading zeros to the width of its greatest value.
    ///
    /// Of two partitions that share a boundary the later one is meant. The tick is at most `total()`.
    ///
    /// # Errors
    ///
    /// Only where memory is refused.
    pub fn write_clock(&self, alloc: Global, ticks: u64) -> Result<Line, OutOfMemory>
        requires { ticks ≤ face.total self.now }
        ensures canonical { IfOk result (IsCanonical self.now ticks) }
        ensures exact { IfOk result (λ line. line ≡ canonical self.now ticks) }
    {
        let place = self.place_of(ticks);
        let count = self.count_of(place, ticks);
        self.spell(alloc, place, count)
    }

    /// The place of the partition of a tick.
    fn place_of(&self, ticks: u64) -> usize
        ensures value { result ≡ tick.place_of self.now ticks }
        ensures face { IsFace self.now }
    {
        begun(&self.begins, ticks) - 1
    }

    /// The count of a tick in its partition.
    fn count_of(&self, place: usize, ticks: u64) -> u64
        requires place { place ≡ tick.place_of self.now ticks }
        requires within { ticks ≤ face.total self.now }
        ensures value { result ≡ encoded.count_at self.now place (tick.partition_of self.now ticks) ticks }
        ensures small { result ≤ 10 ^ 18 }
    {
        count_at(&self.partitions, &self.begins, place, ticks)
    }

    /// A count in a partition, spelled.
    fn spell(&self, alloc: Global, place: usize, count: u64) -> Result<Line, OutOfMemory>
        requires { count ≤ 10 ^ 18 }
        ensures { IfOk result (λ line. line ≡ spelled self.now place count) }
    {
        let mut text = Vec::with_capacity(alloc, ROOM)?;
        put_padded(&mut text, place as u128 + 1, 1)?;
        text.push(b'/')?;
        put_fields(
            &mut text,
            &self.fields,
            self.delimiter,
            self.ticks_per_count,
            count,
        )?;
        Ok(Line::from_vec(text))
    }
}
