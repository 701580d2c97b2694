//! Writing to a sink until all is taken.

ghost use Rattle.std.specs.Prelude.{◌≡◌, ◌≤◌, OnOk, OnErr, IsErrOf};
ghost use Rattle.std.specs.Io.KnownBytes.{Appends};
ghost use Rattle.st_outside.specs.Causes.{Rose};
ghost use Rattle.st_batch.specs.OutputSteps.{Delivers, IsCut, TakesPrefix};

use crate::status::{Status, stopped_by};
use st_outside::{Sink, SinkFault};

/// Writes all bytes, in as many pieces as the sink takes. After a fault a beginning of them was taken.
pub fn write_all<O: Sink>(out: &mut O, bytes: &[u8]) -> Result<(), SinkFault>
    ensures ok { OnOk result (Appends (O.bytes out.old) (O.bytes out.new) bytes.now) }
    ensures err { OnErr result (TakesPrefix (O.bytes out.old) (O.bytes out.new) bytes.now) }
    ensures later { O.faults out.old ≤ O.faults out.new }
    ensures cause { IsErrOf result SinkFault.Failed → Rose (O.faults out.old) (O.faults out.new) }
{
    let mut at = 0;
    while at < bytes.len() {
        let taken = out.write(&bytes[at..])?;
        at += taken;
    }
    Ok(())
}

/// Writes the whole output of a run and ends it so, unless the output or want of memory cuts it off.
pub fn deliver<O: Sink>(out: &mut O, output: &[u8], status: Status) -> Status
    requires { IsCut status → ⊥ }
    ensures delivers { Delivers output.now status (O.bytes out.old) (O.bytes out.new) result }
    ensures write_fault { result ≡ Status.WriteFault → Rose (O.faults out.old) (O.faults out.new) }
{
    match write_all(out, output) {
        Ok(()) => status,
        Err(fault) => stopped_by(fault),
    }
}
