//! Loading a file by its name.

ghost use Rattle.std.specs.Prelude.{◌≡◌, ◌≢◌, [], true, false, Ok, Err, IfOk, IfErr, OnOk, OnErr};
ghost use Rattle.st_outside.specs.Causes.{AreLater};
ghost use Rattle.st_outside.specs.States.{KeepsFiles};
ghost use Rattle.st_kernel_text.specs.Reader.{Fed};
ghost use Rattle.st_batch.specs.Causes.{IsCaused};
ghost use Rattle.st_batch.specs.Load.{LoadGives};
ghost use Rattle.st_refusals.specs.Faults.{line_fault};
ghost use Rattle.st_batch.specs.LoadSteps.{FedRest, FileReads, RestReads, RestRefuses, Stops};
ghost use Rattle.st_batch.specs.Setting.{Loaded};

use st_kernel_text::{AssignmentList, KernelReader};
use st_outside::{Files, OpenFault};
use st_refusals::KernelFault;
use st_tables::Kernels;
use std::alloc::Global;

/// The most bytes that a file may have.
pub const MAX_FILE: usize = 16_777_216;

/// How many bytes of a file are read at a time.
const PIECE: usize = 4096;

/// Loads the file of this name after all loaded kernels. No file is open afterwards.
///
/// # Errors
///
/// Why it isn't loaded; all kernels are then as before.
pub fn load_file<F: Files>(
    alloc: Global,
    kernels: &mut Kernels,
    name: &[u8],
    files: &mut F,
) -> Result<(), KernelFault>
    ensures ok { OnOk result (LoadGives (F.state files.old).map kernels.old.loaded name.now (Ok kernels.new.loaded)) }
    ensures err { IfErr result (λ fault. fault ≢ KernelFault.OutOfMemory → LoadGives (F.state files.old).map kernels.old.loaded name.now (Err fault)) }
    ensures refused { OnErr result (kernels.new ≡ kernels.old) }
    ensures cause { IfErr result (λ fault. IsCaused (line_fault fault) (F.state files.old).counts (F.state files.new).counts) }
    ensures clean { OnOk result ((F.state files.new).counts.faults ≡ (F.state files.old).counts.faults) }
    ensures closed { (F.state files.new).opened ≡ false }
    ensures files { KeepsFiles (F.state files.old) (F.state files.new) }
{
    let assignments = read_file(alloc, name, files)?;
    kernels.load(name, assignments)?;
    Ok(())
}

/// The assignments of the file of this name, which has at most `MAX_FILE` bytes. No file is open afterwards.
fn read_file<F: Files>(
    alloc: Global,
    name: &[u8],
    files: &mut F,
) -> Result<AssignmentList, KernelFault>
    ensures ok { IfOk result (λ list. FileReads (F.state files.old).map name.now (Ok list)) }
    ensures err { IfErr result (λ fault. fault ≢ KernelFault.OutOfMemory
        → (loaded : Loaded) → LoadGives (F.state files.old).map loaded name.now (Err fault)) }
    ensures cause { IfErr result (λ fault. IsCaused (line_fault fault) (F.state files.old).counts (F.state files.new).counts) }
    ensures clean { OnOk result ((F.state files.new).counts.faults ≡ (F.state files.old).counts.faults) }
    ensures closed { (F.state files.new).opened ≡ false }
    ensures files { KeepsFiles (F.state files.old) (F.state files.new) }
{
    if let Err(fault) = files.open(name) {
        return Err(match fault {
            OpenFault::Missing => KernelFault::NoFile,
            OpenFault::Failed => KernelFault::FileFault,
            OpenFault::OutOfMemory => KernelFault::OutOfMemory,
        });
    }
    let assignments = read_open(alloc, files);
    files.close();
    assignments
}

/// The assignments of the rest of the open file, which has at most `MAX_FILE` bytes.
fn read_open<F: Files>(alloc: Global, files: &mut F) -> Result<AssignmentList, KernelFault>
    requires { (F.state files.old).opened ≡ true }
    ensures ok { IfOk result (λ list. RestReads (F.state files.old).left (Ok list)) }
    ensures err { IfErr result (RestRefuses (F.state files.old).left) }
    ensures cause { IfErr result (λ fault. IsCaused (line_fault fault) (F.state files.old).counts (F.state files.new).counts) }
    ensures clean { OnOk result ((F.state files.new).counts.faults ≡ (F.state files.old).counts.faults) }
    ensures map { (F.state files.new).map ≡ (F.state files.old).map }
    ensures misses { (F.state files.new).counts.misses ≡ (F.state files.old).counts.misses }
    ensures later { AreLater (F.state files.old).counts (F.state files.new).counts }
{
    let mut reader = KernelReader::new(alloc);
    feed_open(&mut reader, files)?;
    Ok(reader.finish()?)
}

/// Feeds the reader the rest of the open file, which has at most `MAX_FILE` bytes. The file is read to its end also
/// where its text has a fault, since a fault of the file comes first: the reader answers its own at the end.
fn feed_open<F: Files>(reader: &mut KernelReader, files: &mut F) -> Result<(), KernelFault>
    requires opened { (F.state files.old).opened ≡ true }
    requires fed { Fed [] reader.old }
    requires count { reader.old.count ≡ 0 }
    ensures ok { OnOk result (FedRest (F.state files.old).left reader.new) }
    ensures err { IfErr result (Stops (F.state files.old).left) }
    ensures cause { IfErr result (λ fault. IsCaused (line_fault fault) (F.state files.old).counts (F.state files.new).counts) }
    ensures clean { OnOk result ((F.state files.new).counts.faults ≡ (F.state files.old).counts.faults) }
    ensures map { (F.state files.new).map ≡ (F.state files.old).map }
    ensures misses { (F.state files.new).counts.misses ≡ (F.state files.old).counts.misses }
    ensures later { AreLater (F.state files.old).counts (F.state files.new).counts }
{
    let mut buf = [0u8; PIECE];
    let mut read = 0;
    while read <= MAX_FILE {
        match files.read(&mut buf) {
            Ok(0) => return Ok(()),
            Ok(count) => {
                let _ = reader.feed(&buf[..count]);
                read += count;
            }
            Err(_) => return Err(KernelFault::FileFault),
        }
    }
    Err(KernelFault::FileTooLong)
}
