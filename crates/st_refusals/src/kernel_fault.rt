//! Why the file of a name isn't loaded.

ghost use Rattle.std.specs.Prelude.{◌≡◌};

use st_decimal::OutOfMemory;
use st_kernel_text::{TextCause, TextFault};
use st_pool::LoadFault;
use thiserror::Error;

/// Why the file of a name isn't loaded.
#[derive(Clone, Copy, Debug, PartialEq, Eq, Error)]
pub enum KernelFault {
    /// There is no file of that name.
    #[error("no such file")]
    NoFile,
    /// The file could not be opened, or its read failed.
    #[error("the file could not be read")]
    FileFault,
    /// The file has more than 16,777,216 bytes.
    #[error("a file of more than 16,777,216 bytes")]
    FileTooLong,
    /// The file is no text kernel: the line, from 1, and what breaks there.
    #[error("no text kernel, by its line {line}")]
    KernelText { line: u64, cause: TextCause },
    /// 1,000 kernels are loaded.
    #[error("1,000 kernels are loaded")]
    TooManyKernels,
    /// The values of the loaded kernels and of this one are more than 2,000,000.
    #[error("more than 2,000,000 values")]
    TooManyValues,
    /// Memory was refused.
    #[error("out of memory")]
    OutOfMemory,
}

impl From<OutOfMemory> for KernelFault {
    ghost use Rattle.st_refusals.specs.declared.kernel_fault.KernelFault.TheVariants as fault;

    ghost from_gives = { λ _ e. e ≡ fault.OutOfMemory };

    fn from(_error: OutOfMemory) -> KernelFault {
        KernelFault::OutOfMemory
    }
}

impl From<TextFault> for KernelFault {
    ghost use Rattle.st_refusals.specs.Faults.{fault_of_text};

    ghost from_gives = { λ fault e. e ≡ fault_of_text fault };

    fn from(fault: TextFault) -> KernelFault {
        match fault {
            TextFault::At { line, cause } => KernelFault::KernelText { line, cause },
            TextFault::OutOfMemory => KernelFault::OutOfMemory,
        }
    }
}

impl From<LoadFault> for KernelFault {
    ghost use Rattle.st_refusals.specs.Faults.{fault_of_pool};

    ghost from_gives = { λ fault e. e ≡ fault_of_pool fault };

    fn from(fault: LoadFault) -> KernelFault {
        match fault {
            LoadFault::TooManyKernels => KernelFault::TooManyKernels,
            LoadFault::TooManyValues => KernelFault::TooManyValues,
            LoadFault::OutOfMemory => KernelFault::OutOfMemory,
        }
    }
}
