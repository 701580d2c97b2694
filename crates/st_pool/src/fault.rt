//! Why the pool refuses a call.

use st_decimal::OutOfMemory;
use thiserror::Error;

/// Why a kernel is not loaded.
#[derive(Clone, Copy, Debug, PartialEq, Eq, Error)]
pub enum LoadFault {
    /// 1,000 kernels are loaded.
    #[error("1,000 kernels are loaded")]
    TooManyKernels,
    /// The values of all loaded kernels and of this one are more than 2,000,000.
    #[error("more than 2,000,000 values")]
    TooManyValues,
    /// Memory was refused.
    #[error("out of memory")]
    OutOfMemory,
}

/// No kernel of the name is loaded.
#[derive(Clone, Copy, Debug, PartialEq, Eq, Error)]
#[error("not loaded")]
pub struct NotLoaded;

impl From<OutOfMemory> for LoadFault {
    ghost use Rattle.std.specs.Prelude.{◌≡◌};
    ghost use Rattle.st_pool.specs.declared.fault.LoadFault.TheVariants.{OutOfMemory as NoMemory};

    ghost from_gives = { λ _ fault. fault ≡ NoMemory };

    fn from(_: OutOfMemory) -> Self {
        LoadFault::OutOfMemory
    }
}
