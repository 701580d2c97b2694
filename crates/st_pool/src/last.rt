//! The last kernel of a name.

ghost use Rattle.std.specs.Prelude.{◌≡◌, None};
ghost use Rattle.st_pool.specs.PoolMachine as machine;

use crate::kernel::Kernel;

/// The place of the last kernel of the name.
pub fn last_place(kernels: &[Kernel], name: &[u8]) -> Option<usize>
    ensures { result ≡ machine.last_place name.now 0 None kernels.now }
{
    let mut found = None;
    for (i, kernel) in kernels.iter().enumerate() {
        if kernel.name.as_slice() == name {
            found = Some(i);
        }
    }
    found
}
