//! One loaded kernel.

use st_decimal::KText;
use st_kernel_text::AssignmentList;

/// The name that a kernel was loaded by, and its assignments.
#[derive(Debug, Drop)]
pub struct Kernel {
    pub name: KText,
    pub assignments: AssignmentList,
}
