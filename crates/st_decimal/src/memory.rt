//! Want of memory, the one answer that any call which allocates may give.

use std::alloc::AllocError;

/// Memory was refused. What the call was to change is as before, unless the call says otherwise.
pub type OutOfMemory = AllocError;
