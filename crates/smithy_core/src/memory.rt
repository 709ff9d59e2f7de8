use std::alloc::AllocError;

/// Memory ran out.
pub type NoMemory = AllocError;

/// The answer of a call whose only failure is that memory ran out.
pub type Mem<T> = Result<T, NoMemory>;
