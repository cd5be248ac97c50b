//! Why a broker cannot be opened.

use std::alloc::AllocError;
use thiserror::Error;

/// Why a broker cannot be opened.
#[derive(Clone, Copy, Debug, PartialEq, Eq, Error)]
pub enum OpenFault {
    #[error("too many bindings")]
    TooMany,
    #[error("out of memory")]
    Memory(AllocError),
}
