//! Sizes that no block of memory can have.

ghost use Rattle.std.specs.Prelude.{◌+◌, ◌<◌, ◌^◌};
ghost use Rattle.std.specs.Result.{OkIff};

use std::alloc::AllocError;

/// The sum of two sizes. Nothing of 2^64 bytes or items fits in memory, so that such a sum is out of
/// memory. Does not allocate.
pub fn sum_of(one: usize, other: usize) -> Result<usize, AllocError>
    ensures { OkIff result (one + other < 2 ^ 64) (one + other) }
{
    one.checked_add(other).ok_or(AllocError)
}
