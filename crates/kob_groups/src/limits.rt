//! The limit on groups.

/// The maximum number of groups.
pub const GROUP_LIMIT: usize = 10_000;

const _: () = prove!(GROUP_LIMIT == 10_000);
