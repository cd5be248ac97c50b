//! The limits on a run.

/// The maximum length of a script, in bytes.
pub const SCRIPT_LIMIT: usize = 16_777_216;

const _: () = prove!(SCRIPT_LIMIT == 16_777_216);

/// The maximum number of calls of a reader, including interrupted ones. A reader that has not
/// reached its end after them counts as failed.
pub const READ_LIMIT: u32 = 20_000_000;

const _: () = prove!(READ_LIMIT == 20_000_000);

/// The maximum number of calls of a writer for the bytes at the front of a text. A writer that is
/// interrupted at all of them counts as failed.
pub const WRITE_LIMIT: u32 = 1_000_000;

const _: () = prove!(WRITE_LIMIT == 1_000_000);

/// The maximum number of bytes of printed replies that are held before they are written.
pub const PIECE_LIMIT: usize = 65_536;

const _: () = prove!(PIECE_LIMIT == 65_536);

/// The initial capacity of a block of the script, in bytes.
pub const BLOCK_SIZE: usize = 65_536;

const _: () = prove!(BLOCK_SIZE == 65_536);
