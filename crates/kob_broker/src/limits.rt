//! Limits of batches and producers.

/// The maximum number of records of a batch.
pub const RECORD_LIMIT: usize = 1_000;

/// The maximum number of bytes of a batch: those of its keys, values, header names and header
/// values.
pub const BATCH_BYTE_LIMIT: u64 = 2_097_152;

/// The maximum epoch of a producer.
pub const EPOCH_LIMIT: u64 = 32_767;

/// The maximum sequence of a producer.
pub const SEQUENCE_LIMIT: u64 = 2_147_483_647;

/// Every producer id is below this.
pub const PRODUCER_LIMIT: u64 = u64::MAX;

const _: () = prove!(RECORD_LIMIT == 1_000);

const _: () = prove!(BATCH_BYTE_LIMIT == 2_097_152);

const _: () = prove!(EPOCH_LIMIT == 32_767);

const _: () = prove!(SEQUENCE_LIMIT == 2_147_483_647);

const _: () = prove!(PRODUCER_LIMIT == 18_446_744_073_709_551_615);
