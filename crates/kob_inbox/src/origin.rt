//! Where a record is.

/// The partition and the offset at which a record is.
#[derive(Clone, Copy)]
pub(crate) struct Origin<'a> {
    pub topic: &'a str,
    pub partition: u64,
    pub offset: u64,
}
