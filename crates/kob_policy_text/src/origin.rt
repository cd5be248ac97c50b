//! From where a binding comes.

use crate::item::LeftOut;
use kob_names::Text;

/// A file by its name, and a line of it, counted from 1.
#[derive(Drop)]
pub struct Origin {
    pub file: Text,
    pub line: u64,
}

/// A binding or a super user that is left out, why, and whether it denies.
#[derive(Drop)]
pub struct Omission {
    pub origin: Origin,
    pub what: LeftOut,
    pub denies: bool,
}
