//! The two ways in which a key matches names.
/// How a key matches names, as the pattern types of KIP-290.
#[derive(Clone, Copy, PartialEq, Eq, Debug, Drop)]
pub enum PatternKind {
    /// It matches the name that equals the key.
    Literal,
    /// It matches each name that begins with the key.
    Prefixed,
}
