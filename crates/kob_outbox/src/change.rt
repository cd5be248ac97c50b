//! What a service changes.

ghost use Rattle.std.specs.Prelude.{◌≡◌, IfOk, string_bytes};

use std::alloc::{AllocError, Global};

/// A business row as a service writes it, under the key of its kind and its id.
///
/// Kind and id have up to 255 bytes, the state up to 1,048,576, and none has a zero byte.
#[derive(Debug, Drop)]
pub struct Change {
    pub kind: String,
    pub id: String,
    pub state: String,
}

impl Change {
    /// A change with these texts. The error is out of memory.
    pub fn of(alloc: Global, kind: &str, id: &str, state: &str) -> Result<Change, AllocError>
        ensures kind { IfOk result (λ made. string_bytes made.kind ≡ kind.now) }
        ensures id { IfOk result (λ made. string_bytes made.id ≡ id.now) }
        ensures state { IfOk result (λ made. string_bytes made.state ≡ state.now) }
    {
        let kind = String::from_str(alloc, kind)?;
        let id = String::from_str(alloc, id)?;
        let state = String::from_str(alloc, state)?;
        Ok(Change { kind, id, state })
    }

    /// A change with the same texts. The error is out of memory.
    pub fn copy(&self, alloc: Global) -> Result<Change, AllocError>
        ensures kind { IfOk result (λ made. string_bytes made.kind ≡ string_bytes self.now.kind) }
        ensures id { IfOk result (λ made. string_bytes made.id ≡ string_bytes self.now.id) }
        ensures state { IfOk result
            (λ made. string_bytes made.state ≡ string_bytes self.now.state) }
    {
        Change::of(
            alloc,
            self.kind.as_str(),
            self.id.as_str(),
            self.state.as_str(),
        )
    }
}
