//! What follows from the definitions, by which the bodies are empty.

ghost use Rattle.std.specs.Prelude.{◌≡◌, List, Some, nat_lt, true, ℕ};
ghost use Rattle.std.specs.List.{list_all};
ghost use Rattle.kob_names.specs.declared.kinds.Operation.{Operation};
ghost use Rattle.kob_names.specs.declared.kinds.PatternKind.{PatternKind};
ghost use Rattle.kob_names.specs.declared.kinds.Permission.{Permission};
ghost use Rattle.kob_names.specs.declared.kinds.ResourceKind.{ResourceKind};
ghost use Rattle.kob_words.specs.Words.{LeavesWhole, bytes_text, operation_name, operation_named};
ghost use Rattle.kob_words.specs.Words.{pattern_name, pattern_named, permission_name};
ghost use Rattle.kob_words.specs.Words.{permission_named, resource_name, resource_named, unescaped};

/// A cut at `=` or at `:` leaves each escape whole. So the parts of a record and the numbers of a
/// producer are read as they are in their word.
#[tactic(auto, using(crate::proofs::Escapes::at_equals, crate::proofs::Escapes::at_colon))]
pub fn cuts_leave_whole_escapes()
    ensures equals { LeavesWhole 61 }
    ensures colon { LeavesWhole 58 }
{}

/// What is printed for bytes, or for the parts of a binding that have names, is read back as them.
pub fn what_is_printed_is_read_back()
    ensures bytes { (bytes : List ℕ) → list_all (λ byte. nat_lt byte 256) bytes ≡ true
        → unescaped (bytes_text bytes) ≡ Some bytes }
    ensures operation { (operation : Operation)
        → operation_named (operation_name operation) ≡ Some operation }
    ensures resource { (resource : ResourceKind)
        → resource_named (resource_name resource) ≡ Some resource }
    ensures pattern { (kind : PatternKind) → pattern_named (pattern_name kind) ≡ Some kind }
    ensures permission { (permission : Permission)
        → permission_named (permission_name permission) ≡ Some permission }
{}
