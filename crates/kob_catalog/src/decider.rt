//! Deciding which topics are shown.

ghost use Rattle.std.specs.Prelude.{◌≡◌, Bool, List, ℕ};

use kob_names::Text;

/// Decides for each name whether it may be shown.
pub trait Decider {
    // Which names it grants.
    ghost granted: { Self → List ℕ → Bool };

    /// Whether the name may be shown. Does not allocate.
    fn grants(&self, name: &Text) -> bool
        ensures { result ≡ granted self.now name.now };
}
