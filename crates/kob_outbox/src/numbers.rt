//! Numbers as values of `sqlite`.

ghost use Rattle.std.specs.Prelude.{◌≡◌, ◌<◌, ◌^◌, pos};
ghost use Rattle.sqlite.specs.declared.types.Value.TheVariants.{Int};

use sqlite::types::Value;

/// A number as a value of `sqlite`, whose integers have 64 bits with a sign.
pub fn number(n: u64) -> Value
    requires { n < 2 ^ 63 }
    ensures { result ≡ Int (pos n) }
{
    Value::Int(n as i64)
}
