//! When two names are one.

ghost use Rattle.std.specs.Prelude.{◌≡◌, IsTrue};
ghost use Rattle.base_words.specs.Names as spec;

use base_words::JobId;

/// Whether two names are one.
pub fn same_name(one: &JobId, other: &JobId) -> bool
    ensures value { result ≡ spec.same_name one.now other.now }
    ensures right { IsTrue result → one.now ≡ other.now }
    ensures only { one.now ≡ other.now → IsTrue result }
{
    one.from.0 == other.from.0 && one.to.0 == other.to.0 && one.number == other.number
}
