//! Whether records are equal.
ghost use Rattle.std.specs.Prelude.{◌≡◌, ◌↔◌, IsTrue};

use crate::whats;
use stock_model::records::Record;

/// Whether the two are equal: one desk posted them, and they say the same. It takes no memory.
#[tactic(auto, using(crate::proofs::SameParts::record_same))]
pub fn is_same(one: &Record, other: &Record) -> bool
    ensures { IsTrue result ↔ (one.now ≡ other.now) }
{
    one.desk == other.desk && whats::is_same(&one.what, &other.what)
}
