//! Whether codes and moments are equal.
ghost use Rattle.std.specs.Prelude.{◌≡◌, ◌↔◌, IsTrue};

use stock_nums::code::Code;
use stock_nums::moment::Moment;

/// Whether both codes are spelled alike.
pub(crate) fn is_same_code(one: &Code, other: &Code) -> bool
    ensures { IsTrue result ↔ (one.now ≡ other.now) }
{
    one == other
}

/// Whether both are one second of one date.
#[tactic(auto, using(crate::proofs::SameParts::moment_same))]
pub(crate) fn is_same_moment(one: Moment, other: Moment) -> bool
    ensures { IsTrue result ↔ (one ≡ other) }
{
    one == other
}
