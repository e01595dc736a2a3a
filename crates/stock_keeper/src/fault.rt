//! Why a keeper or a shelf refused a call.
use stock_nums::memory::NoMemory;

/// Why a call was refused.
#[derive(Clone, Copy, Debug, PartialEq, Eq)]
pub enum KeepFault {
    /// What keeps the tables failed. It has counted a fault.
    Failed,
    /// Memory was wanting.
    NoMemory,
}

impl From<NoMemory> for KeepFault {
    ghost use Rattle.std.specs.Prelude.{◌≡◌};
    ghost use Rattle.stock_keeper.specs.declared.fault.KeepFault.TheVariants as fault;

    ghost from_gives = { λ _ made. made ≡ fault.NoMemory };

    fn from(_error: NoMemory) -> KeepFault {
        KeepFault::NoMemory
    }
}
