//! Why tables are not opened.
use crate::differing::Difference;
use stock_nums::memory::NoMemory;

/// Why tables are not opened.
#[derive(Clone, Copy, Debug, PartialEq, Eq)]
pub enum OpenFault {
    /// The keeper failed: it has counted a fault.
    KeeperFailed,
    /// The version is not the one that is written, or the number covered is not from 0 to the number of records. `records` stays at
    /// `u32::MAX` where there are more.
    BadHead {
        version: i64,
        covered: i64,
        records: u32,
    },
    /// The first stored record that has another number than its place, is none as it would be written, or has a
    /// fault at its place.
    BadStored {
        number: u32,
    },
    /// The first spot at which the stored worth is not the replayed one.
    StoredDiffers(Difference),
    /// Memory was wanting.
    NoMemory,
}

impl From<NoMemory> for OpenFault {
    ghost use Rattle.std.specs.Prelude.{◌≡◌};
    ghost use Rattle.kept_tables.specs.declared.open_fault.OpenFault.TheVariants as fault;

    ghost from_gives = { λ _ made. made ≡ fault.NoMemory };

    fn from(_error: NoMemory) -> OpenFault {
        OpenFault::NoMemory
    }
}
