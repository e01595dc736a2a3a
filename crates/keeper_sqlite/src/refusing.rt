//! What a keeper makes of the refusals of its database: want of memory is free, and any other refusal is a fault.
ghost use Rattle.std.specs.Prelude.{◌≡◌, ◌↔◌};
ghost use Rattle.stock_io.specs.Counts.{NeverFalls, raised};
ghost use Rattle.stock_keeper.specs.declared.fault.KeepFault.TheVariants as fault;

use sqlite::{Error, ErrorCode};
use stock_keeper::fault::KeepFault;

/// A refusal of the database as a keeper or a shelf tells it: `NoMemory` where memory was wanting, else `Failed`, and a fault is
/// counted. The count stays at `u64::MAX`.
pub(crate) fn refused(error: Error, faults: &mut u64) -> KeepFault
    ensures fault { result ≡ fault.Failed → faults.new ≡ raised faults.old }
    ensures free { result ≡ fault.NoMemory → faults.new ≡ faults.old }
    ensures never_falls { NeverFalls faults.old faults.new }
{
    counted(fault_of(error), faults)
}

/// The same, with none counted.
pub(crate) fn fault_of(error: Error) -> KeepFault
    ensures { (result ≡ fault.NoMemory) ↔ (error ≡ Error.SqliteFailure ErrorCode.OutOfMemory) }
{
    if error == Error::SqliteFailure(ErrorCode::OutOfMemory) {
        KeepFault::NoMemory
    } else {
        KeepFault::Failed
    }
}

/// The same fault, counted where it is one of the database.
pub(crate) fn counted(told: KeepFault, faults: &mut u64) -> KeepFault
    ensures same { result ≡ told }
    ensures fault { told ≡ fault.Failed → faults.new ≡ raised faults.old }
    ensures free { told ≡ fault.NoMemory → faults.new ≡ faults.old }
    ensures never_falls { NeverFalls faults.old faults.new }
{
    match told {
        KeepFault::Failed => {
            *faults = faults.saturating_add(1);
            KeepFault::Failed
        }
        KeepFault::NoMemory => KeepFault::NoMemory,
    }
}
