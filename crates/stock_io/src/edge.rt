//! What the edge makes of the answers of the system. Its streams don't tell their bytes, so the answer to
//! a call is all that is known of it, and here alone it becomes what a source or a sink says. A short
//! write is told as short.
ghost use Rattle.std.specs.Prelude.{◌≡◌, ◌+◌, ◌<◌, ◌^◌, IfOk, OnOk, OnErr};
ghost use Rattle.std.specs.Result.{ForOk};
ghost use Rattle.stock_io.specs.Counts.{NeverFalls, raised};
ghost use Rattle.stock_io.specs.Edges.{taken_of, written_of};

use crate::failed::Failed;
use std::io;

/// What a read says where the system answered this: as many bytes as it gave, which are counted. None
/// are its end.
///
/// # Errors
///
/// `Failed` where the system failed: a fault is counted.
pub fn taken_of(
    answer: io::Result<usize>,
    taken: &mut u64,
    faults: &mut u64,
) -> Result<usize, Failed>
    requires { ForOk answer (λ n. taken.old + n < 2 ^ 64) }
    ensures told { result ≡ taken_of answer }
    ensures count { IfOk result (λ n. taken.new ≡ taken.old + n) }
    ensures taken_kept { OnErr result (taken.new ≡ taken.old) }
    ensures faults_kept { OnOk result (faults.new ≡ faults.old) }
    ensures fault { OnErr result (faults.new ≡ raised faults.old) }
    ensures never_falls { NeverFalls faults.old faults.new }
{
    match answer {
        Ok(n) => {
            *taken += n as u64;
            Ok(n)
        }
        Err(_) => Err(count_fault(faults)),
    }
}

/// What a write says where the system answered this: as many bytes as it took, which may be fewer than
/// it was given.
///
/// # Errors
///
/// `Failed` where the system failed, or took nothing: a fault is counted.
pub fn written_of(answer: io::Result<usize>, faults: &mut u64) -> Result<usize, Failed>
    ensures told { result ≡ written_of answer }
    ensures faults_kept { OnOk result (faults.new ≡ faults.old) }
    ensures fault { OnErr result (faults.new ≡ raised faults.old) }
    ensures never_falls { NeverFalls faults.old faults.new }
{
    match answer {
        Ok(n) if n > 0 => Ok(n),
        _ => Err(count_fault(faults)),
    }
}

/// Counts a fault. The count stays at `u64::MAX`.
pub fn count_fault(faults: &mut u64) -> Failed
    ensures raised { faults.new ≡ raised faults.old }
    ensures never_falls { NeverFalls faults.old faults.new }
{
    *faults = faults.saturating_add(1);
    Failed
}
