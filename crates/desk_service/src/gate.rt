//! When a service's worker rests, goes on and ends.
ghost use Rattle.std.specs.Prelude.{◌≡◌, ℕ, Bool};
ghost use Rattle.desk_service.specs.Rests.{patience_after, rest_of, rested, valued_after};

use locked_worker::gate::{Gate, Go};
use repost_worker::turn::Turned;
use stock_keeper::fault::KeepFault;

/// For how many short times a worker rests at most after a turn that was refused.
pub const MAX_PAUSE: u32 = 1_024;
/// After a publication a worker rests for one short time, and for one more for each so many movements that it valued for it.
pub const VALUED_PER_REST: u32 = 256;
/// For how many short times a worker rests at most after a publication.
pub const MAX_REST: u32 = 100;

/// What tells a worker to end, and lets it rest until then.
pub trait Shutdown {
    // For how many short times it let the worker rest. The count stands still at its end.
    ghost rests: { Self → ℕ };

    // Whether it had begun when the worker last asked.
    ghost begun: { Self → Bool };

    /// Rests for so many short times, or until it begins.
    fn rest(&mut self, times: u32)
        ensures rests { rests self.new ≡ rested times (rests self.old) };

    /// Whether it has begun.
    fn has_begun(&mut self) -> bool
        ensures begun { begun self.new ≡ result }
        ensures rests { rests self.new ≡ rests self.old };
}

/// Lets the worker go on until the shutdown begins, whatever was refused. It rests for a short time where there was nothing to do, and after
/// a publication the longer the more was valued for it, so that desks have the processors and the lock for most of the time. Where a turn
/// was refused it rests as well, and twice as long each further time, so that what can't be published is tried less and less often.
#[derive(Drop)]
pub struct UntilShutdown<S> {
    pub shutdown: S,
    /// For how many short times the worker rests if its next turn is refused.
    pub patience: u32,
    /// How many movements it valued since the last publication. The count stands still at its end.
    pub valued: u32,
}

impl<S: Shutdown> UntilShutdown<S> {
    /// No turn was refused yet, and no movement was valued.
    pub fn new(shutdown: S) -> UntilShutdown<S>
        ensures shutdown { result.shutdown ≡ shutdown }
        ensures patience { result.patience ≡ 1 }
        ensures valued { result.valued ≡ 0 }
    {
        UntilShutdown {
            shutdown,
            patience: 1,
            valued: 0,
        }
    }
}

impl<S: Shutdown> Gate for UntilShutdown<S> {
    ghost use Rattle.std.specs.Prelude.{None, if◌then◌else◌};
    ghost use Rattle.locked_worker.specs.declared.gate.Go.TheVariants.{Work, Stop};
    ghost use Rattle.desk_service.specs.Rests.{patience_after, rests_after, valued_after};

    ghost told = { λ _. None };

    fn next(&mut self, last: &Result<Turned, KeepFault>) -> Go
        ensures rests { S.rests self.new.shutdown ≡ rests_after last.now self.old.patience self.old.valued (S.rests self.old.shutdown) }
        ensures patience { self.new.patience ≡ patience_after last.now self.old.patience }
        ensures valued { self.new.valued ≡ valued_after last.now self.old.valued }
        ensures goes_on { result ≡ (if S.begun self.new.shutdown then Stop else Work) }
    {
        match last {
            Ok(Turned::Idle) => self.shutdown.rest(1),
            Ok(Turned::Published(_)) => self.shutdown.rest(rest_of(self.valued)),
            Ok(Turned::Valued(_) | Turned::Fetched(_)) => {}
            Err(_) => self.shutdown.rest(self.patience),
        }
        self.patience = patience_after(last, self.patience);
        self.valued = valued_after(last, self.valued);
        if self.shutdown.has_begun() {
            Go::Stop
        } else {
            Go::Work
        }
    }
}

// Its patience after a turn with this result.
fn patience_after(last: &Result<Turned, KeepFault>, patience: u32) -> u32
    ensures { result ≡ patience_after last.now patience }
{
    match last {
        Ok(_) => 1,
        Err(_) if patience < MAX_PAUSE / 2 => patience * 2,
        Err(_) => MAX_PAUSE,
    }
}

// For how many short times it rests after a publication for which it valued so many movements.
fn rest_of(valued: u32) -> u32
    ensures { result ≡ rest_of valued }
{
    MAX_REST.min(1 + valued / VALUED_PER_REST)
}

// How many movements it has valued since the last publication, after a turn with this result.
fn valued_after(last: &Result<Turned, KeepFault>, valued: u32) -> u32
    ensures { result ≡ valued_after last.now valued }
{
    match last {
        Ok(Turned::Valued(_)) => valued.saturating_add(1),
        Ok(Turned::Published(_)) => 0,
        _ => valued,
    }
}
