//! What lets a worker go on from turn to turn.
ghost use Rattle.std.specs.Prelude.{◌≡◌, List, [], ◌∷◌, ◌++◌, Option, Result};
ghost use Rattle.std.specs.Option.{option_map};
ghost use Rattle.stock_keeper.specs.declared.fault.KeepFault.{KeepFault};
ghost use Rattle.locked_worker.specs.declared.gate.Go.{Go};
ghost use Rattle.repost_worker.specs.declared.turn.Turned.{Turned};

use repost_worker::turn::Turned;
use stock_keeper::fault::KeepFault;

/// Whether a worker is to make one more turn.
#[derive(Clone, Copy, Debug, PartialEq, Eq)]
pub enum Go {
    /// It makes one.
    Work,
    /// It ends.
    Stop,
}

/// What a worker asks before each of its turns.
pub trait Gate {
    // Each result that it was given, with its answer, where the gate tells them.
    ghost told: { Self → Option (List (Result Turned KeepFault × Go)) };

    /// Whether there is to be one more turn, after one with this result. It may wait before it answers: the worker holds nothing
    /// meanwhile.
    fn next(&mut self, last: &Result<Turned, KeepFault>) -> Go
        ensures told { told self.new ≡ option_map (λ asked. asked ++ (last.now, result) ∷ []) (told self.old) };
}
