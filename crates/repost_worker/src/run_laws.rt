//! What holds of turns and runs of turns. None of it runs: these are facts about plain histories and builds, with their proofs.
ghost use Rattle.std.specs.Prelude.{◌≡◌, ◌+◌, ◌*◌, ◌<◌, ◌≤◌, ℕ, List, [], ◌∷◌, ◌++◌, length, Option, Some, None};
ghost use Rattle.stock_model.specs.History.{records, accepted, covered};
ghost use Rattle.stock_model.specs.declared.deeds.Deed.{Deed};
ghost use Rattle.stock_model.specs.declared.deeds.Deed.TheVariants as deed;
ghost use Rattle.stock_model.specs.declared.records.Record.{Record};
ghost use Rattle.stock_keeper.specs.declared.fault.KeepFault.{KeepFault};
ghost use Rattle.generation_book.specs.State.{BookState};
ghost use Rattle.repost_laws.specs.WholeBuilds.{made};
ghost use Rattle.repost_build.specs.Builds.{IsOf};
ghost use Rattle.repost_build.specs.declared.build.Build.{Build};
ghost use Rattle.repost_worker.specs.Paces.{pace_of, IsInPace, WorksInPace};
ghost use Rattle.repost_worker.specs.Runs.{IsRun};
ghost use Rattle.repost_worker.specs.Turns.{IsWorkOf};

/// A new build can work on a book that covers nothing, whatever was accepted, and goes on where a record is accepted.
pub fn work_goes_on()
    ensures start { (history : List Deed) (build : Build) → IsOf [] build → covered history ≡ 0 → IsWorkOf history build }
    ensures kept { (history : List Deed) (build : Build) (item : Record) → IsWorkOf history build
        → IsWorkOf (history ++ deed.Kept item ∷ []) build }
{}

/// A run accepts no record. Where it has no limit and no turn was refused, it covers all that were accepted.
pub fn a_run_without_limit_covers_all()
    ensures same { (limit : Option ℕ) (stopped : Option KeepFault) (history history' : List Deed) (build build' : Build)
        (steps steps' : ℕ) → IsRun limit stopped history build steps history' build' steps' → records history' ≡ records history }
    ensures all { (history history' : List Deed) (build build' : Build) (steps steps' : ℕ)
        → IsRun None None history build steps history' build' steps' → covered history' ≡ accepted history' }
{}

/// A run makes two turns at most for each movement that accepted records ever made, three more for fetches and publications, and one
/// that is idle. So where it may make the first of these and none was refused, it covers all that were accepted.
pub fn few_turns_cover_all()
    ensures few { (limit : Option ℕ) (stopped : Option KeepFault) (history history' : List Deed) (build build' : Build)
        (steps steps' : ℕ) → IsWorkOf history build → (run : IsRun limit stopped history build steps history' build' steps')
        → length run.turns ≤ 2 * made (records history) + 4 }
    ensures all { (limit : ℕ) (history history' : List Deed) (build build' : Build) (steps steps' : ℕ)
        → IsWorkOf history build → IsRun (Some limit) None history build steps history' build' steps'
        → 2 * made (records history) + 3 ≤ limit → covered history' ≡ accepted history' }
{}

/// A build that works on a book is in pace, and a run of so many turns, none of which was refused, keeps the pace.
pub fn a_run_keeps_pace()
    ensures in_pace { (book : BookState) (build : Build) → IsWorkOf book.history build → IsInPace (pace_of book build) }
    ensures works { (limit : ℕ) (book book' : BookState) (build build' : Build) (steps steps' : ℕ) → IsWorkOf book.history build
        → IsRun (Some limit) None book.history build steps book'.history build' steps'
        → WorksInPace (pace_of book build) limit (pace_of book' build') }
{}
