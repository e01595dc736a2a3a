//! What holds of a worker's turns over a book that threads share. None of it runs: these are facts about what a pass knows, with their
//! proofs.
ghost use Rattle.std.specs.Prelude.{◌≡◌, ◌+◌, ◌*◌, ◌≤◌, List, [], ◌∷◌, ◌++◌, All, sum_by, Result, Ok};
ghost use Rattle.stock_model.specs.declared.deeds.Deed.{Deed};
ghost use Rattle.turn_lock.specs.declared.view.View.{View};
ghost use Rattle.session_laws.specs.Makers.{without_makers};
ghost use Rattle.stock_keeper.specs.declared.fault.KeepFault.{KeepFault};
ghost use Rattle.stock_nums.specs.declared.numbers.RecordNo.{RecordNo};
ghost use Rattle.repost_build.specs.Readings.{fetches_of};
ghost use Rattle.repost_build.specs.declared.build.Build.{Build};
ghost use Rattle.locked_worker.specs.GatedRuns.{AreTurnsWith, turns_with, valuations_with, PublishesNothing, StaysWithBuild, movements_in, movements_ahead};
ghost use Rattle.repost_worker.specs.Turns.{IsWorkOf};
ghost use Rattle.repost_worker.specs.declared.turn.Turned.{Turned};
ghost use Rattle.repost_worker.specs.declared.turn.Turned.TheVariants.{Fetched, Published};

/// From the first fetch of a build on there are at most four turns for each movement that the records ever made that it is of, and
/// four more, as long as it publishes nothing: whatever is posted meanwhile, and however often a turn is refused.
pub fn a_build_has_few_turns()
    ensures few { (old new : View Deed) (build build' : Build) (n : RecordNo) (results : List (Result Turned KeepFault))
        → IsWorkOf (without_makers old.seen) build → fetches_of build ≡ 0
        → AreTurnsWith (Ok (Fetched n) ∷ results) old build new build' → All PublishesNothing results
        → sum_by turns_with (Ok (Fetched n) ∷ results) ≤ 4 * (movements_in new build' + 1) }

    // So it is published with one turn more.
    ensures published { (old new : View Deed) (build build' : Build) (n m : RecordNo) (results : List (Result Turned KeepFault))
        → IsWorkOf (without_makers old.seen) build → fetches_of build ≡ 0
        → AreTurnsWith (Ok (Fetched n) ∷ results ++ Ok (Published m) ∷ []) old build new build' → All PublishesNothing results
        → sum_by turns_with (Ok (Fetched n) ∷ results ++ Ok (Published m) ∷ []) ≤ 4 * (movements_in new build' + 1) + 1 }
{}

/// Between two fetches no more movements are valued than come from the first suspect on, which is itself one of them.
pub fn a_build_values_what_is_ahead()
    ensures { (old new : View Deed) (build build' : Build) (results : List (Result Turned KeepFault))
        → IsWorkOf (without_makers old.seen) build → AreTurnsWith results old build new build' → All StaysWithBuild results
        → sum_by valuations_with results ≤ movements_ahead old build }
{}
