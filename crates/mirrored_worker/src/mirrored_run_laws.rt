//! What holds of a worker's run beside a mirror. None of it runs: these are facts about what a pass knows and what a mirror shows, with
//! their proofs.
ghost use Rattle.std.specs.Prelude.{ℕ, ◌≡◌, ◌⊎◌, List, ◌++◌, All, take, Option, Result, Ok};
ghost use Rattle.stock_model.specs.History.{records, covered_records, IsLegal};
ghost use Rattle.stock_model.specs.Run.{ArePublications};
ghost use Rattle.stock_model.specs.declared.deeds.Deed.{Deed};
ghost use Rattle.stock_model.specs.declared.records.Record.{Record};
ghost use Rattle.stock_keeper.specs.declared.fault.KeepFault.{KeepFault};
ghost use Rattle.stock_nums.specs.declared.numbers.RecordNo.{RecordNo};
ghost use Rattle.turn_lock.specs.Histories.{BeginsWith};
ghost use Rattle.turn_lock.specs.declared.view.View.{View};
ghost use Rattle.session_laws.specs.Makers.{with_makers, without_makers};
ghost use Rattle.repost_build.specs.declared.build.Build.{Build};
ghost use Rattle.repost_worker.specs.declared.turn.Turned.{Turned};
ghost use Rattle.repost_worker.specs.declared.turn.Turned.TheVariants.{Published};
ghost use Rattle.locked_worker.specs.GatedRuns.{Answers, AreTurnsWith, PublishesNothing};
ghost use Rattle.mirrored_worker.specs.MirroredRuns.{IsMirroredRun, IsTurnShown, AreTurnsShown};

/// What the pass of a worker has seen before a run is the beginning of what it has seen then, and it made publications alone.
pub fn a_mirrored_run_publishes_alone()
    ensures grows { (old new : View Deed) (build build' : Build) (shown shown' : List Record) (steps steps' : ℕ) (told told' : Option Answers)
        → IsMirroredRun old build shown steps told new build' shown' steps' told' → BeginsWith new.seen old.seen }
    ensures made { (old new : View Deed) (build build' : Build) (shown shown' : List Record) (steps steps' : ℕ) (told told' : Option Answers)
        → IsMirroredRun old build shown steps told new build' shown' steps' told'
        → (more : List Deed) × ArePublications more × (new.made ≡ old.made ++ with_makers more) }
{}

/// To the pass and the build a mirror makes no other difference than turns that were refused for want of memory: a look leaves what such
/// a one leaves. And until something is published it makes none, and shows what it did.
pub fn a_mirrored_run_is_one_of_turns()
    ensures turns { (old new : View Deed) (build build' : Build) (shown shown' : List Record) (results : List (Result Turned KeepFault))
        → AreTurnsShown results old build shown new build' shown'
        → (others : List (Result Turned KeepFault)) × AreTurnsWith others old build new build' }
    ensures before { (old new : View Deed) (build build' : Build) (shown shown' : List Record) (results : List (Result Turned KeepFault))
        → AreTurnsShown results old build shown new build' shown' → All PublishesNothing results
        → AreTurnsWith results old build new build' × (shown' ≡ shown) }
{}

/// After a publication of n records just the first n are shown, or for want of memory what was.
pub fn what_is_shown_was_published()
    ensures { (old new : View Deed) (build build' : Build) (shown shown' : List Record) (n : RecordNo)
        → IsTurnShown (Ok (Published n)) old build shown new build' shown'
        → (shown' ≡ take n.0 (records (without_makers new.seen))) ⊎ (shown' ≡ shown) }
{}

/// What a legal history covers begins with what any beginning of it covers: so with whatever was shown of it.
pub fn what_was_covered_stays()
    ensures { (early late : List Deed) → IsLegal late → BeginsWith late early → BeginsWith (covered_records late) (covered_records early) }
{}
