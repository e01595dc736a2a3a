//! What lines that ask for turns come to, over many lines. None of it runs: these are facts about runs over lines (`PacedRun`), with
//! their proofs.
ghost use Rattle.std.specs.Prelude.{◌≡◌, ◌+◌, ◌*◌, ◌<◌, ◌≤◌, ℕ, List, All, false};
ghost use Rattle.stock_model.specs.History.{accepted, covered, IsLegal};
ghost use Rattle.stock_model.specs.PostReplies.{TellsStoreFailed};
ghost use Rattle.stock_model.specs.declared.answers.Answer.{Answer};
ghost use Rattle.repost_worker.specs.Paces.{Pace, movements_of, movements_after, IsInPace, IsAtRest};
ghost use Rattle.repost_worker.specs.Published.{KeepsAlone};
ghost use Rattle.voucher_json.specs.Requests.{IsReadAs};
ghost use Rattle.stock_batch.specs.Paces.{PacedRun};
ghost use Rattle.stock_batch.specs.WorkLines.{IsLineAnswered, AsksForTurns, AsksForNoTurns, CountTogether};

/// A worker that is at rest over a legal history, as it is at first and where a ledger is opened, is in pace, and it stays so over
/// any lines.
pub fn lines_keep_the_pace()
    ensures at_first { (first : Pace) → IsAtRest first → IsLegal first.history → IsInPace first }
    ensures stays { (old new : Pace) (lines : List (List ℕ)) (answers : List Answer) → IsInPace old
        → PacedRun (IsReadAs false) old lines answers new → IsInPace new }
{}

/// A line that asks for two turns for each movement, and three more, covers every accepted record, unless the store failed.
pub fn many_turns_cover_all()
    ensures { (old new : Pace) (line : List ℕ) (answer : Answer) (turns : ℕ) → IsLineAnswered old line answer new
        → AsksForTurns line turns → (TellsStoreFailed answer → ⊥) → 2 * movements_of old.history + 3 ≤ turns
        → covered new.history ≡ accepted new.history }
{}

/// While nothing is published, the turns that lines ask for count together, whatever is posted between them and however often the
/// store fails: they come to no more than four for each movement, and four.
pub fn few_turns_are_waited_for()
    ensures few { (old new : Pace) (lines : List (List ℕ)) (answers : List Answer) (turns : ℕ) → IsInPace old
        → CountTogether old lines answers new turns → turns ≤ 4 * movements_of new.history + 4 }

    // So a line publishes that comes with those before it to one more, where records wait and the store does not fail.
    ensures publishes { (old mid new : Pace) (lines : List (List ℕ)) (answers : List Answer) (before turns : ℕ) (line : List ℕ)
        (answer : Answer) → IsInPace old → CountTogether old lines answers mid before → IsLineAnswered mid line answer new
        → AsksForTurns line turns → covered mid.history < accepted mid.history → (TellsStoreFailed answer → ⊥)
        → 4 * movements_of mid.history + 5 ≤ before + turns → KeepsAlone mid.history new.history → ⊥ }
{}

/// Records that were accepted since turns were last asked for are published only by a line that asks for a turn for each of their
/// movements, and for two more. So are those that were not covered when the ledger was opened, where none were asked for since.
pub fn fresh_records_are_revalued()
    ensures since_turns { (old mid new : Pace) (lines : List (List ℕ)) (answers : List Answer) (line : List ℕ) (answer : Answer)
        (turns : ℕ) → IsInPace old → PacedRun (IsReadAs false) old lines answers mid → All AsksForNoTurns lines
        → IsLineAnswered mid line answer new → AsksForTurns line turns → accepted old.history < covered new.history
        → movements_after (accepted old.history) mid.history + 2 ≤ turns }
    ensures since_opening { (first mid new : Pace) (lines : List (List ℕ)) (answers : List Answer) (line : List ℕ) (answer : Answer)
        (turns : ℕ) → IsAtRest first → PacedRun (IsReadAs false) first lines answers mid → All AsksForNoTurns lines
        → IsLineAnswered mid line answer new → AsksForTurns line turns → covered first.history < covered new.history
        → movements_after (covered first.history) mid.history + 2 ≤ turns }
{}
