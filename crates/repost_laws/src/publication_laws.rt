//! What a publication changes.
ghost use Rattle.std.specs.Prelude.{◌≡◌, ◌≤◌, ◌++◌, ℕ, Bool, true, false, List, length, filter, Contains};
ghost use Rattle.stock_nums.specs.declared.cause.Target.{Target};
ghost use Rattle.stock_nums.specs.declared.entry.Entry.{Entry};
ghost use Rattle.stock_nums.specs.declared.place.Place.{Place};
ghost use Rattle.stock_model.specs.Journals.{AreLegal};
ghost use Rattle.stock_model.specs.LandedCost.{added};
ghost use Rattle.stock_model.specs.PostingOrder.{posting_line};
ghost use Rattle.stock_model.specs.Replay.{replay};
ghost use Rattle.stock_model.specs.declared.records.Record.{Record};
ghost use Rattle.repost_laws.specs.Builds.{Suspects, IsBuilt, IsClean, IsTurn};
ghost use Rattle.repost_laws.specs.Builds.{IsChange, ValuedSince, IsValuedAt, IsSince, is_as_published, is_row_left};
ghost use Rattle.repost_laws.specs.Changes.{goes_with};
ghost use Rattle.repost_laws.specs.Valuations.{Found};

/// From a publication on it is known where what was found may differ from what was published: at the places that were valued
/// since, and at those of movements that came. A publication starts so, and changes and turns keep it.
pub fn what_was_valued_since_is_known()
    ensures start { (journal : List Record) (found : Found) (suspects : Suspects) (valued : ValuedSince) → AreLegal journal
        → ((place : Place) → valued place ≡ false)
        → IsSince (length journal) found (posting_line journal) found suspects valued }
    ensures change { (n m : ℕ) (published : Found) (gone : ℕ → Bool) (is_charged : Target → Bool) (both : List Entry)
        (charged : Target → ℕ) (line : List Entry) (found : Found) (suspects : Suspects) (new_charged : Target → ℕ)
        (new_line : List Entry) (new_found : Found) (new_suspects : Suspects) (valued : ValuedSince) → n ≤ m
        → IsChange m gone is_charged both charged line found suspects new_charged new_line new_found new_suspects
        → IsSince n published line found suspects valued → IsSince n published new_line new_found new_suspects valued }
    ensures turn { (n : ℕ) (published : Found) (charged : Target → ℕ) (line : List Entry) (found : Found)
        (suspects : Suspects) (e : Entry) (new_found : Found) (new_suspects : Suspects) (valued new_valued : ValuedSince)
        → IsTurn charged line found suspects e new_found new_suspects → IsValuedAt valued new_valued e.place
        → IsSince n published line found suspects valued → IsSince n published line new_found new_suspects new_valued }
{}

/// Where there is no suspect, the replay of a journal with more records has the rows of the replay that was published but for
/// those of movements that go, and for those at places that were valued since.
pub fn a_publication_changes_what_goes_and_what_was_valued()
    ensures { (journal more : List Record) (published found : Found) (suspects first_suspects : Suspects)
        (valued : ValuedSince) → AreLegal journal → AreLegal (journal ++ more)
        → IsBuilt (added journal) (posting_line journal) published first_suspects
        → IsClean (posting_line journal) first_suspects
        → IsBuilt (added (journal ++ more)) (posting_line (journal ++ more)) found suspects
        → IsClean (posting_line (journal ++ more)) suspects
        → IsSince (length journal) published (posting_line (journal ++ more)) found suspects valued
        → filter (is_as_published valued) (replay (journal ++ more))
        ≡ filter (is_as_published valued) (filter (is_row_left (goes_with journal more)) (replay journal)) }
{}
