//! What a build keeps from its start on: through each fetch, turn and publication.
ghost use Rattle.std.specs.Prelude.{◌≡◌, ◌+◌, ◌*◌, ◌≤◌, ◌||◌, ◌++◌, ℕ, [], List, length, take, drop, filter, Contains};
ghost use Rattle.stock_nums.specs.declared.entry.Entry.{Entry};
ghost use Rattle.stock_model.specs.Journals.{AreLegal};
ghost use Rattle.stock_model.specs.LandedCost.{added};
ghost use Rattle.stock_model.specs.PostingOrder.{posting_line};
ghost use Rattle.stock_model.specs.Replay.{replay};
ghost use Rattle.stock_model.specs.declared.records.Record.{Record};
ghost use Rattle.repost_laws.specs.Builds.{Suspects, IsClean, IsTurn, ValuedSince, IsValuedAt, is_as_published, is_row_left};
ghost use Rattle.repost_laws.specs.Changes.{goes_with, both_lines, is_recharged};
ghost use Rattle.repost_laws.specs.Touched.{is_touched_by};
ghost use Rattle.repost_laws.specs.Valuations.{Found, nothing_found, found_rows};
ghost use Rattle.repost_laws.specs.WholeBuilds.{IsBuildOf, made, none_suspect, none_valued};

/// A build starts with no record. It stays one where records are fetched and what they touch becomes suspect, also where they
/// take movements away, where the first suspect is valued, and where no suspect is left and all is published.
pub fn a_build_stays_one()
    ensures start { IsBuildOf [] 0 nothing_found none_suspect none_valued 0 0 }
    ensures change { (journal more : List Record) (n : ℕ) (found : Found) (suspects new_suspects : Suspects)
        (valued : ValuedSince) (fetches turns : ℕ) → IsBuildOf journal n found suspects valued fetches turns
        → AreLegal (journal ++ more)
        → ((e : Entry) → Contains (posting_line (journal ++ more)) e → new_suspects e.place
        ≡ (suspects e.place || is_touched_by (length journal) (goes_with journal more) (is_recharged journal more) (both_lines journal more) e))
        → IsBuildOf (journal ++ more) n found new_suspects valued (fetches + 1) (turns + 1) }
    ensures turn { (journal : List Record) (n : ℕ) (found new_found : Found) (suspects new_suspects : Suspects)
        (valued new_valued : ValuedSince) (e : Entry) (fetches turns : ℕ)
        → IsBuildOf journal n found suspects valued fetches turns
        → IsTurn (added journal) (posting_line journal) found suspects e new_found new_suspects
        → IsValuedAt valued new_valued e.place
        → IsBuildOf journal n new_found new_suspects new_valued fetches (turns + 1) }
    ensures publication { (journal : List Record) (n : ℕ) (found : Found) (suspects : Suspects) (valued : ValuedSince)
        (fetches turns : ℕ) → IsBuildOf journal n found suspects valued fetches turns → IsClean (posting_line journal) suspects
        → IsBuildOf journal (length journal) found suspects none_valued 0 0 }
{}

/// Since the last publication there were no more turns than fetches times one more than there were ever movements.
pub fn a_build_takes_few_turns()
    ensures { (journal : List Record) (n : ℕ) (found : Found) (suspects : Suspects) (valued : ValuedSince)
        (fetches turns : ℕ) → IsBuildOf journal n found suspects valued fetches turns
        → turns ≤ fetches * (made journal + 1) }
{}

/// Where no suspect is left, all that was found is the replay of the build's journal, whatever fetches came between, and of the
/// movements that were not valued since the last publication it is what was published.
pub fn a_clean_build_leads_on()
    ensures replay { (journal : List Record) (n : ℕ) (found : Found) (suspects : Suspects) (valued : ValuedSince)
        (fetches turns : ℕ) → IsBuildOf journal n found suspects valued fetches turns → IsClean (posting_line journal) suspects
        → found_rows found (posting_line journal) ≡ replay journal }
    ensures changed { (journal : List Record) (n : ℕ) (found : Found) (suspects : Suspects) (valued : ValuedSince)
        (fetches turns : ℕ) → IsBuildOf journal n found suspects valued fetches turns → IsClean (posting_line journal) suspects
        → filter (is_as_published valued) (replay journal)
        ≡ filter (is_as_published valued) (filter (is_row_left (goes_with (take n journal) (drop n journal))) (replay (take n journal))) }
{}
