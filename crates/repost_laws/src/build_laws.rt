//! What holds from turn to turn while a revaluation is built.
ghost use Rattle.std.specs.Prelude.{◌≡◌, ℕ, Bool, List, IsTrue};
ghost use Rattle.stock_nums.specs.Places.{is_before};
ghost use Rattle.stock_nums.specs.declared.cause.Target.{Target};
ghost use Rattle.stock_nums.specs.declared.entry.Entry.{Entry};
ghost use Rattle.stock_nums.specs.declared.place.Place.{Place};
ghost use Rattle.stock_model.specs.InOrder.{IsInPostingOrder};
ghost use Rattle.stock_model.specs.Journals.{AreLegal};
ghost use Rattle.stock_model.specs.LandedCost.{added};
ghost use Rattle.stock_model.specs.PostingOrder.{posting_line};
ghost use Rattle.stock_model.specs.Replay.{replay};
ghost use Rattle.stock_model.specs.declared.records.Record.{Record};
ghost use Rattle.repost_laws.specs.Builds.{Suspects, IsBuilt, IsClean, IsFetch, IsChange, IsTurn};
ghost use Rattle.repost_laws.specs.Touched.{SpreadsTo};
ghost use Rattle.repost_laws.specs.Valuations.{Found, found_rows};

/// What a movement's value spreads to lies later, so that no movement spreads to itself, and what was passed stays passed.
pub fn values_spread_forward()
    ensures { (line : List Entry) (place : Place) (e : Entry) → SpreadsTo line place e → IsTrue (is_before place e.place) }
{}

/// A fetch of records changes the value of no movement that they do not touch: where each movement that was not suspect was
/// found to be what it is valued at, so it is with the new records, of each that is now not suspect.
pub fn a_fetch_keeps_what_is_built()
    ensures { (n : ℕ) (is_charged : Target → Bool) (charged : Target → ℕ) (line : List Entry) (suspects : Suspects)
        (new_charged : Target → ℕ) (new_line : List Entry) (new_suspects : Suspects) (found : Found) →
        IsFetch n is_charged charged line suspects new_charged new_line new_suspects
        → IsBuilt charged line found suspects → IsBuilt new_charged new_line found new_suspects }
{}

/// Where records come and others go, no movement that stays and that they do not touch changes its value: what holds from turn
/// to turn of the movements that were there, holds of those that are there now.
pub fn a_change_keeps_what_is_built()
    ensures { (n : ℕ) (gone : ℕ → Bool) (is_charged : Target → Bool) (both : List Entry) (charged : Target → ℕ)
        (line : List Entry) (found : Found) (suspects : Suspects) (new_charged : Target → ℕ) (new_line : List Entry)
        (new_found : Found) (new_suspects : Suspects)
        → IsChange n gone is_charged both charged line found suspects new_charged new_line new_found new_suspects
        → IsBuilt charged line found suspects → IsBuilt new_charged new_line new_found new_suspects }
{}

/// And so does a turn that values one suspect and marks those that its value spreads to, where the value changed.
pub fn a_turn_keeps_what_is_built()
    ensures { (charged : Target → ℕ) (line : List Entry) (found : Found) (suspects : Suspects) (e : Entry)
        (new_found : Found) (new_suspects : Suspects) → IsInPostingOrder line
        → IsTurn charged line found suspects e new_found new_suspects
        → IsBuilt charged line found suspects → IsBuilt charged line new_found new_suspects }
{}

/// Where there is no suspect, all that was found of a legal journal is the chronological replay.
pub fn a_clean_build_is_the_replay()
    ensures { (journal : List Record) (found : Found) (suspects : Suspects) → AreLegal journal
        → IsBuilt (added journal) (posting_line journal) found suspects → IsClean (posting_line journal) suspects
        → found_rows found (posting_line journal) ≡ replay journal }
{}
