//! How many turns a revaluation takes.
ghost use Rattle.std.specs.Prelude.{◌+◌, ◌≤◌, ℕ, List, length, Option, Some, None};
ghost use Rattle.stock_nums.specs.declared.cause.Target.{Target};
ghost use Rattle.stock_nums.specs.declared.entry.Entry.{Entry};
ghost use Rattle.stock_nums.specs.declared.place.Place.{Place};
ghost use Rattle.repost_laws.specs.Builds.{Suspects, IsClean, IsTurn, AreAhead, AreFew};
ghost use Rattle.repost_laws.specs.Valuations.{Found};

/// After a turn all suspects come after the movement that was valued, and right after a fetch none has to.
pub fn turns_go_forward()
    ensures turn { (charged : Target → ℕ) (line : List Entry) (found : Found) (suspects : Suspects) (e : Entry)
        (new_found : Found) (new_suspects : Suspects) → IsTurn charged line found suspects e new_found new_suspects
        → AreAhead line new_suspects (Some e.place) }
    ensures fetch { (line : List Entry) (suspects : Suspects) → AreAhead line suspects None }
{}

/// From one publication to the next there are no more turns than fetches times one more than there were ever movements: a
/// publication starts the count, a fetch adds one to both, and a turn that values adds one turn.
pub fn turns_are_few()
    ensures start { (line : List Entry) (suspects : Suspects) (last : Option Place) (entries : ℕ) → length line ≤ entries
        → IsClean line suspects → AreFew line suspects last entries 0 0 }
    ensures fetch { (line new_line : List Entry) (suspects new_suspects : Suspects) (last : Option Place)
        (entries new_entries fetches turns : ℕ) → entries ≤ new_entries → length new_line ≤ new_entries
        → AreFew line suspects last entries fetches turns
        → AreFew new_line new_suspects None new_entries (fetches + 1) (turns + 1) }
    ensures turn { (charged : Target → ℕ) (line : List Entry) (found : Found) (suspects : Suspects) (e : Entry)
        (new_found : Found) (new_suspects : Suspects) (last : Option Place) (entries fetches turns : ℕ)
        → IsTurn charged line found suspects e new_found new_suspects → AreAhead line suspects last
        → AreFew line suspects last entries fetches turns
        → AreFew line new_suspects (Some e.place) entries fetches (turns + 1) }
{}
