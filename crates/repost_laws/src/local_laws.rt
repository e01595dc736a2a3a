//! What it means that each movement is valued from those that it looks at.
ghost use Rattle.std.specs.Prelude.{◌≡◌, ◌+◌, ◌∷◌, ◌++◌, ℕ, List, filter, sum_by};
ghost use Rattle.stock_nums.specs.FirstIn.{next_cost};
ghost use Rattle.stock_nums.specs.declared.cause.Method.{Method};
ghost use Rattle.stock_nums.specs.declared.cause.Target.{Target};
ghost use Rattle.stock_nums.specs.declared.entry.Entry.{Entry};
ghost use Rattle.stock_model.specs.Enough.{entry_key, entry_units};
ghost use Rattle.stock_model.specs.InOrder.{IsInPostingOrder};
ghost use Rattle.stock_model.specs.Journals.{AreLegal};
ghost use Rattle.stock_model.specs.LandedCost.{added};
ghost use Rattle.stock_model.specs.PostingOrder.{posting_line};
ghost use Rattle.stock_model.specs.Replay.{valued, value_next, rows_of, replay};
ghost use Rattle.stock_model.specs.declared.records.Record.{Record};
ghost use Rattle.cost_links.specs.Stocks.{IsAverageOf};
ghost use Rattle.repost_laws.specs.Pieces.{pieces, has_units, piece_value};
ghost use Rattle.repost_laws.specs.Valuations.{Found, found_row, found_rows, last_of_key};
ghost use Rattle.repost_laws.specs.Valuations.{held_then, valuation, AreLocal, found_in_order};

/// What units cost first in, first out is the sum of the parts of what entered: of each movement the part that falls to
/// those of its units that are taken.
pub fn pieces_make_up_the_cost()
    ensures { (value : Entry → ℕ) (es : List Entry) (taken q : ℕ) →
        sum_by (piece_value entry_units value) (filter has_units (pieces entry_units es taken (taken + q)))
        ≡ next_cost entry_units value es taken q }
{}

/// Where what was found of the movements before one is what the replay says of them, its valuation is what the replay says
/// of it: what it is worth, and for an item at the moving average what is held after it.
pub fn one_valuation_is_that_of_the_replay()
    ensures worth { (journal : List Record) (found : Found) (past rest : List Entry) (e : Entry) → AreLegal journal
        → past ++ e ∷ rest ≡ posting_line journal
        → found_rows found past ≡ rows_of journal past
        → (e.method ≡ Method.Average → IsAverageOf (rows_of journal past) (entry_key e)
        (held_then found (last_of_key past (entry_key e))))
        → record { entry = e; worth = (valuation (added journal) found (posting_line journal) e).worth }
        ≡ valued journal (rows_of journal past) e }
    ensures after { (journal : List Record) (found : Found) (past rest : List Entry) (e : Entry) → AreLegal journal
        → past ++ e ∷ rest ≡ posting_line journal
        → found_rows found past ≡ rows_of journal past
        → (e.method ≡ Method.Average → IsAverageOf (rows_of journal past) (entry_key e)
        (held_then found (last_of_key past (entry_key e))))
        → e.method ≡ Method.Average → IsAverageOf (value_next journal (rows_of journal past) e) (entry_key e)
        (valuation (added journal) found (posting_line journal) e).after }
{}

/// Each line in posting order has something found that is local at each movement: what is found where they are valued in
/// their order.
pub fn each_line_has_local_values()
    ensures { (charged : Target → ℕ) (line : List Entry) → IsInPostingOrder line
        → AreLocal charged (found_in_order charged line) line }
{}

/// Where each movement of a legal journal was found to be what it is valued at from what was found of those that it looks
/// at, all that was found is the chronological replay.
pub fn all_local_is_the_replay()
    ensures { (journal : List Record) (found : Found) → AreLegal journal → AreLocal (added journal) found (posting_line journal)
        → found_rows found (posting_line journal) ≡ replay journal }
{}
