//! Where the value is that was received.
ghost use Rattle.std.specs.Prelude.{◌≡◌, ◌+◌, ◌≤◌, ℕ, List, take};
ghost use Rattle.stock_nums.specs.declared.entry.Key.{Key};
ghost use Rattle.stock_model.specs.declared.records.Record.{Record};
ghost use Rattle.stock_model.specs.Conservation.{received, purchases, charges, in_stock, sent, arrived, in_transit, sold, came_back, cost_of_sales, used, given_back};
ghost use Rattle.stock_model.specs.Journals.{AreLegal};
ghost use Rattle.stock_model.specs.Replay.{replay};
ghost use Rattle.stock_model.specs.Sums.{value_in, value_out};

/// After any number of movements of a legal journal, in posting order, no value is made or lost. What was received,
/// at its purchase prices and with its landed charges (IAS 2.10), is in stock, on its way between two warehouses, or
/// an expense: the cost of what was sold and has not come back, and of what was used (IAS 2.34), or it went back to
/// suppliers. Each of these is a true difference: no more arrives than was sent, no more comes back than was sold, and
/// no warehouse's stock of an item is worth less than nothing.
pub fn value_is_conserved()
    ensures conserved { (journal : List Record) (n : ℕ) → AreLegal journal →
        received (take n (replay journal))
        ≡ in_stock (take n (replay journal)) + in_transit (take n (replay journal)) + cost_of_sales (take n (replay journal))
        + used (take n (replay journal)) + given_back (take n (replay journal)) }
    ensures transfers { (journal : List Record) (n : ℕ) → AreLegal journal → arrived (take n (replay journal)) ≤ sent (take n (replay journal)) }
    ensures sales { (journal : List Record) (n : ℕ) → AreLegal journal → came_back (take n (replay journal)) ≤ sold (take n (replay journal)) }
    ensures stocks { (journal : List Record) (n : ℕ) (key : Key) → AreLegal journal → value_out (take n (replay journal)) key ≤ value_in (take n (replay journal)) key }

    // What was received is worth no more than its purchase prices and all landed charges of the journal.
    ensures prices { (journal : List Record) (n : ℕ) → AreLegal journal → received (take n (replay journal)) ≤ purchases (take n (replay journal)) + charges journal }
{}
