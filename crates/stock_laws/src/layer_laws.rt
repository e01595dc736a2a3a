//! What the layers sheet has to do with what entered and what left.
ghost use Rattle.std.specs.Prelude.{◌≡◌, ◌+◌, List, sum_by};
ghost use Rattle.stock_nums.specs.declared.entry.Key.{Key};
ghost use Rattle.stock_nums.specs.declared.head.Head.{Head};
ghost use Rattle.stock_model.specs.declared.records.Record.{Record};
ghost use Rattle.stock_model.specs.Enough.{IsEnough};
ghost use Rattle.stock_model.specs.Layers.{layer_rows, shown_units, shown_value};
ghost use Rattle.stock_model.specs.PostingOrder.{posting_line};
ghost use Rattle.stock_model.specs.Replay.{replay};
ghost use Rattle.stock_model.specs.Sums.{quantity_in, quantity_out, value_in, value_out};

/// Of each item in each warehouse, what entered less what left is what its layers have left, in units and in
/// value, and where no units are left no value is. So it is with every journal of which there was always enough.
pub fn layers_are_what_is_left()
    ensures units { (journal : List Record) (heads : List Head) (key : Key) → IsEnough (posting_line journal) →
        quantity_out (replay journal) key + sum_by shown_units (layer_rows heads (replay journal) key) ≡ quantity_in (replay journal) key }
    ensures value { (journal : List Record) (heads : List Head) (key : Key) → IsEnough (posting_line journal) →
        value_out (replay journal) key + sum_by shown_value (layer_rows heads (replay journal) key) ≡ value_in (replay journal) key }
    ensures nothing { (journal : List Record) (key : Key) → IsEnough (posting_line journal) →
        quantity_in (replay journal) key ≡ quantity_out (replay journal) key → value_in (replay journal) key ≡ value_out (replay journal) key }
{}
