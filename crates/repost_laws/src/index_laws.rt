//! What an index of movements by item and warehouse has to answer, so that a turn finds what it looks at and what it marks.
ghost use Rattle.std.specs.Prelude.{◌≡◌, ◌+◌, ◌↔◌, false, List, Some, Contains, filter};
ghost use Rattle.stock_nums.specs.Causes.{is_entering};
ghost use Rattle.stock_nums.specs.declared.cause.Method.{Method};
ghost use Rattle.stock_nums.specs.declared.entry.Entry.{Entry};
ghost use Rattle.stock_model.specs.Enough.{entry_key, enters_under, entry_units, IsEnough};
ghost use Rattle.stock_model.specs.InOrder.{IsInPostingOrder};
ghost use Rattle.repost_laws.specs.Pieces.{pieces, has_units};
ghost use Rattle.repost_laws.specs.Ranges.{units_out_before, RangesMeet};
ghost use Rattle.repost_laws.specs.Touched.{next_of_key, TakesFrom};
ghost use Rattle.repost_laws.specs.Valuations.{earlier, last_of_key, sources};

/// In posting order a movement is the last one before another of the same item in the same warehouse exactly where that other
/// is the next one after it. So what starts from a movement is found by the next one.
pub fn the_next_follows_the_last()
    ensures { (line : List Entry) (e g : Entry) → IsInPostingOrder line → Contains line e → Contains line g →
        (last_of_key (earlier line e) (entry_key e) ≡ Some g) ↔ (next_of_key line g ≡ Some e) }
{}

/// What leaves first in, first out takes the units with its numbers among all that ever entered, later movements too, where
/// there was always enough.
pub fn later_ones_give_nothing()
    ensures { (line : List Entry) (e : Entry) → IsInPostingOrder line → IsEnough line → Contains line e
        → is_entering e.place.side ≡ false → e.method ≡ Method.Fifo → sources (earlier line e) e
        ≡ filter has_units (pieces entry_units (filter (enters_under (entry_key e)) line)
        (units_out_before line e) (units_out_before line e + e.qty.0)) }
{}

/// And it takes value over from a movement exactly where that one brought a unit with such a number.
pub fn ranges_tell_what_takes_from_what()
    ensures { (line : List Entry) (e g : Entry) → IsInPostingOrder line → IsEnough line → Contains line e → Contains line g
        → is_entering e.place.side ≡ false → e.method ≡ Method.Fifo → TakesFrom line g.place e ↔ RangesMeet line g e }
{}
