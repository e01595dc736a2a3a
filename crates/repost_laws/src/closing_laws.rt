//! What closing the past promises.
ghost use Rattle.std.specs.Prelude.{◌≡◌, ◌++◌, List, Some, filter};
ghost use Rattle.stock_nums.specs.declared.moment.Moment.{Moment};
ghost use Rattle.stock_model.specs.Freezing.{frozen};
ghost use Rattle.stock_model.specs.Journals.{AreLegal};
ghost use Rattle.stock_model.specs.Replay.{replay};
ghost use Rattle.stock_model.specs.Reports.{is_until};
ghost use Rattle.stock_model.specs.declared.records.Record.{Record};

/// The rows of closed moments stay: where the records of a journal close the past up to a moment, the replay with whatever
/// records are accepted after them has just the rows up to that moment that it had, with the same values.
pub fn closed_rows_stay()
    ensures { (journal more : List Record) (until : Moment) → AreLegal (journal ++ more) → frozen journal ≡ Some until
        → filter (is_until (Some until)) (replay (journal ++ more)) ≡ filter (is_until (Some until)) (replay journal) }
{}
