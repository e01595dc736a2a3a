//! What holds of a change where a journal has more records.
ghost use Rattle.std.specs.Prelude.{◌≡◌, ◌||◌, ◌++◌, Bool, List, length, Contains};
ghost use Rattle.stock_nums.specs.declared.entry.Entry.{Entry};
ghost use Rattle.stock_model.specs.Journals.{AreLegal};
ghost use Rattle.stock_model.specs.LandedCost.{added};
ghost use Rattle.stock_model.specs.PostingOrder.{posting_line};
ghost use Rattle.stock_model.specs.declared.records.Record.{Record};
ghost use Rattle.repost_laws.specs.Builds.{Suspects, IsChange};
ghost use Rattle.repost_laws.specs.Changes.{goes_with, both_lines, is_recharged};
ghost use Rattle.repost_laws.specs.Touched.{is_touched_by};
ghost use Rattle.repost_laws.specs.Valuations.{Found};

/// Where a legal journal has more records, some of which take earlier ones back, and what comes and goes touches becomes suspect,
/// that is a change: without the movements that come all that were there or are there now are those that were there, without
/// those that go they are those that are there now, and only lines that a record that comes or goes charges something to have
/// another sum of charges.
pub fn more_records_are_a_change()
    ensures { (journal more : List Record) (found : Found) (suspects new_suspects : Suspects) → AreLegal (journal ++ more)
        → ((e : Entry) → Contains (posting_line (journal ++ more)) e → new_suspects e.place
        ≡ (suspects e.place || is_touched_by (length journal) (goes_with journal more) (is_recharged journal more) (both_lines journal more) e))
        → IsChange (length journal) (goes_with journal more) (is_recharged journal more) (both_lines journal more) (added journal)
        (posting_line journal) found suspects (added (journal ++ more)) (posting_line (journal ++ more)) found new_suspects }
{}
