//! Laws of the definitions.
ghost use Rattle.std.specs.Prelude.{◌≡◌, ℕ, true, not, List, [], ◌∷◌, ◌++◌, filter, Some};
ghost use Rattle.std.specs.List.{list_any};
ghost use Rattle.std.specs.List.Sorted.{IsPermutation};
ghost use Rattle.stock_nums.specs.declared.entry.Entry.{Entry};
ghost use Rattle.stock_model.specs.declared.records.Record.{Record};
ghost use Rattle.stock_model.specs.Entries.{entries, entries_after, entries_of, takes_back, is_live, is_live_entry, is_of_record, is_spared, all_entries};
ghost use Rattle.stock_model.specs.Journals.{AreSound};
ghost use Rattle.stock_model.specs.Masters.{record_at};
ghost use Rattle.stock_model.specs.Cancelling.{names_line_of};
ghost use Rattle.stock_model.specs.Formulas.{HaveOneFormula};
ghost use Rattle.stock_model.specs.InOrder.{IsInPostingOrder};
ghost use Rattle.stock_model.specs.PostingOrder.{put_all, posting_line};

/// The posting line of a journal has each of its movements, in posting order, and is the only list that has.
pub fn posting_line_is_the_order()
    ensures in_order { (journal : List Record) → IsInPostingOrder (posting_line journal) }
    ensures complete { (journal : List Record) → IsPermutation (all_entries journal) (posting_line journal) }
    ensures only { (journal : List Record) (line : List Entry) → IsPermutation (all_entries journal) line → IsInPostingOrder line → line ≡ posting_line journal }
{}

/// One more record takes away the movements of the records that it takes back, and brings its own.
pub fn one_more_record()
    ensures line { (journal : List Record) (item : Record) → posting_line (journal ++ item ∷ [])
        ≡ put_all (filter (is_spared item) (posting_line journal)) (entries journal item) }
    ensures entries { (journal : List Record) (item : Record) → all_entries (journal ++ item ∷ []) ≡ filter (is_spared item) (all_entries journal) ++ entries journal item }
{}

/// Further records leave those movements that are in force with them, and bring those of theirs that are.
pub fn further_records()
    ensures { (journal more : List Record) → posting_line (journal ++ more)
        ≡ put_all (filter (is_live_entry (journal ++ more)) (posting_line journal)) (filter (is_live_entry (journal ++ more)) (entries_after journal more)) }
{}

/// Where each record of a journal had no fault, one is in force exactly where no record takes it back, and what a voucher in
/// force names is of vouchers in force.
pub fn what_is_linked_stays()
    ensures live { (journal : List Record) (n : ℕ) → AreSound journal → is_live journal n ≡ not (list_any (takes_back n) journal) }
    ensures linked { (journal : List Record) (k : ℕ) (item : Record) → AreSound journal → record_at journal k ≡ Some item → is_live journal k ≡ true
        → (n : ℕ) → names_line_of n item.what ≡ true → is_live journal n ≡ true }
{}

/// Of the movements of a record that is in force, all are.
pub fn a_record_is_in_force_as_a_whole()
    ensures { (journal : List Record) (n : ℕ) (item : Record) → record_at journal n ≡ Some item → is_live journal n ≡ true
        → filter (is_of_record n) (all_entries journal) ≡ entries_of journal n }
{}

/// Of the movements of a journal, all of one item have one cost formula (IAS 2.25).
pub fn each_item_has_one_formula()
    ensures { (journal : List Record) → HaveOneFormula (posting_line journal) }
{}
