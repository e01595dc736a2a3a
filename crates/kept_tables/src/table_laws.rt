//! What holds of the tables of a history. None of it runs: these are facts, with their proofs.
ghost use Rattle.std.specs.Prelude.{◌≡◌, ◌⊎◌, ℕ, ◌+◌, ◌<◌, ◌≤◌, List, [], ◌∷◌, ◌++◌, length, take, slice_get, IsUtf8};
ghost use Rattle.stock_nums.specs.declared.entry.Row.{Row};
ghost use Rattle.stock_nums.specs.declared.numbers.RecordNo.{RecordNo};
ghost use Rattle.stock_nums.specs.declared.place.Spot.{Spot};
ghost use Rattle.stock_model.specs.Faults.{fault};
ghost use Rattle.stock_model.specs.History.{records, accepted, covered, IsLegal};
ghost use Rattle.stock_model.specs.Journals.{AreLegal};
ghost use Rattle.stock_model.specs.declared.deeds.Deed.{Deed};
ghost use Rattle.stock_model.specs.declared.deeds.Deed.TheVariants.{Kept, Published};
ghost use Rattle.stock_model.specs.declared.records.Record.{Record};
ghost use Rattle.repost_fetch.specs.Changes.{AreChanges};
ghost use Rattle.stock_keeper.specs.Changed.{new_tables, stored, appended, published, Follows, CoversMore, CoversRecords};
ghost use Rattle.stock_keeper.specs.Worths.{AreInOrder};
ghost use Rattle.stock_keeper.specs.declared.tables.StoredRecord.{StoredRecord};
ghost use Rattle.stock_keeper.specs.declared.tables.Tables.{Tables};
ghost use Rattle.voucher_json.specs.RecordTexts.{record_text};
ghost use Rattle.kept_tables.specs.Openings.{AreUtf8, AreStored, IsBadRecord, IsFaultOf, IsOpened, opening};
ghost use Rattle.kept_tables.specs.TablesOf.{tables_of, changes_of};
ghost use Rattle.kept_tables.specs.declared.open_fault.OpenFault.{OpenFault};

/// The tables of the empty history are new ones. A record that is accepted is appended under the next number: where no more was
/// covered than there is, as in a legal history, it changes no worth.
pub fn a_record_is_appended()
    ensures new { tables_of [] ≡ new_tables }
    ensures follows { (history : List Deed) → Follows (tables_of history) (record { 0 = accepted history + 1 }) }
    ensures appended { (history : List Deed) (item : Record) → IsLegal history
        → appended (record { 0 = accepted history + 1 }) (record_text item) (tables_of history) ≡ tables_of (history ++ Kept item ∷ []) }
{}

/// A publication puts the worths of the changed rows in, and takes those out that are gone. The worths stand by record, line and side, each spot once.
pub fn a_publication_puts_worths_in()
    ensures in_order { (history : List Deed) → AreInOrder (tables_of history).worths }
    ensures more { (history : List Deed) (n : RecordNo) → covered history < n.0 → CoversMore (tables_of history) n }
    ensures within { (history : List Deed) (n : RecordNo) → n.0 ≤ accepted history → CoversRecords (tables_of history) n }
    ensures published { (history : List Deed) (n : RecordNo) (changed : List Row) (spots : List Spot) → IsLegal history
        → covered history < n.0 → n.0 ≤ accepted history
        → AreChanges (take n.0 (records history)) (covered history) changed spots
        → published n (changes_of changed spots) (tables_of history) ≡ tables_of (history ++ Published n ∷ []) }
{}

/// Stored records are opened one by one. None are at first. The next one, kept as a record without a fault at its place, is one
/// more; kept as one with a fault, where no other record has its text, it is bad.
pub fn stored_records_are_opened_one_by_one()
    ensures none { (t : Tables) → AreStored [] t }
    ensures more { (t : Tables) (items : List Record) (item : Record) (kept : StoredRecord) → AreStored items t
        → slice_get t.records (length items) ≡ Some kept
        → kept ≡ stored (record { 0 = length items + 1 }) (record_text item)
        → fault items item ≡ None → AreStored (items ++ item ∷ []) t }
    ensures faulty { (items : List Record) (item : Record) (kept : StoredRecord)
        → kept ≡ stored (record { 0 = length items + 1 }) (record_text item)
        → ((other : Record) → IsUtf8 (record_text other) → record_text other ≡ record_text item → other ≡ item)
        → (fault items item ≡ None → ⊥) → IsBadRecord items kept }
{}

/// The tables of a legal history whose records have texts in UTF-8 have no fault of their own: only a keeper that fails or want
/// of memory can keep them from being opened. Opened tables are those of a legal history.
pub fn tables_of_a_legal_history_open()
    ensures none { (history : List Deed) (f : OpenFault) → IsLegal history → AreUtf8 (records history)
        → IsFaultOf (tables_of history) f → (f ≡ OpenFault.KeeperFailed) ⊎ (f ≡ OpenFault.NoMemory) }
    ensures opened { (t : Tables) (items : List Record) (covered : ℕ) → IsOpened t items covered
        → tables_of (opening items covered) ≡ t }
    ensures legal { (items : List Record) (covered : ℕ) → AreLegal items → covered ≤ length items
        → IsLegal (opening items covered) }
{}
