//! What a verdict says of the replay of the published records. None of it runs: these are facts, with their proofs.
ghost use Rattle.std.specs.Prelude.{◌≡◌, ◌≢◌, ℕ, List, Option, length, take};
ghost use Rattle.stock_nums.specs.declared.entry.Worth.{Worth};
ghost use Rattle.stock_nums.specs.declared.numbers.RecordNo.{RecordNo};
ghost use Rattle.stock_nums.specs.declared.place.Spot.{Spot};
ghost use Rattle.stock_model.specs.Accounts.{balances};
ghost use Rattle.stock_model.specs.Masters.{heads};
ghost use Rattle.stock_model.specs.Replay.{replay};
ghost use Rattle.stock_model.specs.declared.ledger_lines.Balance.{Balance};
ghost use Rattle.stock_model.specs.declared.records.Record.{Record};
ghost use Rattle.stock_keeper.specs.Worths.{AreInOrder};
ghost use Rattle.stock_keeper.specs.declared.tables.Tables.{Tables};
ghost use Rattle.kept_tables.specs.Differences.{worth_at};
ghost use Rattle.kept_tables.specs.Openings.{IsOpened};
ghost use Rattle.kept_tables.specs.TablesOf.{worths_of};
ghost use Rattle.generation_audit.specs.Sound.{AreWorthsOf};
ghost use Rattle.generation_audit.specs.Verdicts.{AreRead, IsVerdictOn};
ghost use Rattle.generation_audit.specs.declared.verdict.Verdict.{Verdict};

/// Tables that are found sound hold so many records, each without a fault at its place, and the worths of the replay of the
/// covered ones, each once. The balances are those of the accounts over that replay. Where the worths stand by record, line and
/// side, as a keeper gives them, such tables are opened.
pub fn sound_worths_are_the_replay()
    ensures read { (t : Tables) (records : ℕ) (covered : RecordNo) (accounts : List Balance) → IsVerdictOn t (Verdict.Sound records covered accounts)
        → (items : List Record) × AreRead t items covered.0 × (records ≡ length items)
        × AreWorthsOf (replay (take covered.0 items)) t.worths
        × (accounts ≡ balances (heads (take covered.0 items)) (replay (take covered.0 items))) }
    ensures opened { (t : Tables) (records : ℕ) (covered : RecordNo) (accounts : List Balance) → IsVerdictOn t (Verdict.Sound records covered accounts)
        → AreInOrder t.worths → (items : List Record) × IsOpened t items covered.0 }
{}

/// Where a difference is told of worths that stand by record, line and side, at its spot another worth is stored than the replay
/// of the covered records has, or one of the two has none.
pub fn what_differs_is_not_the_replay()
    ensures { (t : Tables) (spot : Spot) (stored due : Option Worth) → IsVerdictOn t (Verdict.Differs spot stored due) → AreInOrder t.worths
        → (items : List Record) × (covered : ℕ) × AreRead t items covered
        × (stored ≡ worth_at t.worths spot)
        × (worth_at t.worths spot ≢ worth_at (worths_of (replay (take covered items))) spot) }
{}
