//! Worked examples of the definitions, each a law without a premise.

ghost use Rattle.std.specs.Prelude.{◌≡◌, ◌-◌, [], ◌∷◌, ◌++◌, None, Some};
ghost use Rattle.stock_nums.specs.HalfUp.{half_up};
ghost use Rattle.stock_model.specs.declared.deeds.Deed.TheVariants.{Published};
ghost use Rattle.stock_model.specs.declared.faults.PostFault.TheVariants.{CodeTaken, UnknownItem};
ghost use Rattle.stock_model.specs.InputLines.{lines_of, asked_lines};
ghost use Rattle.stock_model.specs.Faults.{fault};
ghost use Rattle.stock_model.specs.History.{settled};
ghost use Rattle.stock_model.specs.Reports.{selected};
ghost use Rattle.stock_model.specs.Sheets.{balance};
ghost use Rattle.stock_model.specs.Worked.{item_b, store_w1, receipt_of, first_journal, first_history, balance_sheet, ten_b};

/// The empty input has no line to answer.
pub fn empty_input()
    ensures { asked_lines [] ≡ [] }
{}

/// The lines of `"a\n\n b"` are `a`, the empty line and `b` after a space; the empty one has no reply.
pub fn three_lines()
    ensures lines { lines_of (97 ∷ 10 ∷ 10 ∷ 32 ∷ 98 ∷ []) ≡ (97 ∷ []) ∷ [] ∷ (32 ∷ 98 ∷ []) ∷ [] }
    ensures asked { asked_lines (97 ∷ 10 ∷ 10 ∷ 32 ∷ 98 ∷ []) ≡ (97 ∷ []) ∷ (32 ∷ 98 ∷ []) ∷ [] }
{}

/// An item, a warehouse and a receipt into it are accepted, one after another.
#[tactic(auto, unfolding(crate::specs::Faults::fault, crate::specs::Freezing::frozen, crate::specs::Entries::cancels, crate::specs::Entries::all_entries, crate::specs::PostingOrder::posting_line, crate::specs::Enough::shortage))]
pub fn first_records()
    ensures item { fault [] item_b ≡ None }
    ensures store { fault (item_b ∷ []) store_w1 ≡ None }
    ensures receipt { fault (item_b ∷ store_w1 ∷ []) (receipt_of (66 ∷ [])) ≡ None }
{}

/// An item with a code that is taken, and a receipt of an item that there is not, are refused.
#[tactic(auto, unfolding(crate::specs::Faults::fault, crate::specs::Freezing::frozen, crate::specs::Entries::cancels, crate::specs::Entries::all_entries))]
pub fn first_refusals()
    ensures taken { fault first_journal item_b ≡ Some CodeTaken }
    ensures unknown { fault first_journal (receipt_of (67 ∷ [])) ≡ Some (UnknownItem 1) }
{}

/// The balance sheet before and after the three records are published.
#[tactic(auto, unfolding(crate::specs::Reports::selected, crate::specs::Replay::replay, crate::specs::PostingOrder::posting_line, crate::specs::Entries::cancels, crate::specs::Entries::all_entries, crate::specs::Sheets::balance))]
pub fn first_reports()
    ensures before { balance balance_sheet (selected first_history balance_sheet) ≡ [] }
    ensures published { settled first_history ≡ first_history ++ Published (record { 0 = 3 }) ∷ [] }
    ensures after { balance balance_sheet (selected (settled first_history) balance_sheet) ≡ ten_b ∷ [] }
{}

/// The cost of three single units that cost 100 together, and of parts of two other purchases.
pub fn average_costs()
    ensures first { half_up 100 1 3 ≡ 33 }
    ensures second { half_up (100 - 33) 1 2 ≡ 34 }
    ensures last { half_up (100 - 33 - 34) 1 1 ≡ 33 }
    ensures whole { half_up 10600 10 40 ≡ 2650 }
    ensures part { half_up 1100 4 10 ≡ 440 }
{}
