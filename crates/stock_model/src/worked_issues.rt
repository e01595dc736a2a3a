//! Worked examples of issues by moving average, each a law without a premise.
ghost use Rattle.std.specs.Prelude.{◌≡◌, [], ◌∷◌, ◌++◌, take, Some, None};
ghost use Rattle.stock_model.specs.declared.deeds.Deed.TheVariants.{Kept};
ghost use Rattle.stock_model.specs.declared.replies.Reply.TheVariants.{Pending, NoSuchRecord};
ghost use Rattle.stock_model.specs.declared.answers.Answer.TheVariants.{Told, Shown};
ghost use Rattle.stock_model.specs.Reports.{report, selected};
ghost use Rattle.stock_model.specs.Sheets.{balance};
ghost use Rattle.stock_model.specs.Faults.{fault};
ghost use Rattle.stock_model.specs.WorkedIssues.{first, third, fourth, fifth, bought, sold_at, sales, lacks_one, holds, published, balance_of};

/// Three units that cost 100 together are sold one a day, at 33, 34 and 33.
#[tactic(auto, unfolding(crate::specs::Reports::selected, crate::specs::Replay::replay, crate::specs::PostingOrder::posting_line, crate::specs::Entries::cancels, crate::specs::Entries::all_entries, crate::specs::Sheets::balance))]
pub fn balances_of_sales()
    ensures one { balance (balance_of 0) (selected (published (take 4 sales) 4) (balance_of 0)) ≡ holds 2 67 }
    ensures two { balance (balance_of 0) (selected (published (take 5 sales) 5) (balance_of 0)) ≡ holds 1 33 }
    ensures three { balance (balance_of 0) (selected (published sales 6) (balance_of 0)) ≡ holds 0 0 }
{}

/// A further sale on the third is short at the sale of the fifth, and one before anything was bought is
/// short at its own place.
#[tactic(auto, unfolding(crate::specs::Faults::fault, crate::specs::Freezing::frozen, crate::specs::Entries::cancels, crate::specs::Entries::all_entries, crate::specs::PostingOrder::posting_line, crate::specs::Enough::shortage))]
pub fn late_sales()
    ensures accepted { fault (take 5 sales) (sold_at fifth) ≡ None }
    ensures later { fault sales (sold_at third) ≡ Some (lacks_one fifth 6) }
    ensures own { fault sales (sold_at first) ≡ Some (lacks_one first 7) }
{}

/// A report that has to cover a record is answered, pending, or of no such record.
#[tactic(auto, unfolding(crate::specs::Reports::selected, crate::specs::Replay::replay, crate::specs::PostingOrder::posting_line, crate::specs::Entries::cancels, crate::specs::Entries::all_entries, crate::specs::Sheets::balance))]
pub fn needs()
    ensures covered { report (published sales 6 ++ Kept bought ∷ []) (balance_of 6) ≡ Shown (balance_of 6) (selected (published sales 6 ++ Kept bought ∷ []) (balance_of 6)) }
    ensures pending { report (published sales 6 ++ Kept bought ∷ []) (balance_of 7) ≡ Told (Pending (record { 0 = 6 }) (record { 0 = 7 })) [] }
    ensures none { report (published sales 6 ++ Kept bought ∷ []) (balance_of 8) ≡ Told (NoSuchRecord (record { 0 = 7 }) (record { 0 = 8 })) [] }
{}
