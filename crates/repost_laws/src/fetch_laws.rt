//! What a fetch brings where a journal has more records, and what a legal journal is known to hold before a build begins.
ghost use Rattle.std.specs.Prelude.{◌≡◌, ◌+◌, ◌^◌, ◌<◌, List, ◌++◌};
ghost use Rattle.stock_nums.specs.declared.cause.Target.{Target};
ghost use Rattle.stock_model.specs.Enough.{IsEnough};
ghost use Rattle.stock_model.specs.InOrder.{IsInPostingOrder};
ghost use Rattle.stock_model.specs.Journals.{AreLegal};
ghost use Rattle.stock_model.specs.LandedCost.{added};
ghost use Rattle.stock_model.specs.PostingOrder.{posting_line};
ghost use Rattle.stock_model.specs.declared.records.Record.{Record};
ghost use Rattle.cost_links.specs.Charged.{charged_to};
ghost use Rattle.repost_laws.specs.Fetches.{HaveOneMethod, charges_after, is_charged_in};
ghost use Rattle.repost_laws.specs.Touched.{is_charged_by};

/// What more records charge beside what the old ones charge is so small that no sum overflows. They charge something to a line,
/// be it 0, exactly where one of them names it.
pub fn a_longer_journal_has_more_charges()
    ensures named { (journal more : List Record) (line : Target)
        → is_charged_by more line ≡ is_charged_in (charges_after journal more) line }
    ensures fits { (journal more : List Record) (line : Target) → AreLegal (journal ++ more)
        → added journal line + charged_to line (charges_after journal more) < 2 ^ 128 }
{}

/// The first records of a legal journal are one. Its movements stand in posting order, each item in each warehouse has one
/// formula, and there was always enough.
pub fn a_legal_journal_can_be_built()
    ensures front { (journal more : List Record) → AreLegal (journal ++ more) → AreLegal journal }
    ensures enough { (journal : List Record) → AreLegal journal → IsEnough (posting_line journal) }
    ensures one_method { (journal : List Record) → HaveOneMethod (posting_line journal) }
    ensures in_order { (journal : List Record) → IsInPostingOrder (posting_line journal) }
{}
