//! What a turn finds: a value for good.
ghost use Rattle.std.specs.Prelude.{List, Contains};
ghost use Rattle.stock_nums.specs.declared.entry.Entry.{Entry};
ghost use Rattle.stock_model.specs.Journals.{AreLegal};
ghost use Rattle.stock_model.specs.LandedCost.{added};
ghost use Rattle.stock_model.specs.PostingOrder.{posting_line};
ghost use Rattle.stock_model.specs.Replay.{replay};
ghost use Rattle.stock_model.specs.declared.records.Record.{Record};
ghost use Rattle.cost_links.specs.Taken.{CanBeTaken};
ghost use Rattle.repost_laws.specs.Builds.{Suspects, IsBuilt, IsFirst};
ghost use Rattle.repost_laws.specs.Valuations.{Found, earlier, taken_from, valuation};

/// The first suspect of a legal journal can be valued, and its valuation is what the replay says of it, however much of what
/// comes later is still suspect.
pub fn the_first_suspect_is_valued_for_good()
    ensures worth { (journal : List Record) (found : Found) (suspects : Suspects) (e : Entry) → AreLegal journal
        → IsBuilt (added journal) (posting_line journal) found suspects → IsFirst (posting_line journal) suspects e
        → Contains (replay journal)
        (record { entry = e; worth = (valuation (added journal) found (posting_line journal) e).worth }) }
    ensures can { (journal : List Record) (found : Found) (suspects : Suspects) (e : Entry) → AreLegal journal
        → IsBuilt (added journal) (posting_line journal) found suspects → IsFirst (posting_line journal) suspects e
        → CanBeTaken (taken_from (added journal) found (earlier (posting_line journal) e) e) e }
{}
