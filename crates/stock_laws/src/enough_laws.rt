//! Laws of the first shortage.
ghost use Rattle.std.specs.Prelude.{◌≡◌, ◌<◌, List, [], ◌∷◌, ◌++◌, Some, None};
ghost use Rattle.stock_nums.specs.declared.entry.Entry.{Entry};
ghost use Rattle.stock_model.specs.declared.shortages.Shortage.{Shortage};
ghost use Rattle.stock_model.specs.Enough.{entry_key, entered, departed, IsEnough, shortage_at, shortage};

/// No shortage is named exactly where at every prefix, and for each item and warehouse, what left is at
/// most what entered.
pub fn no_shortage_is_enough()
    ensures enough { (es : List Entry) → shortage es ≡ None → IsEnough es }
    ensures none { (es : List Entry) → IsEnough es → shortage es ≡ None }
{}

/// A shortage that is named is of the first movement with which there is not enough.
pub fn shortage_is_the_first()
    ensures { (es : List Entry) (s : Shortage) → shortage es ≡ Some s →
        (past : List Entry) × (e : Entry) × (rest : List Entry) × (es ≡ past ++ e ∷ rest) × IsEnough past
        × (entered (past ++ e ∷ []) (entry_key e) < departed (past ++ e ∷ []) (entry_key e))
        × (s ≡ shortage_at past e) }
{}
