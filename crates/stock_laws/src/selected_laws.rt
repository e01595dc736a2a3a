//! What holds of all that reports are made from.
ghost use Rattle.stock_model.specs.declared.queries.Query.{Query};
ghost use Rattle.stock_model.specs.declared.queries.Selected.{Selected};
ghost use Rattle.stock_model.specs.Books.{KeepsStock, CanBeShown};
ghost use Rattle.stock_model.specs.Reports.{IsSelected};

/// The ledger keeps the stock: of whatever is selected from a book, the balance of each account of warehouses is what
/// all items are worth in them, the layers of an item in a warehouse are what it is worth there, and all balances sum to
/// nothing, as the lines of each record do.
pub fn the_ledger_keeps_the_stock()
    ensures { (query : Query) (chosen : Selected) → IsSelected query chosen → KeepsStock chosen }
{}

/// Each sheet can be written: no value, stock or balance is too large, and all heads are in order and well named.
pub fn all_can_be_shown()
    ensures { (query : Query) (chosen : Selected) → IsSelected query chosen → CanBeShown chosen }
{}
