//! Laws of the sheets.
ghost use Rattle.std.specs.Prelude.{◌≡◌, List, AllPairs, Contains};
ghost use Rattle.stock_nums.specs.declared.entry.Key.{Key};
ghost use Rattle.stock_nums.specs.declared.entry.Row.{Row};
ghost use Rattle.stock_model.specs.Sheets.{IsKeyBefore, HasKey, keys_of};

/// The keys of a sheet are ascending, each once, by the item's number and then by the warehouse's, and they are
/// exactly those of the rows. No other list is so.
pub fn keys_are_those_of_the_rows()
    ensures ascending { (rows : List Row) → AllPairs IsKeyBefore (keys_of rows) }
    ensures of_rows { (rows : List Row) (key : Key) → Contains (keys_of rows) key → HasKey rows key }
    ensures complete { (rows : List Row) (key : Key) → HasKey rows key → Contains (keys_of rows) key }
    ensures only { (rows : List Row) (keys : List Key) → AllPairs IsKeyBefore keys
        → ((key : Key) → Contains keys key → HasKey rows key) → ((key : Key) → HasKey rows key → Contains keys key)
        → keys ≡ keys_of rows }
{}
