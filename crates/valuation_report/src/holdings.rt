//! What is held of an item in a warehouse, from one movement to the next.

use stock_nums::entry::Row;
use stock_nums::place::Side;

/// What entered and what left, of one item in one warehouse.
#[derive(Clone, Copy)]
pub(crate) struct Holding {
    /// The units that entered, and those that left.
    pub entered: u64,
    pub left: u64,
    /// What those that are held are worth, in minor units.
    pub value: u64,
}

impl Holding {
    ghost use Rattle.std.specs.Prelude.{◌≡◌, ◌-◌, [], IsTrue};
    ghost use Rattle.stock_model.specs.Bounds.{has_value_in_range};
    ghost use Rattle.valuation_report.specs.Holdings.{holding_of, next_holding, HasRoom, AreHeld};

    /// What there is before the first movement.
    pub fn none() -> Holding
        ensures { result ≡ holding_of [] }
    {
        Holding {
            entered: 0,
            left: 0,
            value: 0,
        }
    }

    /// Takes one more movement into account.
    pub fn add(&mut self, row: &Row)
        requires { HasRoom self.old row.now }
        ensures { self.new ≡ next_holding self.old row.now }
    {
        let units = row.entry.qty.0;
        let value = row.worth.value.0.unsigned_abs();
        match row.entry.place.side {
            Side::Enters => {
                self.entered += units;
                self.value += value;
            }
            Side::Leaves => {
                self.left += units;
                self.value -= value;
            }
        }
    }

    /// The units that are held.
    pub fn units(&self) -> u64
        ensures { result ≡ self.now.entered - self.now.left }
    {
        self.entered.saturating_sub(self.left)
    }

    /// What there is after these movements.
    pub fn after(rows: &[Row]) -> Holding
        requires { AreHeld rows.now }
        ensures { result ≡ holding_of rows.now }
    {
        let mut holding = Holding::none();
        for row in rows {
            holding.add(row);
        }
        holding
    }
}
