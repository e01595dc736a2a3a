//! The movements that were valued so far, and what is held of each item in each warehouse after them.
ghost use Rattle.std.specs.Prelude.{◌≡◌, ◌≤◌, [], ◌∷◌, ◌++◌, pos, not, IsTrue, IfOk};
ghost use Rattle.stock_nums.specs.Causes.{is_entering};
ghost use Rattle.stock_nums.specs.declared.cause.Method.{Method};
ghost use Rattle.stock_model.specs.Bounds.{AreBounded};
ghost use Rattle.stock_model.specs.Enough.{entry_key};
ghost use Rattle.stock_model.specs.Sums.{stock_units};
ghost use Rattle.stock_model.specs.Values.{cost_by};
ghost use Rattle.cost_links.specs.Formulas.{HasFormulaAt};
ghost use Rattle.cost_links.specs.Rows.{costed};

use crate::averages::Averages;
use crate::queues::Queues;
use std::alloc::Global;
use std::marker::Model;
use stock_model::shortages::entry_key;
use stock_nums::cause::Method;
use stock_nums::entry::{Entry, Row, Worth};
use stock_nums::lines::Lines;
use stock_nums::memory::NoMemory;
use stock_nums::numbers::Minor;

/// The rows of the movements that were valued so far. What is held after them of each item in each warehouse is
/// kept by the item's formula, so that no row is gone over again. Contracts see the list of the rows.
#[derive(Drop)]
pub(crate) struct Stocks {
    rows: Lines<Row>,
    averages: Averages,
    queues: Queues,
}

impl Model for Stocks {
    ghost use Rattle.std.specs.Prelude.{List};
    ghost use Rattle.stock_nums.specs.declared.entry.Row.{Row};
    ghost use Rattle.cost_links.specs.Stocks.{AreStocksOf};

    ghost Value = { List Row };

    ghost view = { λ stocks. stocks.rows };

    ghost invariant = { λ stocks. AreStocksOf stocks.rows stocks.averages stocks.queues };
}

impl Stocks {
    /// No movement, and nothing held. It takes no memory.
    pub(crate) fn new(alloc: Global) -> Stocks
        ensures { result ≡ [] }
    {
        Stocks {
            rows: Lines::new(alloc),
            averages: Averages::new(alloc),
            queues: Queues::new(alloc),
        }
    }

    /// The rows.
    pub(crate) fn into_rows(self) -> Lines<Row>
        ensures { result ≡ self }
    {
        let Stocks {
            rows,
            averages: _,
            queues: _,
        } = self;
        rows
    }

    /// Adds the row of a movement that enters.
    pub(crate) fn enter(self, alloc: Global, row: Row) -> Result<Stocks, NoMemory>
        requires enters { IsTrue (is_entering row.entry.place.side) }
        requires bounded { AreBounded (self ++ row ∷ []) }
        requires formula { HasFormulaAt row.entry.method self (entry_key row.entry) }
        ensures { IfOk result (λ stocks. stocks ≡ self ++ row ∷ []) }
    {
        match row.entry.method {
            Method::Average => self.enter_at_average(row),
            Method::Fifo => self.enter_last(alloc, row),
        }
    }

    // The same for an item at the moving average.
    fn enter_at_average(self, row: Row) -> Result<Stocks, NoMemory>
        requires average { row.entry.method ≡ Method.Average }
        requires enters { IsTrue (is_entering row.entry.place.side) }
        requires bounded { AreBounded (self ++ row ∷ []) }
        requires formula { HasFormulaAt Method.Average self (entry_key row.entry) }
        ensures { IfOk result (λ stocks. stocks ≡ self ++ row ∷ []) }
    {
        let Stocks {
            mut rows,
            mut averages,
            queues,
        } = self;
        averages.add(entry_key(&row.entry), row.entry.qty, row.worth.value)?;
        rows.push(row)?;
        Ok(Stocks {
            rows,
            averages,
            queues,
        })
    }

    // The same for an item first in, first out.
    fn enter_last(self, alloc: Global, row: Row) -> Result<Stocks, NoMemory>
        requires first_in { row.entry.method ≡ Method.Fifo }
        requires enters { IsTrue (is_entering row.entry.place.side) }
        requires bounded { AreBounded (self ++ row ∷ []) }
        requires formula { HasFormulaAt Method.Fifo self (entry_key row.entry) }
        ensures { IfOk result (λ stocks. stocks ≡ self ++ row ∷ []) }
    {
        let Stocks {
            mut rows,
            averages,
            mut queues,
        } = self;
        queues.push(alloc, entry_key(&row.entry), row.entry.qty, row.worth.value)?;
        rows.push(row)?;
        Ok(Stocks {
            rows,
            averages,
            queues,
        })
    }

    /// Adds the row of a movement that leaves, at what its units cost by the item's formula, and tells that cost.
    pub(crate) fn leave(self, entry: &Entry, share: Minor) -> Result<(Stocks, Minor), NoMemory>
        requires leaves { IsTrue (not (is_entering entry.now.place.side)) }
        requires held { entry.now.qty.0 ≤ stock_units self (entry_key entry.now) }
        requires formula { HasFormulaAt entry.now.method self (entry_key entry.now) }
        ensures rows { IfOk result (λ left. left.0 ≡ self ++ costed self entry.now share ∷ []) }
        ensures cost { IfOk result (λ left. left.1.0 ≡ pos (cost_by entry.now.method self entry.now)) }
    {
        match entry.method {
            Method::Average => self.leave_at_average(entry, share),
            Method::Fifo => self.leave_first(entry, share),
        }
    }

    // The same for an item at the moving average.
    fn leave_at_average(self, entry: &Entry, share: Minor) -> Result<(Stocks, Minor), NoMemory>
        requires average { entry.now.method ≡ Method.Average }
        requires leaves { IsTrue (not (is_entering entry.now.place.side)) }
        requires held { entry.now.qty.0 ≤ stock_units self (entry_key entry.now) }
        requires formula { HasFormulaAt Method.Average self (entry_key entry.now) }
        ensures rows { IfOk result (λ left. left.0 ≡ self ++ costed self entry.now share ∷ []) }
        ensures cost { IfOk result (λ left. left.1.0 ≡ pos (cost_by entry.now.method self entry.now)) }
    {
        let Stocks {
            mut rows,
            mut averages,
            queues,
        } = self;
        let value = averages.take(entry_key(entry), entry.qty)?;
        rows.push(Row {
            entry: *entry,
            worth: Worth { value, share },
        })?;
        let stocks = Stocks {
            rows,
            averages,
            queues,
        };
        Ok((stocks, value))
    }

    // The same for an item first in, first out.
    fn leave_first(self, entry: &Entry, share: Minor) -> Result<(Stocks, Minor), NoMemory>
        requires first_in { entry.now.method ≡ Method.Fifo }
        requires leaves { IsTrue (not (is_entering entry.now.place.side)) }
        requires held { entry.now.qty.0 ≤ stock_units self (entry_key entry.now) }
        requires formula { HasFormulaAt Method.Fifo self (entry_key entry.now) }
        ensures rows { IfOk result (λ left. left.0 ≡ self ++ costed self entry.now share ∷ []) }
        ensures cost { IfOk result (λ left. left.1.0 ≡ pos (cost_by entry.now.method self entry.now)) }
    {
        let Stocks {
            mut rows,
            averages,
            mut queues,
        } = self;
        let value = queues.take(entry_key(entry), entry.qty);
        rows.push(Row {
            entry: *entry,
            worth: Worth { value, share },
        })?;
        let stocks = Stocks {
            rows,
            averages,
            queues,
        };
        Ok((stocks, value))
    }
}
