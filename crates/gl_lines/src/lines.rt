//! The lines of the general ledger that one movement makes.
ghost use Rattle.std.specs.Prelude.{◌≡◌, ◌++◌, ◌-◌, ◌≤◌, pos, length, int_le, option_to_list, slice_get, unsigned_abs, IsTrue};
ghost use Rattle.stock_model.specs.Books.{has_lines};
ghost use Rattle.stock_model.specs.LedgerLines.{debit, credit, gl_lines};

use std::marker::Model;
use stock_model::ledger_lines::{
    COST_OF_GOODS_SOLD, GlLine, LANDED_CHARGES, RECEIVED_NOT_BILLED, STOCK_ADJUSTMENT,
};
use stock_nums::cause::Cause;
use stock_nums::entry::Row;
use stock_nums::numbers::{AccountNo, Minor};

/// The lines of the general ledger that a movement makes: at most three. Contracts see the list of them.
#[derive(Drop)]
pub struct GlLines {
    pub(crate) first: Option<GlLine>,
    pub(crate) second: Option<GlLine>,
    pub(crate) third: Option<GlLine>,
}

impl Model for GlLines {
    ghost use Rattle.std.specs.Prelude.{List, ◌++◌, option_to_list};
    ghost use Rattle.stock_model.specs.declared.ledger_lines.GlLine.{GlLine};
    ghost use Rattle.gl_lines.specs.Packed.{IsPacked};

    ghost Value = { List GlLine };

    ghost view = { λ lines. option_to_list lines.first ++ (option_to_list lines.second ++ option_to_list lines.third) };

    ghost invariant = { λ lines. IsPacked lines.first lines.second lines.third };
}

impl GlLines {
    /// The line at this place, counted from 0. None exactly where there is no such place. It takes no memory.
    pub fn at(&self, place: usize) -> Option<GlLine>
        ensures { result ≡ slice_get self.now place }
    {
        match place {
            0 => self.first,
            1 => self.second,
            2 => self.third,
            _ => None,
        }
    }

    /// The lines that there are, in this order.
    fn of(first: Option<GlLine>, second: Option<GlLine>, third: Option<GlLine>) -> GlLines
        ensures lines { result ≡ option_to_list first ++ (option_to_list second ++ option_to_list third) }
        ensures few { length result ≤ 3 }
    {
        match (first, second) {
            (Some(_), Some(_)) => GlLines {
                first,
                second,
                third,
            },
            (Some(_), None) => GlLines {
                first,
                second: third,
                third: None,
            },
            (None, Some(_)) => GlLines {
                first: second,
                second: third,
                third: None,
            },
            (None, None) => GlLines {
                first: third,
                second: None,
                third: None,
            },
        }
    }
}

/// The lines of the general ledger that a valued movement makes, whose warehouse has this account. It takes no memory.
pub fn lines_of(row: &Row, account: AccountNo) -> GlLines
    requires { IsTrue (has_lines row.now) }
    ensures lines { result ≡ gl_lines account.0 row.now }
    ensures few { length result ≤ 3 }
{
    let stock = account.0;
    let value = row.worth.value.0;
    let share = row.worth.share.0;
    match row.entry.cause {
        Cause::Receipt { amount: _ } => receipt(stock, value, share),
        Cause::Issue { sold: true } => {
            GlLines::of(credit(stock, value), debit(COST_OF_GOODS_SOLD, value), None)
        }
        Cause::Issue { sold: false } => {
            GlLines::of(credit(stock, value), debit(STOCK_ADJUSTMENT, value), None)
        }
        Cause::TransferLeaves => GlLines::of(credit(stock, value), None, None),
        Cause::TransferEnters => GlLines::of(debit(stock, value), None, None),
        Cause::CustomerReturn {
            target: _,
            issued: _,
        } => GlLines::of(debit(stock, value), credit(COST_OF_GOODS_SOLD, value), None),
        Cause::SupplierReturn {
            target: _,
            amount: _,
            received: _,
        } => GlLines::of(
            credit(stock, value),
            debit(RECEIVED_NOT_BILLED, share),
            adjustment(value, share),
        ),
    }
}

/// What was received is stock: its price is owed to the supplier, and its landed charges are within its value.
fn receipt(account: u32, value: i64, share: i64) -> GlLines
    requires share { IsTrue (int_le (pos 0) share) }
    requires within { IsTrue (int_le share value) }
    ensures { result ≡ debit account (unsigned_abs value) ++ (credit RECEIVED_NOT_BILLED (unsigned_abs value - unsigned_abs share) ++ credit LANDED_CHARGES (unsigned_abs share)) }
{
    GlLines::of(
        debit(account, value),
        credit(RECEIVED_NOT_BILLED, less(value, share)),
        credit(LANDED_CHARGES, share),
    )
}

/// A value less a share of it.
fn less(value: i64, share: i64) -> i64
    requires share { IsTrue (int_le (pos 0) share) }
    requires within { IsTrue (int_le share value) }
    ensures from_zero { IsTrue (int_le (pos 0) result) }
    ensures less { unsigned_abs result ≡ unsigned_abs value - unsigned_abs share }
{
    value - share
}

/// A line with an amount, from 0, on the debit side; none where it is 0.
fn debit(account: u32, amount: i64) -> Option<GlLine>
    requires { IsTrue (int_le (pos 0) amount) }
    ensures { option_to_list result ≡ debit account (unsigned_abs amount) }
{
    if amount == 0 {
        return None;
    }
    Some(GlLine {
        account: AccountNo(account),
        debit: Minor(amount),
        credit: Minor(0),
    })
}

/// A line with an amount, from 0, on the credit side; none where it is 0.
fn credit(account: u32, amount: i64) -> Option<GlLine>
    requires { IsTrue (int_le (pos 0) amount) }
    ensures { option_to_list result ≡ credit account (unsigned_abs amount) }
{
    if amount == 0 {
        return None;
    }
    Some(GlLine {
        account: AccountNo(account),
        debit: Minor(0),
        credit: Minor(amount),
    })
}

/// What goods that went back to their supplier cost more than their price, or less.
fn adjustment(value: i64, share: i64) -> Option<GlLine>
    requires value { IsTrue (int_le (pos 0) value) }
    requires share { IsTrue (int_le (pos 0) share) }
    ensures { option_to_list result ≡ debit STOCK_ADJUSTMENT (unsigned_abs value - unsigned_abs share) ++ credit STOCK_ADJUSTMENT (unsigned_abs share - unsigned_abs value) }
{
    if share <= value {
        debit(STOCK_ADJUSTMENT, value - share)
    } else {
        credit(STOCK_ADJUSTMENT, share - value)
    }
}
