//! A line of a voucher as it is seen, whatever the voucher's kind.
ghost use Rattle.std.specs.Prelude.{IsTrue};
ghost use Rattle.stock_nums.specs.Causes.{has_amounts_in_range, has_side};
ghost use Rattle.stock_nums.specs.Quantities.{IsLineQuantity, is_line_amount};

use crate::targets::NamedTarget;
use stock_nums::cause::Cause;
use stock_nums::code::Code;
use stock_nums::numbers::{Minor, Qty};
use stock_nums::place::Side;

/// Which item a line is of.
#[derive(Clone, Copy)]
pub enum LineItem<'a> {
    /// The one with this code.
    Coded(&'a Code),
    /// That of a line of an earlier voucher.
    OfTarget(NamedTarget),
}

/// A line of a voucher that moves goods.
#[derive(Clone, Copy)]
pub struct LineView<'a> {
    pub item: LineItem<'a>,
    pub store: &'a Code,
    /// The second warehouse, where goods go from one to another.
    pub second: Option<&'a Code>,
    /// How many units it moves, from 1 to 10^9.
    pub qty: Qty,
    /// Its purchase price, from 0 to 10^12 minor units; 0 where it has none.
    pub amount: Minor,
    pub ghost quantity: { IsLineQuantity qty.0 },
    pub ghost price: { IsTrue (is_line_amount amount.0) },
}

/// A movement that a line makes.
#[derive(Clone, Copy)]
pub struct Move {
    pub side: Side,
    pub cause: Cause,
    pub ghost amounts: { IsTrue (has_amounts_in_range cause) },
    pub ghost sides: { IsTrue (has_side cause side) },
}

/// The movements that a line makes, in the order of the warehouses that it names.
#[derive(Clone, Copy)]
pub enum Moves {
    None,
    One(Move),
    Two(Move, Move),
}
