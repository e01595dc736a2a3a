//! What a sheet says, and what is wrong with one.
ghost use Rattle.std.specs.Prelude.{◌≡◌, ◌≤◌, ◌&&◌, bytes_eq, length};
ghost use Rattle.std.specs.List.{IsDistinct, IsDistinct-prop};
ghost use Rattle.stock_nums.specs.declared.limits.TheConstants.{MAX_LINES, MAX_QUANTITY};

use stock_model::vouchers::What;
use stock_nums::code::Code;
use stock_nums::lines::Lines;
use stock_nums::memory::NoMemory;
use stock_nums::moment::Moment;
use stock_nums::numbers::Qty;

/// What one of the vouchers of a sheet says.
#[derive(Drop)]
pub enum SheetVoucher {
    /// A voucher that may be posted.
    Post(What),
    /// A count of stock.
    Count(CountSheet),
}

/// A count of stock at a moment, of 1 to 100 lines. No two lines are of one item in one warehouse.
#[derive(Drop)]
pub struct CountSheet {
    pub at: Moment,
    pub lines: Lines<CountLine>,
    pub ghost size: { (1 ≤ length lines) × (length lines ≤ MAX_LINES) },
    pub ghost keys: { IsDistinct (λ line other. bytes_eq line.item other.item && bytes_eq line.store other.store) lines } by { IsDistinct-prop _ lines },
}

/// How many units of an item were counted in a warehouse.
#[derive(Drop)]
pub struct CountLine {
    pub item: Code,
    pub store: Code,
    /// From 0 to 10^9.
    pub qty: Qty,
    pub ghost quantity: { qty.0 ≤ MAX_QUANTITY },
}

/// What is wrong with a row: a field, or what stands for one.
#[derive(Clone, Copy, Debug, PartialEq, Eq)]
pub enum SheetField {
    /// The row does not have eight fields.
    Length,
    /// `do` or `at` differs from the first line of the voucher.
    Group,
    Do,
    At,
    Item,
    Store,
    To,
    Qty,
    Amount,
    /// An earlier line of the count has the same item and warehouse.
    Repeat,
    /// The voucher has a hundred lines before the row.
    Many,
}

/// Why a text is no sheet.
#[derive(Clone, Copy, Debug, PartialEq, Eq)]
pub enum SheetFault {
    /// The first row is missing, or is not the eight names of the columns.
    BadHead,
    /// The row, counted from 1 with the head, is the first that is wrong, and `field` is what is wrong with it first.
    BadRow { row: u32, field: SheetField },
    /// Memory was wanting. This can come at any time.
    NoMemory,
}

impl From<NoMemory> for SheetFault {
    ghost use Rattle.voucher_import.specs.declared.sheet.SheetFault.TheVariants as fault;

    ghost from_gives = { λ _ made. made ≡ fault.NoMemory };

    fn from(_error: NoMemory) -> SheetFault {
        SheetFault::NoMemory
    }
}
