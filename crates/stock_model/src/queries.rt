//! What a report asks for.
ghost use Rattle.std.specs.Prelude.{◌≡◌};
ghost use Rattle.stock_model.specs.Reports.{need_of};

use shared_list::blocks::SharedBlocks;
use shared_list::list::SharedList;
use stock_nums::code::Code;
use stock_nums::entry::Row;
use stock_nums::head::Head;
use stock_nums::moment::Moment;
use stock_nums::numbers::RecordNo;

/// Which sheet a report shows.
#[derive(Clone, Copy, Debug, PartialEq, Eq)]
pub enum Sheet {
    /// The quantity and value of each item in each warehouse.
    Balance,
    /// The layers of each item in each warehouse that have units left.
    Layers,
    /// The movements of each item in each warehouse, with what is held after each.
    Ledger,
    /// The balance of each account of the general ledger.
    Accounts,
    /// The lines of the general ledger that the record with this number makes.
    Voucher(RecordNo),
}

/// How the rows of a sheet are written.
#[derive(Clone, Copy, Debug, PartialEq, Eq)]
pub enum Format {
    /// As objects of JSON.
    Json,
    /// As fields that are parted by commas (RFC 4180), after a line with their names.
    Csv,
}

/// What a report asks for.
#[derive(Drop)]
pub struct Query {
    pub sheet: Sheet,
    /// The record that the report has to cover, beside the one that its sheet shows. 0 asks for none.
    pub need: RecordNo,
    /// The last moment whose movements are shown, or all of them.
    pub until: Option<Moment>,
    /// The code of the one item that is shown, or all.
    pub item: Option<Code>,
    /// The code of the one warehouse that is shown, or all.
    pub store: Option<Code>,
    pub format: Format,
}

impl Query {
    /// The record that the report has to cover, 0 for none: the greater of the one that is asked for and the one that its
    /// sheet shows.
    pub fn need_of(&self) -> RecordNo
        ensures { result ≡ need_of self.now }
    {
        match self.sheet {
            Sheet::Voucher(shown) if self.need.0 < shown.0 => shown,
            _ => self.need,
        }
    }
}

/// Whether a report covers the record that it has to cover.
#[derive(Clone, Copy, Debug, PartialEq, Eq)]
pub enum Need {
    /// It does.
    Ready,
    /// The wanted record is accepted, and not among the first `covered` ones.
    Pending {
        covered: RecordNo,
        wanted: RecordNo,
    },
    /// The wanted record is not among the `accepted` ones.
    NoSuchRecord {
        accepted: RecordNo,
        wanted: RecordNo,
    },
}

/// Why nothing was selected for a report.
#[derive(Clone, Copy, Debug, PartialEq, Eq)]
pub enum SelectFault {
    /// The wanted record is accepted, and not among the first `covered` ones.
    Pending {
        covered: RecordNo,
        wanted: RecordNo,
    },
    /// The wanted record is not among the `accepted` ones.
    NoSuchRecord {
        accepted: RecordNo,
        wanted: RecordNo,
    },
    /// Memory was wanting. This can come at any time.
    NoMemory,
}

/// What a report is made from: the valued movements and the items and warehouses of the first
/// `covered` records. It holds those of the generation itself, and copies of none.
#[derive(Drop)]
pub struct Selected {
    pub covered: RecordNo,
    pub rows: SharedBlocks<Row>,
    pub heads: SharedList<Head>,
}
