//! What an audit of tables comes to.
use stock_model::ledger_lines::Balance;
use stock_nums::entry::Worth;
use stock_nums::lines::Lines;
use stock_nums::numbers::RecordNo;
use stock_nums::place::Spot;

/// What an audit of tables comes to. Where several faults are in them the first of this order is told: the head, the records, the
/// worths.
#[derive(Drop)]
pub enum Verdict {
    /// Each stored worth is right, and stands once.
    Sound {
        /// How many records are stored.
        records: u32,
        /// How many of them the worths are made from.
        covered: RecordNo,
        /// The balance of each account that the stored worths have a line on, by ascending accounts.
        accounts: Lines<Balance>,
    },
    /// The version is another than the one that is written, or the number covered is not from 0 to the number of records.
    Head,
    /// The first stored record that has another number than its place, is none as it would be written, or has a fault at its
    /// place: its number by its place, from 1.
    Record {
        number: u32,
    },
    /// The first movement in posting order whose worth is not stored as it is due; where there is none, the first stored worth of
    /// no movement, or that stands at its spot a second time.
    Differs {
        spot: Spot,
        /// None where nothing is stored there.
        stored: Option<Worth>,
        /// None where no movement has its worth there, or another worth stands there before.
        due: Option<Worth>,
    },
}
