//! What changes and what differs of a small replay, and which tables are opened, over ample memory.

ghost use Rattle.std.specs.Prelude.{◌≡◌};
ghost use Rattle.stock_nums.specs.declared.place.Side.TheVariants.{Enters};
ghost use Rattle.stock_keeper.specs.Worths.{AreInOrder, IsBefore};

use crate::row_lists::to_block;
use kept_tables::checking::{check_worths, covered_of, next_record};
use kept_tables::differing::{Difference, first_difference};
use kept_tables::open_fault::OpenFault;
use kept_tables::publishing::changes_of;
use std::alloc::Global;
use stock_keeper::changes::SpotWorth;
use stock_keeper::tables::{StoredRecord, Tables};
use stock_nums::cause::{Cause, Method};
use stock_nums::entry::{Entry, Row, Worth};
use stock_nums::lines::Lines;
use stock_nums::memory::NoMemory;
use stock_nums::moment::Moment;
use stock_nums::numbers::{ItemNo, Minor, Qty, RecordNo, StoreNo};
use stock_nums::place::{Place, Side, Spot};

const NINE: Moment = Moment {
    date: 20_260_102,
    second: 32_400,
};

const TEN: Moment = Moment {
    date: 20_260_102,
    second: 36_000,
};

const LEAVES_THREE: Spot = Spot {
    voucher: RecordNo(3),
    line: 1,
    side: Side::Leaves,
};

const ENTERS_THREE: Spot = Spot {
    voucher: RecordNo(3),
    line: 1,
    side: Side::Enters,
};

const ENTERS_FOUR: Spot = Spot {
    voucher: RecordNo(4),
    line: 1,
    side: Side::Enters,
};

fn worth(value: i64) -> Worth {
    Worth {
        value: Minor(value),
        share: Minor(0),
    }
}

fn at(spot: Spot, value: i64) -> SpotWorth
    ensures { result.spot ≡ spot }
{
    SpotWorth {
        spot,
        worth: worth(value),
    }
}

fn place(moment: Moment, spot: Spot) -> Place
    ensures { result.side ≡ spot.side }
{
    Place {
        moment,
        voucher: spot.voucher,
        line: spot.line,
        side: spot.side,
    }
}

// Ten units that leave by record 3, at ten.
fn left(value: i64) -> Row {
    Row {
        entry: Entry {
            place: place(TEN, LEAVES_THREE),
            item: ItemNo(1),
            store: StoreNo(2),
            qty: Qty(10),
            method: Method::Average,
            cause: Cause::TransferLeaves,
        },
        worth: worth(value),
    }
}

// Ten units that enter by a record.
fn entered(moment: Moment, spot: Spot, value: i64) -> Row
    requires { spot.side ≡ Enters }
{
    Row {
        entry: Entry {
            place: place(moment, spot),
            item: ItemNo(1),
            store: StoreNo(5),
            qty: Qty(10),
            method: Method::Average,
            cause: Cause::TransferEnters,
        },
        worth: worth(value),
    }
}

// Record 4 was typed late: it stands before record 3.
fn rows() -> [Row; 3] {
    [
        entered(NINE, ENTERS_FOUR, 400),
        left(300),
        entered(TEN, ENTERS_THREE, 310),
    ]
}

fn stored(first: SpotWorth, second: SpotWorth, third: SpotWorth) -> [SpotWorth; 3]
    requires first { IsBefore first second }
    requires second { IsBefore second third }
    ensures { AreInOrder result }
{
    [first, second, third]
}

// What is stored where it is what the rows are worth.
fn same() -> [SpotWorth; 3]
    ensures { AreInOrder result }
{
    stored(
        at(LEAVES_THREE, 300),
        at(ENTERS_THREE, 310),
        at(ENTERS_FOUR, 400),
    )
}

// What is stored where the last two are worth something else.
fn other() -> [SpotWorth; 3]
    ensures { AreInOrder result }
{
    stored(
        at(LEAVES_THREE, 300),
        at(ENTERS_THREE, 311),
        at(ENTERS_FOUR, 401),
    )
}

// Whether the changes of the rows are these, where one at a spot goes.
fn are_changes(alloc: Global, rows: &[SpotWorth]) -> bool {
    let gone = [ENTERS_FOUR];
    match changes_of(alloc, &self::rows(), &gone) {
        Ok(changes) => changes.rows.as_slice() == rows && changes.gone.as_slice() == &gone[..],
        Err(NoMemory) => false,
    }
}

#[test]
fn rows_are_changes_by_their_spots(rt: HostRuntime) {
    let all = [
        at(ENTERS_FOUR, 400),
        at(LEAVES_THREE, 300),
        at(ENTERS_THREE, 310),
    ];
    assert!(rt; are_changes(rt.alloc(), &all));
}

fn difference(
    alloc: Global,
    stored: [SpotWorth; 3],
    rows: &[Row],
) -> Result<Option<Difference>, NoMemory>
    requires { AreInOrder stored }
{
    first_difference(alloc, &stored, &to_block(alloc, rows)?)
}

// A spot of record 3 at which 311 are stored, and this is replayed.
fn stored_otherwise(replayed: Option<Worth>) -> Difference {
    Difference {
        spot: ENTERS_THREE,
        stored: Some(worth(311)),
        replayed,
    }
}

#[test]
fn the_first_difference_is_told(rt: HostRuntime) {
    let rows = rows();
    let changed = stored_otherwise(Some(worth(310)));
    let missing = stored_otherwise(None);
    assert!(rt; difference(rt.alloc(), same(), &rows) == Ok(None));
    assert!(rt; difference(rt.alloc(), other(), &rows) == Ok(Some(changed)));
    assert!(rt; difference(rt.alloc(), other(), &rows[..2]) == Ok(Some(missing)));
}

const ITEM: &str = r#"{"code":"A","desk":0,"do":"item","method":"fifo"}"#;

const SPELLED_OTHERWISE: &str = r#"{"desk":0,"code":"A","do":"item","method":"fifo"}"#;

fn kept(alloc: Global, number: i64, text: &str) -> Result<StoredRecord, NoMemory> {
    Ok(StoredRecord {
        number,
        body: Lines::from_vec(text.as_bytes().to_vec(alloc)?),
    })
}

// Tables of one record, with this head.
fn tables(alloc: Global, version: i64, covered: i64) -> Result<Tables, NoMemory> {
    let mut records = Lines::new(alloc);
    records.push(kept(alloc, 1, ITEM)?)?;
    Ok(Tables {
        version,
        records,
        covered,
        worths: Lines::new(alloc),
    })
}

// How many records are covered, or the fault of the head, of tables of one record.
fn head(alloc: Global, version: i64, covered: i64) -> Result<usize, OpenFault> {
    covered_of(&tables(alloc, version, covered)?)
}

// What is told of a bad head over one record.
fn bad_head(version: i64, covered: i64) -> OpenFault {
    OpenFault::BadHead {
        version,
        covered,
        records: 1,
    }
}

// Why no first record is kept as this, if none is.
fn record_fault(alloc: Global, number: i64, text: &str) -> Result<Option<OpenFault>, NoMemory> {
    match next_record(alloc, RecordNo(1), &kept(alloc, number, text)?) {
        Ok(_) => Ok(None),
        Err(fault) => Ok(Some(fault)),
    }
}

#[test]
fn bad_heads_are_told(rt: HostRuntime) {
    for (version, covered, told) in [
        (2, 0, Ok(0)),
        (2, 1, Ok(1)),
        (2, 2, Err(bad_head(2, 2))),
        (2, -1, Err(bad_head(2, -1))),
        (1, 0, Err(bad_head(1, 0))),
        (3, 0, Err(bad_head(3, 0))),
    ] {
        assert!(rt;
            head(rt.alloc(), version, covered) == told,
            "{version} {covered}"
        );
    }
}

#[test]
fn bad_records_are_told(rt: HostRuntime) {
    let bad = Some(OpenFault::BadStored { number: 1 });
    for (number, text, told) in [
        (1, ITEM, None),
        (2, ITEM, bad),
        (1, SPELLED_OTHERWISE, bad),
        (1, "{", bad),
    ] {
        assert!(rt;
            record_fault(rt.alloc(), number, text) == Ok(told),
            "{number} {text}"
        );
    }
}

fn worths_fault(alloc: Global, stored: [SpotWorth; 3]) -> Result<(), OpenFault>
    requires { AreInOrder stored }
{
    match to_block(alloc, &rows()) {
        Ok(rows) => check_worths(alloc, &stored, &rows),
        Err(NoMemory) => Err(OpenFault::NoMemory),
    }
}

#[test]
fn bad_worths_are_told(rt: HostRuntime) {
    let worths = stored(
        at(LEAVES_THREE, 300),
        at(ENTERS_THREE, 310),
        at(ENTERS_FOUR, 401),
    );
    let changed = Difference {
        spot: ENTERS_FOUR,
        stored: Some(worth(401)),
        replayed: Some(worth(400)),
    };
    assert!(rt; worths_fault(rt.alloc(), worths) == Err(OpenFault::StoredDiffers(changed)));
}
