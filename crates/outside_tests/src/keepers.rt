//! A keeper in memory keeps what it is handed, fails as planned, and leaves after a crash what it may; a shelf hands it out.
//! What is said of every keeper is proved of every keeper: the functions that call one take any.
ghost use Rattle.std.specs.Prelude.{◌≡◌, pos, length, IfOk, OnOk};
ghost use Rattle.stock_keeper.specs.Changed.{appended, new_tables, CoversMore, CoversRecords};
ghost use Rattle.stock_keeper.specs.declared.tables.Tables.{Tables};

use crate::lists::lines_of;
use std::alloc::Global;
use stock_keeper::changes::{Changes, SpotWorth};
use stock_keeper::fault::KeepFault;
use stock_keeper::keeper::Keeper;
use stock_keeper::memory_keeper::MemKeeper;
use stock_keeper::memory_shelf::MemShelf;
use stock_keeper::shelf::Shelf;
use stock_keeper::tables::{Tables, VERSION};
use stock_nums::entry::Worth;
use stock_nums::lines::Lines;
use stock_nums::memory::NoMemory;
use stock_nums::numbers::{Minor, RecordNo};
use stock_nums::place::{Side, Spot};

// A voucher, a line of it, and what enters there is worth.
type Kept = (u32, u32, i64);

fn spot_of(voucher: u32, line: u32) -> Spot {
    Spot {
        voucher: RecordNo(voucher),
        line,
        side: Side::Enters,
    }
}

fn rows_of(alloc: Global, kept: &[Kept]) -> Result<Lines<SpotWorth>, NoMemory> {
    let mut rows = Lines::new(alloc);
    for (voucher, line, value) in kept {
        rows.push(SpotWorth {
            spot: spot_of(*voucher, *line),
            worth: Worth {
                value: Minor(*value),
                share: Minor(0),
            },
        })?;
    }
    Ok(rows)
}

fn spots_of(alloc: Global, gone: &[(u32, u32)]) -> Result<Lines<Spot>, NoMemory> {
    let mut spots = Lines::new(alloc);
    for (voucher, line) in gone {
        spots.push(spot_of(*voucher, *line))?;
    }
    Ok(spots)
}

// A new keeper, of whose calls these fail.
fn failing_at(alloc: Global, calls: &[u64]) -> Result<MemKeeper, NoMemory>
    ensures { IfOk result (λ keeper. keeper.tables ≡ new_tables) }
{
    let tables = Tables {
        version: VERSION,
        records: Lines::new(alloc),
        covered: 0,
        worths: Lines::new(alloc),
    };
    Ok(MemKeeper::of(alloc, tables, lines_of(alloc, calls)?))
}

// Appends two records to a keeper in which nothing is kept.
fn append_both<K: Keeper>(keeper: &mut K, first: &[u8], second: &[u8]) -> Result<(), KeepFault>
    requires { (t : Tables) → K.tells keeper.old t → t ≡ new_tables }
    ensures { OnOk result ((t : Tables) → K.tells keeper.new t
        → t ≡ appended (record { 0 = 2 }) second.now (appended (record { 0 = 1 }) first.now new_tables)) }
{
    keeper.append(RecordNo(1), first)?;
    keeper.append(RecordNo(2), second)
}

// Appends a record twice, or a second one where the first append was done.
fn append_two<K: Keeper>(keeper: &mut K) -> (Result<(), KeepFault>, Result<(), KeepFault>)
    requires { (t : Tables) → K.tells keeper.old t → t ≡ new_tables }
{
    let first = keeper.append(RecordNo(1), b"one");
    let second = match first {
        Ok(()) => keeper.append(RecordNo(2), b"two"),
        Err(_) => keeper.append(RecordNo(1), b"one"),
    };
    (first, second)
}

fn published<K: Keeper>(
    keeper: &mut K,
    covered: RecordNo,
    changes: &Changes,
) -> Result<(), KeepFault>
    requires more { (t : Tables) → K.tells keeper.old t → CoversMore t covered }
    requires within { (t : Tables) → K.tells keeper.old t → CoversRecords t covered }
{
    keeper.publish(covered, changes)
}

// How many records there are, the last one's number and first byte, how many are covered, and how many worths there are.
type Shape = (usize, i64, u8, i64, usize);

fn shape(tables: &Tables) -> Shape {
    let records = tables.records.as_slice();
    let (number, byte) = match records.last() {
        Some(record) => (
            record.number,
            record.body.as_slice().first().copied().unwrap_or(0),
        ),
        None => (0, 0),
    };
    (
        records.len(),
        number,
        byte,
        tables.covered,
        tables.worths.len(),
    )
}

fn loaded<K: Keeper>(keeper: &mut K) -> Result<Shape, KeepFault> {
    let tables = keeper.load()?;
    Ok(shape(&tables))
}

// How many images there are, and how many faults and calls there were.
type Counts = (usize, u64, u64);

fn seen(keeper: &MemKeeper) -> (Shape, Counts) {
    let counts = (keeper.images(), keeper.faults(), keeper.calls());
    (shape(keeper.tables()), counts)
}

// A keeper of two records, of whose calls these fail, but not the first two.
fn with_two_records(alloc: Global, failing: &[u64]) -> Result<MemKeeper, KeepFault> {
    let mut keeper = failing_at(alloc, failing)?;
    append_both(&mut keeper, b"one", b"two")?;
    Ok(keeper)
}

// The same of a keeper that is made with nothing in it.
fn with_both(alloc: Global) -> Result<MemKeeper, KeepFault> {
    let mut keeper = MemKeeper::new(alloc);
    append_both(&mut keeper, b"one", b"two")?;
    Ok(keeper)
}

#[test]
fn a_keeper_in_memory_keeps_what_was_appended(rt: HostRuntime) {
    let two = (2, 2, b't', 0, 0);
    let Ok(mut keeper) = with_both(rt.alloc()) else {
        panic!(rt; "both are appended")
    };
    assert!(rt; loaded(&mut keeper) == Ok(two));
    assert!(rt; seen(&keeper) == (two, (0, 0, 3)));
}

// A keeper that refused a record twice; none where it did not.
fn refusing(alloc: Global) -> Option<MemKeeper> {
    let Ok(mut keeper) = failing_at(alloc, &[1, 2]) else {
        return None;
    };
    match append_two(&mut keeper) {
        (Err(KeepFault::Failed), Err(KeepFault::Failed)) => Some(keeper),
        _ => None,
    }
}

// What a crash leaves with this pick.
fn crashed(keeper: MemKeeper, pick: usize) -> MemKeeper {
    match keeper.crash(pick) {
        Ok(left) => left,
        Err(_) => unreachable!(),
    }
}

#[test]
fn a_refused_append_may_be_there_after_a_crash(rt: HostRuntime) {
    let Some(mut keeper) = refusing(rt.alloc()) else {
        panic!(rt; "both appends are refused")
    };
    let one = (1, 1, b'o', 0, 0);
    for (told, pick) in [
        (((0, 0, 0, 0, 0), (2, 2, 2)), 1),
        ((one, (0, 0, 0)), 0),
        ((one, (0, 0, 0)), 0),
    ] {
        assert!(rt; seen(&keeper) == told);
        keeper = crashed(keeper, pick);
    }
}

// Publishes these changes; none where no more records would be covered than before, or more than there are.
fn publish_changes(
    keeper: &mut MemKeeper,
    covered: u32,
    changes: &Changes,
) -> Option<Result<(), KeepFault>> {
    let tables = keeper.tables();
    if tables.covered >= i64::from(covered) || covered as usize > tables.records.len() {
        return None;
    }
    Some(published(keeper, RecordNo(covered), changes))
}

// Publishes these worths, and that there are none at the spots that are gone.
fn publish(
    alloc: Global,
    keeper: &mut MemKeeper,
    covered: u32,
    rows: &[Kept],
    gone: &[(u32, u32)],
) -> Result<Option<Result<(), KeepFault>>, NoMemory> {
    let changes = Changes {
        rows: rows_of(alloc, rows)?,
        gone: spots_of(alloc, gone)?,
    };
    Ok(publish_changes(keeper, covered, &changes))
}

fn are_kept(alloc: Global, keeper: &MemKeeper, kept: &[Kept]) -> Result<bool, NoMemory> {
    let rows = rows_of(alloc, kept)?;
    Ok(keeper.tables().worths.as_slice() == rows.as_slice())
}

#[test]
fn a_publication_puts_worths_in_and_takes_others_out(rt: HostRuntime) {
    let Ok(mut keeper) = with_two_records(rt.alloc(), &[]) else {
        panic!(rt; "both are appended")
    };
    let cases: [(u32, &[Kept], &[(u32, u32)], &[Kept]); 2] = [
        (
            1,
            &[(2, 1, 70), (1, 2, 50), (1, 1, 30)],
            &[],
            &[(1, 1, 30), (1, 2, 50), (2, 1, 70)],
        ),
        (
            2,
            &[(1, 2, 55)],
            &[(2, 1), (9, 9)],
            &[(1, 1, 30), (1, 2, 55)],
        ),
    ];
    for (covered, rows, gone, kept) in cases {
        let answer = publish(rt.alloc(), &mut keeper, covered, rows, gone);
        assert!(rt; answer == Ok(Some(Ok(()))), "of {covered}");
        assert!(rt;
            are_kept(rt.alloc(), &keeper, kept) == Ok(true),
            "of {covered}"
        );
    }
    assert!(rt; seen(&keeper) == ((2, 2, b't', 2, 2), (0, 0, 4)));
}

// A keeper of two records that refused a publication of these worths, of both; none where it did not.
fn refusing_worths(alloc: Global, rows: &[Kept]) -> Option<MemKeeper> {
    let Ok(mut keeper) = with_two_records(alloc, &[3]) else {
        return None;
    };
    match publish(alloc, &mut keeper, 2, rows, &[]) {
        Ok(Some(Err(KeepFault::Failed))) => Some(keeper),
        _ => None,
    }
}

#[test]
fn a_refused_publication_is_there_whole_or_not_at_all(rt: HostRuntime) {
    let rows = [(1, 1, 30), (2, 1, 70)];
    let Some(keeper) = refusing_worths(rt.alloc(), &rows) else {
        panic!(rt; "the publication is refused")
    };
    assert!(rt; seen(&keeper) == ((2, 2, b't', 0, 0), (1, 1, 3)));
    let left = crashed(keeper, 0);
    assert!(rt; are_kept(rt.alloc(), &left, &rows) == Ok(true));
    assert!(rt; seen(&left) == ((2, 2, b't', 2, 2), (0, 0, 0)));
}

// What the next keeper has that the shelf hands out, which goes back.
fn opened<H: Shelf>(shelf: &mut H) -> Result<Shape, KeepFault> {
    let mut keeper = shelf.open_keeper("here")?;
    let loaded = loaded(&mut keeper);
    shelf.put_back(keeper);
    loaded
}

// What comes of three loads of the next keeper that the shelf hands out, and what the shelf answers while it is out.
type Loads = (Result<Shape, KeepFault>, [Result<Shape, KeepFault>; 3]);

fn loaded_while_out<H: Shelf>(shelf: &mut H) -> Result<Loads, KeepFault> {
    let mut keeper = shelf.open_keeper("here")?;
    let answer = opened(shelf);
    let loads = [
        loaded(&mut keeper),
        loaded(&mut keeper),
        loaded(&mut keeper),
    ];
    shelf.put_back(keeper);
    Ok((answer, loads))
}

// How many openings failed, and how many faults the keeper had that was put back last.
fn faults(shelf: &MemShelf) -> (u64, u64) {
    (shelf.faults(), shelf.kept_faults())
}

// Whether its keeper is out.
fn is_out(shelf: &MemShelf) -> bool {
    shelf.kept().is_none()
}

// A shelf whose second opening fails. Its keeper has two records, and fails at the third call and the fourth.
fn failing_shelf(alloc: Global) -> Result<MemShelf, KeepFault> {
    let kept = with_two_records(alloc, &[3, 4])?;
    Ok(MemShelf::new(kept, lines_of(alloc, &[2])?))
}

#[test]
fn a_shelf_in_memory_hands_its_keeper_out_and_takes_it_back(rt: HostRuntime) {
    let two = Ok((2, 2, b't', 0, 0));
    let failed = Err(KeepFault::Failed);
    let Ok(mut shelf) = failing_shelf(rt.alloc()) else {
        panic!(rt; "both are appended")
    };
    for (answer, told) in [(two, (0, 0)), (failed, (1, 0))] {
        assert!(rt; opened(&mut shelf) == answer);
        assert!(rt; faults(&shelf) == told);
    }
    let loads = Ok((failed, [two, two, failed]));
    assert!(rt; loaded_while_out(&mut shelf) == loads);
    assert!(rt; faults(&shelf) == (2, 1));
}

// Whether the shelf has no keeper while it is out, and has it afterwards, for good.
fn has_it_but_for_meanwhile(mut shelf: MemShelf) -> Result<bool, KeepFault> {
    let keeper = shelf.open_keeper("here")?;
    let is_out_meanwhile = is_out(&shelf);
    shelf.put_back(keeper);
    Ok(is_out_meanwhile && !is_out(&shelf) && shelf.into_kept().is_some())
}

#[test]
fn a_shelf_in_memory_has_no_keeper_while_it_is_out(rt: HostRuntime) {
    let Ok(shelf) = failing_shelf(rt.alloc()) else {
        panic!(rt; "both are appended")
    };
    assert!(rt; has_it_but_for_meanwhile(shelf) == Ok(true));
}
