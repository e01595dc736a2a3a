//! An issue and an earlier receipt of one item find one another, by their units and by their lines.
ghost use Rattle.std.specs.Prelude.{◌≡◌, ◌≢◌, ◌<◌, ◌≤◌, List, [], ◌∷◌};
ghost use Rattle.stock_nums.specs.declared.entry.Entry.{Entry};
ghost use Rattle.stock_nums.specs.declared.limits.TheConstants.{MAX_RECORDS};
ghost use Rattle.stock_model.specs.PostingOrder.{put};
ghost use Rattle.repost_index.specs.Indexed.{AreIndexed, HasRoom};

use layer_ranges::layer::Layer;
use repost_index::index::Index;
use std::test::Fail;
use stock_nums::cause::{Cause, Method, Target};
use stock_nums::entry::{Entry, Key};
use stock_nums::moment::Moment;
use stock_nums::numbers::{ItemNo, Minor, Qty, RecordNo, StoreNo};
use stock_nums::place::{Place, Side};

const KEY: Key = Key {
    item: ItemNo(1),
    store: StoreNo(2),
};

// Where the first line of a record stands.
fn place(voucher: u32, side: Side) -> Place
    ensures voucher { result.voucher.0 ≡ voucher }
    ensures side { result.side ≡ side }
{
    Place {
        moment: Moment {
            date: 20_260_103,
            second: voucher % 60,
        },
        voucher: RecordNo(voucher),
        line: 1,
        side,
    }
}

// Five units that are received.
fn receipt(voucher: u32) -> Entry
    ensures { result.place.voucher.0 ≡ voucher }
{
    Entry {
        place: place(voucher, Side::Enters),
        item: KEY.item,
        store: KEY.store,
        qty: Qty(5),
        method: Method::Fifo,
        cause: Cause::Receipt { amount: Minor(900) },
    }
}

// Three of them that are issued.
fn issue(voucher: u32) -> Entry
    ensures { result.place.voucher.0 ≡ voucher }
{
    Entry {
        place: place(voucher, Side::Leaves),
        item: KEY.item,
        store: KEY.store,
        qty: Qty(3),
        method: Method::Fifo,
        cause: Cause::Issue { sold: true },
    }
}

// Puts the first movement in.
fn put_first(index: &mut Index, entry: &Entry)
    requires none { AreIndexed [] index.old }
    requires numbered { 0 < entry.now.place.voucher.0 }
    requires few { entry.now.place.voucher.0 ≤ MAX_RECORDS }
    requires room { HasRoom 2 index.old }
    ensures indexed { AreIndexed (entry.now ∷ []) index.new }
    ensures room { HasRoom 1 index.new }
{
    index.insert(entry);
}

// Puts a movement of another record in.
fn put_second(index: &mut Index, first: &Entry, entry: &Entry)
    ghost line: { List Entry }
    requires line { line ≡ first.now ∷ [] }
    requires indexed { AreIndexed line index.old }
    requires other { first.now.place.voucher.0 ≢ entry.now.place.voucher.0 }
    requires numbered { 0 < entry.now.place.voucher.0 }
    requires few { entry.now.place.voucher.0 ≤ MAX_RECORDS }
    requires room { HasRoom 1 index.old }
    ensures indexed { AreIndexed (put line entry.now) index.new }
{
    index.insert(entry);
}

// Whether the two are found by one another, by their units and by the issue's line.
fn are_found(index: &Index, received: &Entry, issued: &Entry) -> bool
    ghost line: { List Entry }
    requires { AreIndexed line index.now }
{
    let came = Layer {
        place: received.place,
        begin: Qty(0),
        qty: Qty(5),
    };
    let went = Layer {
        place: issued.place,
        begin: Qty(0),
        qty: Qty(3),
    };
    let own = Target {
        voucher: issued.place.voucher,
        line: 1,
    };
    index.previous(issued) == Some(received.place)
        && index.next(KEY, &received.place) == Some(issued.place)
        && index.entered_before(issued) == Qty(5)
        && index.left_before(issued) == Qty(0)
        && index.unit_in(KEY, Qty(4)) == Some(came)
        && index.unit_out(KEY, Qty(2)) == Some(went)
        && index.place_of(own, Side::Leaves) == Some(issued.place)
}

#[test]
fn finds_what_a_movement_looks_at(rt: HostRuntime) -> Result<(), Fail> {
    let received = receipt(4);
    let issued = issue(5);
    let mut index = Index::new(rt.alloc());
    index.reserve(200)?;
    put_first(&mut index, &issued);
    index.release();
    index.reserve(1)?;
    put_second(&mut index, &issued, &received);
    assert!(rt; are_found(&index, &received, &issued));
    Ok(())
}
