//! A return to the supplier makes three lines of the general ledger.
ghost use Rattle.std.specs.Prelude.{IsTrue};
ghost use Rattle.stock_model.specs.Books.{has_lines};

use gl_lines::lines::lines_of;
use stock_model::ledger_lines::GlLine;
use stock_nums::cause::{Cause, Method, Target};
use stock_nums::entry::{Entry, Row, Worth};
use stock_nums::moment::Moment;
use stock_nums::numbers::{AccountNo, ItemNo, Minor, Qty, RecordNo, StoreNo};
use stock_nums::place::{Place, Side};

// Four units go back to their supplier, who gives 400 for them; they cost 440.
fn returned() -> Row
    ensures { IsTrue (has_lines result) }
{
    Row {
        entry: Entry {
            place: Place {
                moment: Moment {
                    date: 20_260_102,
                    second: 0,
                },
                voucher: RecordNo(7),
                line: 1,
                side: Side::Leaves,
            },
            item: ItemNo(2),
            store: StoreNo(3),
            qty: Qty(4),
            method: Method::Average,
            cause: Cause::SupplierReturn {
                target: Target {
                    voucher: RecordNo(5),
                    line: 1,
                },
                amount: Minor(1000),
                received: Qty(10),
            },
        },
        worth: Worth {
            value: Minor(440),
            share: Minor(400),
        },
    }
}

fn line(account: u32, debit: i64, credit: i64) -> Option<GlLine> {
    Some(GlLine {
        account: AccountNo(account),
        debit: Minor(debit),
        credit: Minor(credit),
    })
}

#[test]
fn tells_what_a_return_costs(rt: HostRuntime) {
    let lines = lines_of(&returned(), AccountNo(100));
    let table = [
        (0, line(100, 0, 440)),
        (1, line(1, 400, 0)),
        (2, line(3, 40, 0)),
        (3, None),
    ];
    for (place, want) in table {
        assert_eq!(rt; lines.at(place), want, "at {place}");
    }
}
