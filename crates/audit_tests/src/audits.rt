//! What an audit of small tables comes to.

use generation_audit::auditing::audit;
use generation_audit::verdict::Verdict;
use std::alloc::Global;
use stock_keeper::changes::SpotWorth;
use stock_keeper::tables::{StoredRecord, Tables, VERSION};
use stock_model::ledger_lines::Balance;
use stock_nums::entry::Worth;
use stock_nums::lines::Lines;
use stock_nums::memory::NoMemory;
use stock_nums::numbers::{AccountNo, Minor, RecordNo};
use stock_nums::place::{Side, Spot};

const RECORDS: [&str; 8] = [
    r#"{"code":"A","desk":0,"do":"item","method":"fifo"}"#,
    r#"{"code":"B","desk":0,"do":"item","method":"average"}"#,
    r#"{"account":100,"code":"W1","desk":0,"do":"store"}"#,
    r#"{"account":101,"code":"W2","desk":0,"do":"store"}"#,
    r#"{"at":"2026-01-01T09:00:00","desk":0,"do":"receipt","lines":[{"amount":10,"item":"A","qty":1,"store":"W1"}]}"#,
    r#"{"at":"2026-01-02T09:00:00","desk":0,"do":"receipt","lines":[{"amount":100,"item":"A","qty":4,"store":"W1"},{"amount":100,"item":"B","qty":3,"store":"W1"}]}"#,
    r#"{"at":"2026-01-03T09:00:00","desk":0,"do":"issue","lines":[{"item":"A","qty":3,"store":"W1"},{"item":"B","qty":1,"store":"W1"}],"use":"sold"}"#,
    r#"{"basis":"qty","charge":20,"desk":0,"do":"landed","targets":[{"line":1,"record":6}]}"#,
];

const FIVE: Spot = Spot {
    voucher: RecordNo(5),
    line: 1,
    side: Side::Enters,
};

fn worth(value: i64, share: i64) -> Worth {
    Worth {
        value: Minor(value),
        share: Minor(share),
    }
}

fn spot(voucher: u32, line: u32, side: Side) -> Spot {
    Spot {
        voucher: RecordNo(voucher),
        line,
        side,
    }
}

// Tables of the first so many records, of which so many are covered, with these worths.
fn tables(
    alloc: Global,
    count: usize,
    covered: i64,
    worths: &[SpotWorth],
) -> Result<Tables, NoMemory> {
    let mut records = Lines::new(alloc);
    let mut number: i64 = 0;
    for (index, text) in RECORDS.iter().enumerate() {
        number = number.wrapping_add(1);
        if index < count {
            let body = Lines::from_vec(text.as_bytes().to_vec(alloc)?);
            records.push(StoredRecord { number, body })?;
        }
    }
    Ok(Tables {
        version: VERSION,
        records,
        covered,
        worths: Lines::from_vec(worths.to_vec(alloc)?),
    })
}

fn verdict(
    alloc: Global,
    count: usize,
    covered: i64,
    worths: &[SpotWorth],
) -> Result<Verdict, NoMemory> {
    audit(alloc, &tables(alloc, count, covered, worths)?)
}

// Whether the verdict is that the worths are sound, with these balances.
fn is_sound(found: Result<Verdict, NoMemory>, balances: &[(u32, i64)]) -> bool {
    let Ok(
        Verdict::Sound {
            records: _,
            covered: _,
            accounts,
        },
    ) = found
    else {
        return false;
    };
    let rows = accounts.as_slice();
    let mut same = rows.len() == balances.len();
    for (index, (account, balance)) in balances.iter().enumerate() {
        match rows.get(index) {
            Some(row) => {
                let as_told = Balance {
                    account: AccountNo(*account),
                    balance: Minor(*balance),
                };
                if *row != as_told {
                    same = false;
                }
            }
            None => same = false,
        }
    }
    same
}

// Whether the verdict is that this is stored at the spot, and that is due.
fn differs(
    found: Result<Verdict, NoMemory>,
    at: Spot,
    kept: Option<Worth>,
    replayed: Option<Worth>,
) -> bool {
    let Ok(Verdict::Differs { spot, stored, due }) = found else {
        return false;
    };
    spot == at && stored == kept && due == replayed
}

#[test]
fn one_receipt_is_sound_or_differs(rt: HostRuntime) {
    let stored = SpotWorth {
        spot: FIVE,
        worth: worth(10, 0),
    };
    let eleven = SpotWorth {
        spot: FIVE,
        worth: worth(11, 0),
    };
    let shared = SpotWorth {
        spot: FIVE,
        worth: worth(10, 1),
    };
    let due = Some(worth(10, 0));
    assert!(rt; is_sound(verdict(rt.alloc(), 5, 5, &[stored]), &[(1, -10), (100, 10)]));
    assert!(rt; is_sound(verdict(rt.alloc(), 5, 4, &[]), &[]));
    assert!(rt;
        differs(
            verdict(rt.alloc(), 5, 5, &[eleven]),
            FIVE,
            Some(worth(11, 0)),
            due
        )
    );
    assert!(rt;
        differs(
            verdict(rt.alloc(), 5, 5, &[shared]),
            FIVE,
            Some(worth(10, 1)),
            due
        )
    );
    assert!(rt; differs(verdict(rt.alloc(), 5, 5, &[]), FIVE, None, due));
    assert!(rt; differs(verdict(rt.alloc(), 5, 4, &[stored]), FIVE, due, None));
    assert!(rt;
        differs(
            verdict(rt.alloc(), 5, 5, &[stored, eleven]),
            FIVE,
            Some(worth(11, 0)),
            None
        )
    );
}

#[test]
fn bad_heads_and_records_are_told(rt: HostRuntime) {
    assert!(rt; matches!(verdict(rt.alloc(), 5, 6, &[]), Ok(Verdict::Head)));
    assert!(rt; matches!(verdict(rt.alloc(), 5, -1, &[]), Ok(Verdict::Head)));
    let Ok(mut bad) = tables(rt.alloc(), 5, 0, &[]) else {
        return;
    };
    for version in [1, 3] {
        bad.version = version;
        assert!(rt;
            matches!(audit(rt.alloc(), &bad), Ok(Verdict::Head)),
            "{version}"
        );
    }
    let Ok(mut twice) = tables(rt.alloc(), 4, 0, &[]) else {
        return;
    };
    let Ok(body) = RECORDS[0].as_bytes().to_vec(rt.alloc()) else {
        return;
    };
    let body = Lines::from_vec(body);
    let _ = twice.records.push(StoredRecord { number: 5, body });
    assert!(rt; matches!(audit(rt.alloc(), &twice), Ok(Verdict::Record { number: 5 })));
}

// What the receipts and issues of records 5 to 8 are worth, by their spots: of the five units of item A one cost 10 and four
// 120 with their landed charges, and of the three of item B each a third of 100.
fn month() -> [SpotWorth; 5] {
    [
        SpotWorth {
            spot: FIVE,
            worth: worth(10, 0),
        },
        SpotWorth {
            spot: spot(6, 1, Side::Enters),
            worth: worth(120, 20),
        },
        SpotWorth {
            spot: spot(6, 2, Side::Enters),
            worth: worth(100, 0),
        },
        SpotWorth {
            spot: spot(7, 1, Side::Leaves),
            worth: worth(70, 0),
        },
        SpotWorth {
            spot: spot(7, 2, Side::Leaves),
            worth: worth(33, 0),
        },
    ]
}

#[test]
fn costs_are_held_against_the_rows_before(rt: HostRuntime) {
    let worths = month();
    let balances = [(1, -210), (2, 103), (4, -20), (100, 127)];
    assert!(rt; is_sound(verdict(rt.alloc(), 8, 8, &worths), &balances));
    let mut wrong = month();
    wrong[3].worth = worth(71, 0);
    wrong[4].worth = worth(34, 0);
    assert!(rt;
        differs(
            verdict(rt.alloc(), 8, 8, &wrong),
            spot(7, 1, Side::Leaves),
            Some(worth(71, 0)),
            Some(worth(70, 0))
        )
    );
    assert!(rt;
        differs(
            verdict(rt.alloc(), 8, 7, &worths),
            spot(6, 1, Side::Enters),
            Some(worth(120, 20)),
            Some(worth(100, 0))
        )
    );
}
