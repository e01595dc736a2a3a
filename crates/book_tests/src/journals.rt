//! A journal keeps records without a fault, takes them away again, and its records are copied.

use crate::records::{ITEM, SALE, STORE, record};
use std::alloc::Global;
use stock_model::faults::PostFault;
use stock_model::read_faults::ReadFault;
use stock_model::records::Record;
use stock_nums::cause::{Cause, Method};
use stock_nums::entry::Entry;
use stock_nums::limits::MAX_RECORDS;
use stock_nums::lines::Lines;
use stock_nums::moment::Moment;
use stock_nums::numbers::{ItemNo, Minor, Qty, RecordNo, StoreNo};
use stock_nums::place::{Place, Side};
use voucher_json::record_texts::record_text;
use voucher_kinds::journal::Journal;

// Ten units of B into W1, twice.
const RECEIPT: &str =
    r#"{"do":"receipt","at":"2026-01-02T09:00:00","lines":[{"item":"B","store":"W1","qty":10,"amount":1000},{"item":"B","store":"W1","qty":10,"amount":1000}]}"#;

// The first line names an item that there is not.
const UNKNOWN_ITEM: &str =
    r#"{"do":"receipt","at":"2026-01-02T09:00:00","lines":[{"item":"C","store":"W1","qty":10,"amount":1000},{"item":"B","store":"W2","qty":10,"amount":1000}]}"#;

// The second line names a warehouse that there is not.
const UNKNOWN_STORE: &str =
    r#"{"do":"receipt","at":"2026-01-02T09:00:00","lines":[{"item":"B","store":"W1","qty":10,"amount":1000},{"item":"B","store":"W2","qty":10,"amount":1000}]}"#;

// The ten units of the receipt's first line go back to the supplier.
const SENT_BACK: &str =
    r#"{"do":"supplier-return","at":"2026-01-02T09:00:00","lines":[{"record":3,"line":1,"store":"W1","qty":10}]}"#;

// The past is closed up to the moment of the sale, and then up to an earlier one.
const FREEZE: &str = r#"{"do":"freeze","until":"2026-01-03T00:00:00"}"#;

const EARLIER_FREEZE: &str = r#"{"do":"freeze","until":"2026-01-01T00:00:00"}"#;

const FREIGHT: &str =
    r#"{"do":"landed","charge":51,"basis":"qty","targets":[{"record":3,"line":1}]}"#;

const THIRD: Moment = Moment {
    date: 20_260_103,
    second: 0,
};

// Each of these is sound once those before it are kept.
const FOUR: [&str; 4] = [ITEM, STORE, RECEIPT, SENT_BACK];

fn accept(alloc: Global, journal: &mut Journal, record: Record) -> Result<RecordNo, PostFault> {
    journal.check(alloc, &record)?;
    if journal.count() as usize >= MAX_RECORDS {
        return Err(PostFault::Full {
            records: journal.count(),
            entries: 0,
        });
    }
    journal.push(record).map_err(|_| PostFault::NoMemory)
}

fn kept(alloc: Global, journal: &mut Journal, line: &str) -> Option<RecordNo> {
    let record = record(alloc, line).ok()?;
    accept(alloc, journal, record).ok()
}

// Whether the records of these lines are kept, with the numbers from 1 on.
fn keeps(alloc: Global, journal: &mut Journal, lines: &[&str]) -> bool {
    let mut number = 0u32;
    for line in lines {
        number = number.saturating_add(1);
        if kept(alloc, journal, line) != Some(RecordNo(number)) {
            return false;
        }
    }
    true
}

// What `check` says of a line's record as the next one.
fn checked(alloc: Global, journal: &Journal, line: &str) -> Result<Option<PostFault>, ReadFault> {
    let record = record(alloc, line)?;
    Ok(journal.check(alloc, &record).err())
}

// What `fault` says of it.
fn fault(alloc: Global, journal: &Journal, line: &str) -> Result<Option<PostFault>, ReadFault> {
    Ok(journal.fault(&record(alloc, line)?))
}

// Which of the numbers 0 to 4 a record has.
fn held(journal: &Journal) -> [bool; 5] {
    [0, 1, 2, 3, 4].map(|number| journal.at(RecordNo(number)).is_some())
}

// How many records there are, as they are counted and as they are told.
fn counts(journal: &Journal) -> (u32, usize) {
    (journal.count(), journal.records().len())
}

fn entries_of_third(alloc: Global, journal: &Journal) -> Option<[Entry; 2]> {
    if journal.count() < 3 {
        return None;
    }
    let entries = journal.entries_of(alloc, RecordNo(3)).ok()?;
    match entries.as_slice() {
        [first, second] => Some([*first, *second]),
        _ => None,
    }
}

// What enters by a line of the receipt, as record 3.
fn ten_entered(line: u32) -> Entry {
    Entry {
        place: Place {
            moment: Moment {
                date: 20_260_102,
                second: 32_400,
            },
            voucher: RecordNo(3),
            line,
            side: Side::Enters,
        },
        item: ItemNo(1),
        store: StoreNo(2),
        qty: Qty(10),
        method: Method::Average,
        cause: Cause::Receipt {
            amount: Minor(1000),
        },
    }
}

#[test]
fn keeps_records_without_a_fault(rt: HostRuntime) {
    let mut journal = Journal::new(rt.alloc());
    assert!(rt; keeps(rt.alloc(), &mut journal, &[ITEM, STORE, RECEIPT]));
    let taken = Ok(Some(PostFault::CodeTaken));
    assert!(rt; checked(rt.alloc(), &journal, ITEM) == taken);
    let no_item = Ok(Some(PostFault::UnknownItem { line: 1 }));
    assert!(rt; checked(rt.alloc(), &journal, UNKNOWN_ITEM) == no_item);
    let no_store = Ok(Some(PostFault::UnknownStore { line: 2 }));
    assert!(rt; checked(rt.alloc(), &journal, UNKNOWN_STORE) == no_store);
}

#[test]
fn tells_the_records_that_it_keeps(rt: HostRuntime) {
    let mut journal = Journal::new(rt.alloc());
    assert!(rt; keeps(rt.alloc(), &mut journal, &[ITEM, STORE, RECEIPT]));
    assert!(rt; held(&journal) == [false, true, true, true, false]);
    assert!(rt; counts(&journal) == (3, 3));
    let entered = [ten_entered(1), ten_entered(2)];
    assert!(rt; entries_of_third(rt.alloc(), &journal) == Some(entered));
}

// What is said of a record as the next one.
#[derive(Clone, Copy)]
enum Said {
    Nothing,
    CodeTaken,
    NothingLeft,
    NoTarget,
    NoStore,
    NoItem,
}

fn is_said(fault: Option<PostFault>, said: Said) -> bool {
    match said {
        Said::Nothing => fault == None,
        Said::CodeTaken => fault == Some(PostFault::CodeTaken),
        Said::NothingLeft => {
            fault
                == Some(PostFault::OverReturn {
                    line: 1,
                    asked: Qty(10),
                    left: Qty(0),
                })
        }
        Said::NoTarget => fault == Some(PostFault::UnknownTarget { line: 1 }),
        Said::NoStore => fault == Some(PostFault::UnknownStore { line: 1 }),
        Said::NoItem => fault == Some(PostFault::UnknownItem { line: 1 }),
    }
}

// Whether this is said of the line's record as the next one.
fn says(alloc: Global, journal: &Journal, line: &str, said: Said) -> bool {
    match fault(alloc, journal, line) {
        Ok(fault) => is_said(fault, said),
        Err(_) => false,
    }
}

// Whether this is said of each of the four.
fn says_of_each(alloc: Global, journal: &Journal, said: &[Said; 4]) -> bool {
    for index in 0..4 {
        if !says(alloc, journal, FOUR[index], said[index]) {
            return false;
        }
    }
    true
}

fn pop(journal: &mut Journal) {
    if journal.count() > 0 {
        journal.pop();
    }
}

// What is said of the four with four records, and with each of them taken away from the last on.
const ON_THE_WAY_BACK: &[[Said; 4]] = &[
    [
        Said::CodeTaken,
        Said::CodeTaken,
        Said::Nothing,
        Said::NothingLeft,
    ],
    [
        Said::CodeTaken,
        Said::CodeTaken,
        Said::Nothing,
        Said::Nothing,
    ],
    [
        Said::CodeTaken,
        Said::CodeTaken,
        Said::Nothing,
        Said::NoTarget,
    ],
    [Said::CodeTaken, Said::Nothing, Said::NoStore, Said::NoStore],
    [Said::Nothing, Said::Nothing, Said::NoItem, Said::NoStore],
];

#[test]
fn takes_records_away_again(rt: HostRuntime) {
    let mut journal = Journal::new(rt.alloc());
    assert!(rt; keeps(rt.alloc(), &mut journal, &FOUR));
    for said in ON_THE_WAY_BACK {
        assert!(rt;
            says_of_each(rt.alloc(), &journal, said),
            "of {}",
            journal.count()
        );
        pop(&mut journal);
    }
    assert!(rt; counts(&journal) == (0, 0));
    assert!(rt; keeps(rt.alloc(), &mut journal, &FOUR));
}

#[test]
fn closes_the_past_until_the_freeze_goes(rt: HostRuntime) {
    let alloc = rt.alloc();
    let mut journal = Journal::new(alloc);
    let lines = [ITEM, STORE, RECEIPT, FREEZE, EARLIER_FREEZE];
    assert!(rt; keeps(alloc, &mut journal, &lines));
    let frozen = Ok(Some(PostFault::Frozen { until: THIRD }));
    assert!(rt; checked(alloc, &journal, SALE) == frozen);
    assert!(rt; checked(alloc, &journal, FREIGHT) == frozen);
    pop(&mut journal);
    assert!(rt; journal.frozen() == Some(THIRD));
    pop(&mut journal);
    assert!(rt; journal.frozen() == None);
    assert!(rt; checked(alloc, &journal, SALE) == Ok(None));
}

fn copy(alloc: Global, record: &Record) -> Option<Lines<u8>> {
    let copy = record.copy(alloc).ok()?;
    record_text(alloc, &copy).ok()
}

// Whether this is the stored text of a copy of the line's record.
fn is_copied_so(alloc: Global, line: &str, text: &str) -> bool {
    let Ok(record) = record(alloc, line) else {
        return false;
    };
    match copy(alloc, &record) {
        Some(copied) => copied.as_slice() == text.as_bytes(),
        None => false,
    }
}

#[test]
fn copies_a_record(rt: HostRuntime) {
    for (line, text) in [
        (
            ITEM,
            r#"{"code":"B","desk":1,"do":"item","method":"average"}"#,
        ),
        (
            STORE,
            r#"{"account":100,"code":"W1","desk":1,"do":"store"}"#,
        ),
        (
            r#"{"do":"receipt","at":"2026-01-02T09:00:00","lines":[{"item":"B","store":"W1","qty":10,"amount":1000},{"item":"C","store":"W2","qty":10,"amount":1000}]}"#,
            r#"{"at":"2026-01-02T09:00:00","desk":1,"do":"receipt","lines":[{"amount":1000,"item":"B","qty":10,"store":"W1"},{"amount":1000,"item":"C","qty":10,"store":"W2"}]}"#,
        ),
    ] {
        assert!(rt; is_copied_so(rt.alloc(), line, text), "{text}");
    }
}
