//! Replies have exact texts.
ghost use Rattle.voucher_json.specs.ReplyText.{IsPrinted, IsTold};

use std::alloc::Global;
use stock_model::faults::PostFault;
use stock_model::read_faults::{FieldName, ReadFault};
use stock_model::replies::Reply;
use stock_nums::code::Code;
use stock_nums::head::Head;
use stock_nums::lines::Lines;
use stock_nums::memory::NoMemory;
use stock_nums::moment::Moment;
use stock_nums::numbers::{ItemNo, Qty, RecordNo, StoreNo};
use stock_nums::place::{Place, Side};
use voucher_json::replying::reply_text;

// Whether the reply has this text over these heads.
fn is_told_over(alloc: Global, reply: &Reply, heads: &[Head], text: &str) -> bool
    requires { IsPrinted reply.now }
{
    match reply_text(alloc, reply, heads) {
        Ok(found) => found.as_slice() == text.as_bytes(),
        Err(NoMemory) => false,
    }
}

// The same of a reply that names no item and no warehouse.
fn is_told(alloc: Global, reply: Reply, text: &str) -> bool
    requires { IsPrinted reply }
{
    is_told_over(alloc, &reply, &[], text)
}

#[test]
fn prints_outcomes(rt: HostRuntime) {
    let alloc = rt.alloc();
    let (covered, wanted) = (RecordNo(4), RecordNo(5));
    let accepted = covered;
    assert!(rt;
        is_told(
            alloc,
            Reply::Accepted(RecordNo(7)),
            r#"{"record":7,"status":"accepted"}"#
        )
    );
    assert!(rt;
        is_told(
            alloc,
            Reply::Worked(RecordNo(7)),
            r#"{"covered":7,"status":"worked"}"#
        )
    );
    assert!(rt;
        is_told(
            alloc,
            Reply::Settled(RecordNo(7)),
            r#"{"covered":7,"status":"settled"}"#
        )
    );
    let pending = r#"{"covered":4,"need":5,"status":"pending"}"#;
    assert!(rt; is_told(alloc, Reply::Pending { covered, wanted }, pending));
    let missing = r#"{"accepted":4,"need":5,"status":"no-such-record"}"#;
    assert!(rt; is_told(alloc, Reply::NoSuchRecord { accepted, wanted }, missing));
}

#[test]
fn prints_faults(rt: HostRuntime) {
    let alloc = rt.alloc();
    assert!(rt; is_told(alloc, Reply::Long, r#"{"fault":"long","status":"bad"}"#));
    assert!(rt;
        is_told(
            alloc,
            Reply::StoreFailed,
            r#"{"fault":"store","status":"failed"}"#
        )
    );
    assert!(rt;
        is_told(
            alloc,
            Reply::MemoryFailed,
            r#"{"fault":"memory","status":"failed"}"#
        )
    );
    assert!(rt; is_told(alloc, Reply::Http, r#"{"fault":"http","status":"bad"}"#));
}

#[test]
fn prints_faults_of_reading(rt: HostRuntime) {
    let alloc = rt.alloc();
    let json = Reply::Bad(ReadFault::BadJson);
    assert!(rt; is_told(alloc, json, r#"{"fault":"bad-json","status":"bad"}"#));
    let field = Reply::Bad(ReadFault::BadField {
        name: FieldName::Qty,
        line: 2,
    });
    let text = r#"{"fault":"bad-field","field":"qty","line":2,"status":"bad"}"#;
    assert!(rt; is_told(alloc, field, text));
    let limit = Reply::Bad(ReadFault::Limit {
        name: FieldName::Lines,
        line: 0,
    });
    let text = r#"{"fault":"limit","field":"lines","line":0,"status":"bad"}"#;
    assert!(rt; is_told(alloc, limit, text));
}

fn is_refused(alloc: Global, fault: PostFault, text: &str) -> bool
    requires { IsTold fault }
{
    is_told(alloc, Reply::Refused(fault), text)
}

#[test]
fn prints_refusals(rt: HostRuntime) {
    let alloc = rt.alloc();
    let text = r#"{"fault":"no-basis","status":"refused"}"#;
    assert!(rt; is_refused(alloc, PostFault::NoBasis, text));
    let text = r#"{"fault":"unknown-item","line":1,"status":"refused"}"#;
    assert!(rt; is_refused(alloc, PostFault::UnknownItem { line: 1 }, text));
    let not_live = PostFault::NotLive {
        target: RecordNo(9),
    };
    let text = r#"{"fault":"not-live","record":9,"status":"refused"}"#;
    assert!(rt; is_refused(alloc, not_live, text));
    let linked = PostFault::Linked { by: RecordNo(6) };
    let text = r#"{"by":6,"fault":"linked","status":"refused"}"#;
    assert!(rt; is_refused(alloc, linked, text));
    let over = PostFault::OverReturn {
        line: 1,
        asked: Qty(1),
        left: Qty(0),
    };
    let text = r#"{"asked":1,"fault":"over-return","left":0,"line":1,"status":"refused"}"#;
    assert!(rt; is_refused(alloc, over, text));
    let frozen = PostFault::Frozen {
        until: Moment {
            date: 20_260_103,
            second: 0,
        },
    };
    let text = r#"{"fault":"frozen","status":"refused","until":"2026-01-03T00:00:00"}"#;
    assert!(rt; is_refused(alloc, frozen, text));
    let full = PostFault::Full {
        records: 44,
        entries: 200_000,
    };
    let text = r#"{"entries":200000,"fault":"full","records":44,"status":"refused"}"#;
    assert!(rt; is_refused(alloc, full, text));
}

// The item B as record 2, the item A as record 3, and the warehouse W1 as record 5.
fn heads(alloc: Global) -> Result<Lines<Head>, NoMemory> {
    let mut heads = Lines::new(alloc);
    for (number, code) in [(2, "B"), (3, "A"), (5, "W1")] {
        heads.push(Head {
            number: RecordNo(number),
            code: Code::of(alloc, code)?,
            account: None,
        })?;
    }
    Ok(heads)
}

#[test]
fn prints_a_shortage(rt: HostRuntime) {
    let Ok(heads) = heads(rt.alloc()) else {
        panic!(rt; "no memory")
    };
    let place = Place {
        moment: Moment {
            date: 20_260_105,
            second: 32_400,
        },
        voucher: RecordNo(6),
        line: 1,
        side: Side::Leaves,
    };
    let short = Reply::Refused(PostFault::Short {
        place,
        item: ItemNo(3),
        store: StoreNo(5),
        lacking: Qty(1),
    });
    let text =
        r#"{"at":"2026-01-05T09:00:00","fault":"short","item":"A","lacking":1,"line":1,"record":6,"status":"refused","store":"W1"}"#;
    assert!(rt; is_told_over(rt.alloc(), &short, heads.as_slice(), text));
}
