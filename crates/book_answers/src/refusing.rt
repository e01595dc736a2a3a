//! The answer to a record that was refused, and to a text that is no request.
ghost use Rattle.std.specs.Prelude.{◌≡◌, ◌⊎◌, [], ◌++◌, List, filter_map, option_to_list, IfOk, OnOk, OnErr};
ghost use Rattle.stock_model.specs.PostReplies.{head_at, named, refusal};
ghost use Rattle.stock_model.specs.History.{records};
ghost use Rattle.book_answers.specs.Answers.{HasText, TellsCodes};

use generation_book::book::Book;
use std::alloc::Global;
use stock_keeper::keeper::Keeper;
use stock_model::answers::Answer;
use stock_model::faults::PostFault;
use stock_model::masters::head_made;
use stock_model::read_faults::ReadFault;
use stock_model::replies::Reply;
use stock_nums::head::Head;
use stock_nums::lines::Lines;
use stock_nums::memory::NoMemory;
use stock_nums::numbers::RecordNo;

/// A reply that names no item and no warehouse, as an answer. It takes no memory.
pub fn told(alloc: Global, reply: Reply) -> Answer
    ensures { result ≡ Answer.Told reply [] }
{
    Answer::Told {
        reply,
        heads: Lines::new(alloc),
    }
}

/// The answer that tells a fault of a record that comes next after those of the book. Only a shortage takes memory,
/// for the item and the warehouse that it names.
///
/// # Errors
///
/// `NoMemory` where the fault is that, which is not told, or where the codes of a shortage want memory.
pub fn refused<K: Keeper>(
    alloc: Global,
    book: &Book<K>,
    fault: PostFault,
) -> Result<Answer, NoMemory>
    ensures answer { IfOk result (λ answer. answer ≡ refusal (records book.now.history) fault) }
    ensures text { IfOk result HasText }
    ensures memory { OnErr result ((fault ≡ PostFault.NoMemory) ⊎ TellsCodes fault) }
{
    match fault {
        PostFault::NoMemory => Err(NoMemory),
        PostFault::KeeperFailed => Ok(told(alloc, Reply::StoreFailed)),
        _ => Ok(Answer::Told {
            reply: Reply::Refused(fault),
            heads: heads_named(alloc, book, fault)?,
        }),
    }
}

/// The item and the warehouse that a fault names. Only a shortage names any, and takes memory.
fn heads_named<K: Keeper>(
    alloc: Global,
    book: &Book<K>,
    fault: PostFault,
) -> Result<Lines<Head>, NoMemory>
    ensures heads { IfOk result (λ heads. heads ≡ filter_map (head_at (records book.now.history)) (named fault)) }
    ensures memory { OnErr result (TellsCodes fault) }
{
    let mut heads = Lines::new(alloc);
    if let PostFault::Short {
        place: _,
        item,
        store,
        lacking: _,
    } = fault
    {
        push_head(alloc, book, item.0, &mut heads)?;
        push_head(alloc, book, store.0, &mut heads)?;
    }
    Ok(heads)
}

/// Adds the item or warehouse with this number, if there is one.
fn push_head<K: Keeper>(
    alloc: Global,
    book: &Book<K>,
    number: u32,
    heads: &mut Lines<Head>,
) -> Result<(), NoMemory>
    ensures { OnOk result (heads.new ≡ heads.old ++ option_to_list (head_at (records book.now.history) number)) }
{
    if let Some(item) = book.at(RecordNo(number)) {
        if let Some(head) = head_made(alloc, number, &item.what)? {
            heads.push(head)?;
        }
    }
    Ok(())
}

/// The answer to a text that is no request. It takes no memory.
///
/// # Errors
///
/// `NoMemory` where the fault is that, which is not told.
pub fn bad(alloc: Global, fault: ReadFault) -> Result<Answer, NoMemory>
    ensures answer { IfOk result (λ answer. answer ≡ Answer.Told (Reply.Bad fault) []) }
    ensures text { IfOk result HasText }
    ensures memory { OnErr result (fault ≡ ReadFault.NoMemory) }
{
    match fault {
        ReadFault::NoMemory => Err(NoMemory),
        _ => Ok(told(alloc, Reply::Bad(fault))),
    }
}
