//! All requests of a stream.
ghost use Rattle.std.specs.Prelude.{◌≡◌, ◌≢◌, ◌+◌, IfOk, IfSome, OnErr, List, ℕ};
ghost use Rattle.stock_io.specs.Counts.{Rose, NeverFalls};
ghost use Rattle.stock_io.specs.Streams.{Chained};
ghost use Rattle.desk_wire.specs.declared.framing.Framing.{Framing};
ghost use Rattle.desk_wire.specs.declared.framing.FramingFault.{FramingFault};
ghost use Rattle.desk_wire.specs.declared.heard.Heard.{Heard};
ghost use Rattle.desk_wire.specs.declared.heard.Request.{Request};
ghost use Rattle.desk_wire.specs.Rules.{Answers};
ghost use Rattle.desk_wire.specs.Waiting.{ahead, in_reach};
ghost use Rattle.desk_wire.specs.Streams.{TellsLimit, stop_answer};
ghost use Rattle.desk_wire.specs.Framings.{Framed, Follows, IsSameFraming};

use crate::heard::{Heard, Request, Stop};
use crate::inbox::Inbox;
use std::alloc::Global;
use stock_io::source::Source;
use stock_nums::lines::Lines;

/// The requests of a stream, and why they stop.
#[derive(Drop)]
pub struct Framing {
    /// The requests in the order in which they came, by their lengths.
    pub requests: Lines<Request>,
    /// Why no request follows the last of them.
    pub stop: Stop,
}

/// Why a stream isn't framed.
#[derive(Debug, Clone, Copy, PartialEq, Eq)]
pub enum FramingFault {
    /// Memory was wanting.
    NoMemory,
    /// A read failed: the source counted a fault.
    ReadFailed,
}

/// Hears all requests of a stream, and lets them go: the inbox keeps what came behind them.
///
/// # Errors
///
/// `NoMemory` where memory was wanting: the request that was heard last still waits. `ReadFailed` where a
/// read failed. The requests before are gone.
pub fn frame<S: Source>(
    alloc: Global,
    inbox: &mut Inbox,
    source: &mut S,
) -> Result<Framing, FramingFault>
    // Where the source tells its bytes: the requests of all that may be heard, however it comes in pieces, and
    // there is one such framing.
    ensures framed { IfSome (S.left source.old) (λ left. IfOk result (λ framing.
        Framed inbox.old left framing.requests framing.stop)) }
    ensures one_framing { IfSome (S.left source.old) (λ left. IfOk result (λ framing. (other : Framing)
        → Framed inbox.old left other.requests other.stop
        → IsSameFraming (in_reach inbox.old left) framing other)) }

    // What is not of the requests waits, or is left.
    ensures rest { IfOk result (λ framing. Follows (ahead inbox.old (S.left source.old))
        framing.requests (ahead inbox.new (S.left source.new))) }
    ensures rest_after_fault { OnErr result ((requests : List Request)
        × Follows (ahead inbox.old (S.left source.old)) requests (ahead inbox.new (S.left source.new))) }

    // What waits is answered as the stop says, and the limit is told exactly where it was reached.
    ensures waits { IfOk result (λ framing. Answers inbox.new.bytes (stop_answer framing.stop)) }
    ensures limit { IfOk result (λ framing. TellsLimit (Heard.Last framing.stop) inbox.new) }
    ensures count { inbox.new.spare + S.taken source.new ≡ inbox.old.spare + S.taken source.old }

    ensures faults_kept { result ≢ Err FramingFault.ReadFailed → S.faults source.new ≡ S.faults source.old }
    ensures fault { result ≡ Err FramingFault.ReadFailed → Rose (S.faults source.old) (S.faults source.new) }
    ensures never_falls { NeverFalls (S.faults source.old) (S.faults source.new) }
    ensures frame { Chained S.read_leaves source.old source.new }
{
    hear_all(alloc, inbox, source)
}

// Hears one request after another, and lets each go.
fn hear_all<S: Source>(
    alloc: Global,
    inbox: &mut Inbox,
    source: &mut S,
) -> Result<Framing, FramingFault>
    ensures framed { IfSome (S.left source.old) (λ left. IfOk result (λ framing.
        Framed inbox.old left framing.requests framing.stop)) }
    ensures rest { IfOk result (λ framing. Follows (ahead inbox.old (S.left source.old))
        framing.requests (ahead inbox.new (S.left source.new))) }
    ensures rest_after_fault { OnErr result ((requests : List Request)
        × Follows (ahead inbox.old (S.left source.old)) requests (ahead inbox.new (S.left source.new))) }
    ensures waits { IfOk result (λ framing. Answers inbox.new.bytes (stop_answer framing.stop)) }
    ensures limit { IfOk result (λ framing. TellsLimit (Heard.Last framing.stop) inbox.new) }
    ensures count { inbox.new.spare + S.taken source.new ≡ inbox.old.spare + S.taken source.old }
    ensures faults_kept { result ≢ Err FramingFault.ReadFailed → S.faults source.new ≡ S.faults source.old }
    ensures fault { result ≡ Err FramingFault.ReadFailed → Rose (S.faults source.old) (S.faults source.new) }
    ensures never_falls { NeverFalls (S.faults source.old) (S.faults source.new) }
    ensures frame { Chained S.read_leaves source.old source.new }
{
    let mut requests = Lines::new(alloc);
    loop {
        match inbox.hear(source) {
            Err(_) => return Err(FramingFault::ReadFailed),
            Ok(Heard::Last(stop)) => return Ok(Framing { requests, stop }),
            Ok(Heard::Next(request)) => {
                let Ok(()) = requests.push(request) else {
                    return Err(FramingFault::NoMemory);
                };
                inbox.pass(request.head + request.body);
            }
        }
    }
}
