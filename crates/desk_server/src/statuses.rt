//! The status of an answer.
ghost use Rattle.std.specs.Prelude.{◌≡◌};
ghost use Rattle.desk_wire.specs.Responses.{IsDeskStatus};
ghost use Rattle.desk_server.specs.Responses.{reply_status, status_of};

use stock_model::answers::Answer;
use stock_model::replies::Reply;

/// The status of the response to an answer.
pub fn status_of(answer: &Answer) -> u16
    ensures status { result ≡ status_of answer.now }
    ensures known { IsDeskStatus result }
{
    match answer {
        Answer::Shown { .. } => 200,
        Answer::Told { reply, .. } => reply_status(reply),
    }
}

fn reply_status(reply: &Reply) -> u16
    ensures status { result ≡ reply_status reply.now }
    ensures known { IsDeskStatus result }
{
    match reply {
        Reply::Accepted(_) | Reply::Worked(_) | Reply::Settled(_) => 200,
        Reply::Pending { .. } => 202,
        Reply::Long | Reply::Bad(_) | Reply::Http => 400,
        Reply::NoSuchRecord { .. } => 404,
        Reply::Refused(_) => 409,
        Reply::MemoryFailed => 500,
        Reply::StoreFailed => 503,
    }
}
