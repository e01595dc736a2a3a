//! What is written to the link, and the end that comes of it.
ghost use Rattle.std.specs.Prelude.{◌≡◌};
ghost use Rattle.stock_io.specs.Counts.{NeverFalls};
ghost use Rattle.desk_wire.specs.declared.heard.Stop.TheVariants as stop;
ghost use Rattle.desk_server.specs.Responses.{IsRefusalStatus};
ghost use Rattle.desk_server.specs.Writing.{Written, Ended, MayBeTold};

use crate::refusing::refusal;
use crate::session::End;
use desk_wire::heard::Stop;
use stock_io::link::Link;
use stock_io::sink::write_all;

/// Writes the response to a request, and says whether the session ends with it.
pub fn write_response<P: Link>(link: &mut P, response: &[u8], close: bool) -> Option<End>
    ensures written { Written P.written P.Source.faults link.old link.new response.now close result }
    ensures left_kept { P.left link.new ≡ P.left link.old }
    ensures taken_kept { P.taken link.new ≡ P.taken link.old }
    ensures ended_kept { P.ended link.new ≡ P.ended link.old }
{
    match write_all(link, response) {
        Err(_) => Some(End::WriteFault),
        Ok(()) if close => Some(End::Closed),
        Ok(()) => None,
    }
}

/// Ends a session where no request follows and so many bytes wait. It writes only where they are refused.
pub fn end_at<P: Link>(link: &mut P, stop: Stop, waiting: usize) -> End
    requires { MayBeTold stop }
    ensures ended { Ended P.written P.Source.faults link.old link.new stop waiting result }
    ensures left_kept { P.left link.new ≡ P.left link.old }
    ensures taken_kept { P.taken link.new ≡ P.taken link.old }
    ensures ended_kept { P.ended link.new ≡ P.ended link.old }
{
    match stop {
        Stop::Refused { status } => match write_all(link, refusal(status).as_bytes()) {
            Ok(()) => End::Refused { status },
            Err(_) => End::WriteFault,
        },
        Stop::Ended if waiting == 0 => End::Closed,
        Stop::Ended => End::Cut { left: waiting },
        Stop::TooMuch => End::TooMuch,
    }
}
