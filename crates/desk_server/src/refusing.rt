//! The responses that take no memory: to a request that is refused, and for want of memory.
ghost use Rattle.std.specs.Prelude.{◌≡◌, []};
ghost use Rattle.stock_model.specs.declared.answers.Answer.TheVariants.{Told};
ghost use Rattle.stock_model.specs.declared.replies.Reply.TheVariants.{MemoryFailed};
ghost use Rattle.desk_server.specs.Responses.{IsRefusalStatus, refusal_response, response_to};

/// The response to a request that is refused with this status.
pub fn refusal(status: u16) -> &'static str
    requires { IsRefusalStatus status }
    ensures { result.now ≡ refusal_response status }
{
    match status {
        400 => {
            "HTTP/1.1 400 Bad Request\r\nContent-Type: application/json\r\nContent-Length: 31\r\n\
             Connection: close\r\n\r\n{\"fault\":\"http\",\"status\":\"bad\"}"
        }
        404 => {
            "HTTP/1.1 404 Not Found\r\nContent-Type: application/json\r\nContent-Length: 31\r\n\
             Connection: close\r\n\r\n{\"fault\":\"http\",\"status\":\"bad\"}"
        }
        405 => {
            "HTTP/1.1 405 Method Not Allowed\r\nContent-Type: application/json\r\nContent-Length: 31\r\n\
             Allow: POST\r\nConnection: close\r\n\r\n{\"fault\":\"http\",\"status\":\"bad\"}"
        }
        411 => {
            "HTTP/1.1 411 Length Required\r\nContent-Type: application/json\r\nContent-Length: 31\r\n\
             Connection: close\r\n\r\n{\"fault\":\"http\",\"status\":\"bad\"}"
        }
        413 => {
            "HTTP/1.1 413 Payload Too Large\r\nContent-Type: application/json\r\nContent-Length: 31\r\n\
             Connection: close\r\n\r\n{\"fault\":\"http\",\"status\":\"bad\"}"
        }
        _ => {
            "HTTP/1.1 501 Not Implemented\r\nContent-Type: application/json\r\nContent-Length: 31\r\n\
             Connection: close\r\n\r\n{\"fault\":\"http\",\"status\":\"bad\"}"
        }
    }
}

/// The response for want of memory, which closes or does not.
pub fn no_memory(close: bool) -> &'static str
    ensures { result.now ≡ response_to (Told MemoryFailed []) close }
{
    if close {
        "HTTP/1.1 500 Internal Server Error\r\nContent-Type: application/json\r\nContent-Length: 36\r\n\
         Connection: close\r\n\r\n{\"fault\":\"memory\",\"status\":\"failed\"}"
    } else {
        "HTTP/1.1 500 Internal Server Error\r\nContent-Type: application/json\r\nContent-Length: 36\r\n\
         \r\n{\"fault\":\"memory\",\"status\":\"failed\"}"
    }
}
