//! The text of a response, byte for byte.
ghost use Rattle.std.specs.Prelude.{◌≡◌, ◌++◌, OnOk, IfOk};
ghost use Rattle.desk_wire.specs.Responses.{IsDeskStatus, phrase, status_line, field_line, allow_field, close_field, response_text};

use http::StatusCode;
use itoa::Buffer;
use std::alloc::{AllocError, Global};
use stock_nums::lines::Lines;
use stock_nums::memory::NoMemory;

/// The response with this status, one of those that a desk answers with, and this body, which is JSON. With
/// `close` it says that the connection ends after it.
///
/// # Errors
///
/// `NoMemory` where memory was wanting.
pub fn response_text(
    alloc: Global,
    status: u16,
    body: &[u8],
    close: bool,
) -> Result<Lines<u8>, NoMemory>
    requires { IsDeskStatus status }
    ensures { IfOk result (λ text. text ≡ response_text status body.now close) }
{
    let mut text = Vec::new(alloc);
    push_status_line(&mut text, status)?;
    push_field(&mut text, "Content-Type", "application/json")?;
    push_field(
        &mut text,
        "Content-Length",
        Buffer::new().format(body.len()),
    )?;
    push_allow(&mut text, status)?;
    push_close(&mut text, close)?;
    text.extend_from_slice(b"\r\n")?;
    text.extend_from_slice(body)?;
    Ok(Lines::from_vec(text))
}

fn push_status_line(text: &mut Vec<u8>, status: u16) -> Result<(), AllocError>
    requires { IsDeskStatus status }
    ensures { OnOk result (text.new.items ≡ text.old.items ++ status_line status) }
{
    text.extend_from_slice(b"HTTP/1.1 ")?;
    text.extend_from_slice(Buffer::new().format(status).as_bytes())?;
    text.extend_from_slice(b" ")?;
    text.extend_from_slice(phrase(status).as_bytes())?;
    text.extend_from_slice(b"\r\n")
}

fn phrase(status: u16) -> &'static str
    requires { IsDeskStatus status }
    ensures { result.now ≡ phrase status }
{
    let Ok(code) = StatusCode::from_u16(status) else {
        unreachable!()
    };
    match code.canonical_reason() {
        Some(phrase) => phrase,
        None => unreachable!(),
    }
}

fn push_field(text: &mut Vec<u8>, name: &str, value: &str) -> Result<(), AllocError>
    ensures { OnOk result (text.new.items ≡ text.old.items ++ field_line name.now value.now) }
{
    text.extend_from_slice(name.as_bytes())?;
    text.extend_from_slice(b": ")?;
    text.extend_from_slice(value.as_bytes())?;
    text.extend_from_slice(b"\r\n")
}

fn push_allow(text: &mut Vec<u8>, status: u16) -> Result<(), AllocError>
    ensures { OnOk result (text.new.items ≡ text.old.items ++ allow_field status) }
{
    if status == 405 {
        push_field(text, "Allow", "POST")?;
    }
    Ok(())
}

fn push_close(text: &mut Vec<u8>, close: bool) -> Result<(), AllocError>
    ensures { OnOk result (text.new.items ≡ text.old.items ++ close_field close) }
{
    if close {
        push_field(text, "Connection", "close")?;
    }
    Ok(())
}
