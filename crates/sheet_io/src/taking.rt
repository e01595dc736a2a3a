//! The whole input, taken before anything is done with it.
ghost use Rattle.std.specs.Prelude.{◌<◌, length};
ghost use Rattle.sheet_io.specs.Taking.{IsTakenFrom};

use std::alloc::Global;
use stock_io::source::Source;
use stock_nums::lines::Lines;

/// With so many bytes an input is too long for a sheet.
pub const MAX_SHEET: usize = 67_108_864;

/// The most bytes that a read takes.
const BUFFER: usize = 65_536;

/// Why an input was not taken to its end.
#[derive(Clone, Copy, Debug, PartialEq, Eq)]
pub enum TakeFault {
    /// A read failed.
    Failed,
    /// 2^26 bytes were taken.
    TooLong,
    /// Memory was wanting.
    NoMemory,
}

/// The bytes of the input, which is taken to its end.
///
/// # Errors
///
/// `Failed`, with fewer than 2^26 bytes taken; `TooLong` where so many were taken, also where the input would have ended just there;
/// `NoMemory`.
pub fn take_sheet<S: Source>(alloc: Global, input: &mut S) -> Result<Lines<u8>, TakeFault>
    ensures { IsTakenFrom S.left S.taken S.faults input.old input.new result }
{
    let Ok(mut buffer) = vec![in alloc; 0; BUFFER] else {
        return Err(TakeFault::NoMemory);
    };
    take_through(alloc, buffer.as_mut_slice(), input)
}

// The same, by reads of no more bytes than the buffer has.
fn take_through<S: Source>(
    alloc: Global,
    buffer: &mut [u8],
    input: &mut S,
) -> Result<Lines<u8>, TakeFault>
    requires { 0 < length buffer.old }
    ensures { IsTakenFrom S.left S.taken S.faults input.old input.new result }
{
    let mut bytes = Vec::new(alloc);
    while bytes.len() < MAX_SHEET {
        let room = buffer.len().min(MAX_SHEET - bytes.len());
        let Ok(n) = input.read(&mut buffer[..room]) else {
            return Err(TakeFault::Failed);
        };
        if n == 0 {
            return Ok(Lines::from_vec(bytes));
        }
        let Ok(()) = bytes.extend_from_slice(&buffer[..n]) else {
            return Err(TakeFault::NoMemory);
        };
    }
    Err(TakeFault::TooLong)
}
