//! The line under way, of which the bytes come in pieces.
use crate::blank::is_blank;
use std::alloc::{AllocError, Global};

/// The most bytes that a line may have. A longer one is not kept.
pub const MAX_LINE: usize = 65_536;

/// The line under way, of which no line feed has come yet.
#[derive(Drop)]
pub struct OpenLine {
    /// The bytes of the line so far, unless it is long.
    pub bytes: Vec<u8>,
    /// The line has more than `MAX_LINE` bytes, and `bytes` is not its content.
    pub long: bool,
    /// The line has no byte but spaces, tabs and carriage returns.
    pub blank: bool,
}

impl OpenLine {
    ghost use Rattle.std.specs.Prelude.{◌≡◌, ◌+◌, ◌≤◌, ℕ, List, [], ◌++◌, length, vec_len, false, OnOk, OnErr};
    ghost use Rattle.stock_batch.specs.OpenLines.{StandsForLine};

    /// The empty line. It takes no memory.
    pub fn new(alloc: Global) -> OpenLine
        ensures { StandsForLine result [] }
    {
        OpenLine {
            bytes: Vec::new(alloc),
            long: false,
            blank: true,
        }
    }

    /// Adds bytes to the line. Memory is taken only for bytes that are kept: not for those of a long line.
    ///
    /// # Errors
    ///
    /// `AllocError`: the line stands for nothing then.
    pub fn add(&mut self, piece: &[u8]) -> Result<(), AllocError>
        ensures memory { OnErr result ((self.old.long ≡ false) × (vec_len self.old.bytes + length piece.now ≤ MAX_LINE)) }
        ensures added { OnOk result ((line : List ℕ) → StandsForLine self.old line → StandsForLine self.new (line ++ piece.now)) }
    {
        self.blank = self.blank && is_blank(piece);
        if self.long {
            return Ok(());
        }
        if self.bytes.len() + piece.len() > MAX_LINE {
            self.bytes.clear();
            self.long = true;
            return Ok(());
        }
        self.bytes.extend_from_slice(piece)
    }

    /// Begins the next line, empty. The memory is kept for it.
    pub fn clear(&mut self)
        ensures { StandsForLine self.new [] }
    {
        self.bytes.clear();
        self.long = false;
        self.blank = true;
    }
}
