ghost use Rattle.std.specs.Prelude.{◌≡◌, ◌≤◌, length, IsOk, IfOk};
ghost use Rattle.std.specs.List.{list_all};
ghost use Rattle.stock_nums.specs.Codes.{is_code_byte, is_code};

use crate::limits::MAX_CODE;
use crate::memory::NoMemory;
use arrayvec::ArrayString;
use std::alloc::Global;
use std::fmt;
use std::marker::Model;

/// Where the text of a code stands.
#[derive(Drop)]
pub(crate) enum Spelling {
    Short(ArrayString<MAX_CODE>),
    Long(String),
}

/// The code of an item or of a warehouse: text, which contracts see as its bytes. One of at most `MAX_CODE`
/// bytes takes no memory.
#[derive(Drop)]
pub struct Code {
    spelling: Spelling,
}

impl Model for Code {
    ghost use Rattle.std.specs.Prelude.{List, ℕ};
    ghost use Rattle.stock_nums.specs.Codes.{spelled};

    ghost Value = { List ℕ };

    ghost view = { λ code. spelled code.spelling };
}

impl Code {
    /// The code that is spelled so. A text of at most `MAX_CODE` bytes takes no memory, and so never wants it.
    pub fn of(alloc: Global, text: &str) -> Result<Code, NoMemory>
        ensures spelled { IfOk result (λ code. code ≡ text.now) }
        ensures short { length text.now ≤ MAX_CODE → IsOk result }
    {
        let spelling = match ArrayString::from(text) {
            Ok(short) => Spelling::Short(short),
            Err(_) => Spelling::Long(String::from_str(alloc, text)?),
        };
        Ok(Code { spelling })
    }

    /// How the code is spelled.
    pub fn text(&self) -> &str
        ensures { result.now ≡ self.now }
    {
        match &self.spelling {
            Spelling::Short(short) => short.as_str(),
            Spelling::Long(long) => long.as_str(),
        }
    }

    /// Whether the code has the shape that `has_code_shape` tells.
    pub fn is_well_formed(&self) -> bool
        ensures { result ≡ is_code self.now }
    {
        has_code_shape(self.text())
    }

    /// An equal code. One of at most `MAX_CODE` bytes takes no memory, and so never wants it.
    pub fn copy(&self, alloc: Global) -> Result<Code, NoMemory>
        ensures copy { IfOk result (λ code. code ≡ self.now) }
        ensures short { length self.now ≤ MAX_CODE → IsOk result }
    {
        Code::of(alloc, self.text())
    }
}

impl PartialEq for Code {
    ghost use Rattle.std.specs.Prelude.{nat_eq};
    ghost use Rattle.std.specs.Cmp.Lexicographic.{pointwise, nat_list_eq_equiv};
    ghost use Rattle.std.specs.Cmp.{partial_equiv_from_equiv};

    ghost eq = { pointwise nat_eq };

    ghost laws = { partial_equiv_from_equiv nat_list_eq_equiv };

    fn eq(&self, other: &Code) -> bool {
        self.text() == other.text()
    }
}

impl Eq for Code {
    ghost use Rattle.std.specs.Cmp.Lexicographic.{nat_list_eq_equiv};

    ghost laws = { nat_list_eq_equiv };
}

impl fmt::Debug for Code {
    fn fmt<W: fmt::Write>(&self, f: &mut fmt::Formatter<W>) -> fmt::Result {
        fmt::Debug::fmt(self.text(), f)
    }
}

/// Whether the text is from 1 to 24 of `A-Z a-z 0-9 . _ -`.
pub fn has_code_shape(text: &str) -> bool
    ensures { result ≡ is_code text.now }
{
    let len = text.len();
    1 <= len && len <= MAX_CODE && are_code_bytes(text.as_bytes())
}

fn are_code_bytes(bytes: &[u8]) -> bool
    ensures { result ≡ list_all is_code_byte bytes.now }
{
    bytes.iter().all(|byte| is_code_byte(*byte))
}

fn is_code_byte(byte: u8) -> bool
    ensures { result ≡ is_code_byte byte }
{
    byte.is_ascii_alphanumeric() || matches!(byte, b'.' | b'_' | b'-')
}
