//! What a JSON text begins with (RFC 8259).
ghost use Rattle.std.specs.Prelude.{◌≡◌, ◌+◌, ◌<◌, ◌≤◌, ◌∷◌, ◌++◌, length, take, get_or, true, decimal, IfSome};
ghost use Rattle.std.specs.Char.{is_ascii_digit};
ghost use Rattle.std.specs.List.{list_all};
ghost use Rattle.std.specs.Str.Parse.{digits_value};
ghost use Rattle.json.specs.Lex.{between, lex};
ghost use Rattle.json.specs.Print.{escape, quoted};
ghost use Rattle.json.specs.Word.{head};
ghost use Rattle.voucher_json.specs.PlainTokens.{is_blank, follows_value, IsQuotedText, IsNumeral};

/// A number as large as this takes no further digit: no field has as many, so its text goes the long way.
const LIMIT: u64 = 1_000_000_000_000_000;

/// The byte at this place, or a space past the end.
#[inline(always)]
fn byte_at(text: &str, at: usize) -> u8
    ensures { result ≡ get_or text.now at 32 }
{
    let bytes = text.as_bytes();
    if at < bytes.len() { bytes[at] } else { b' ' }
}

#[inline(always)]
fn is_blank(byte: u8) -> bool
    ensures { result ≡ is_blank byte }
{
    byte == b' ' || byte == b'\t' || byte == b'\n' || byte == b'\r'
}

/// The text without the blanks at its front (section 2).
#[inline(always)]
pub fn skip_blanks(text: &str) -> &str
    ensures { lex between result.now ≡ lex between text.now }
{
    let mut rest = text;
    while !rest.is_empty() && is_blank(byte_at(rest, 0)) {
        rest = &rest[1..];
    }
    rest
}

/// What comes after this byte of ASCII, where the text begins with it.
#[inline(always)]
pub fn after_byte(text: &str, byte: u8) -> Option<&str>
    requires { byte < 128 }
    ensures { IfSome result (λ rest. text.now ≡ byte ∷ rest.now) }
{
    if text.is_empty() || byte_at(text, 0) != byte {
        return None;
    }
    Some(&text[1..])
}

/// What comes after this key and its colon, where the text begins with them and the key is not escaped (section 4).
#[inline(always)]
pub fn after_key<'a>(text: &'a str, name: &str) -> Option<&'a str>
    ensures { IfSome result (λ rest. text.now ≡ 34 ∷ (name.now ++ 34 ∷ 58 ∷ rest.now)) }
{
    let opened = after_byte(text, b'"')?;
    let len = name.len();
    if !opened.as_bytes().starts_with(name.as_bytes())
        || byte_at(opened, len) != b'"'
        || byte_at(opened, len + 1) != b':'
    {
        return None;
    }
    Some(&opened[len + 2..])
}

/// The text in quotes that comes after this front, and what comes after that, where nothing is escaped (section 7).
#[inline(always)]
pub fn text_after<'a>(text: &'a str, front: &str) -> Option<(&'a str, &'a str)>
    ensures { IfSome result (λ parts. text.now ≡ front.now ++ (quoted parts.0.now ++ parts.1.now)) }
{
    split_text(after_byte(text.strip_prefix(front)?, b'"')?)
}

/// The whole number that comes after this front, below 10^16, and what comes after it.
#[inline(always)]
pub fn number_after<'a>(text: &'a str, front: &str) -> Option<(u64, &'a str)>
    ensures { IfSome result (λ parts. text.now ≡ front.now ++ (decimal parts.0 ++ parts.1.now)) }
{
    split_number(text.strip_prefix(front)?)
}

/// The text up to its closing quote, and what comes after that, where nothing is escaped (section 7).
#[inline(always)]
pub fn split_text(text: &str) -> Option<(&str, &str)>
    ensures { IfSome result (λ parts. IsQuotedText text.now parts.0.now parts.1.now) }
{
    let len = plain_len(text.as_bytes());
    if byte_at(text, len) != b'"' {
        return None;
    }
    Some((&text[..len], &text[len + 1..]))
}

/// How many bytes stand for themselves in a text in quotes.
#[inline(never)]
fn plain_len(bytes: &[u8]) -> usize
    ensures plain { escape (take result bytes.now) ≡ take result bytes.now }
    ensures bound { result ≤ length bytes.now }
{
    let mut len = 0;
    while len < bytes.len() && bytes[len] >= b' ' && bytes[len] != b'"' && bytes[len] != b'\\' {
        len += 1;
    }
    len
}

/// The whole number with which the text begins, below 10^16, and what comes after it, where that may follow a
/// value (section 6).
#[inline(always)]
pub fn split_number(text: &str) -> Option<(u64, &str)>
    ensures { IfSome result (λ parts. IsNumeral text.now parts.0 parts.1.now) }
{
    let (len, number) = leading_digits(text.as_bytes());
    let has_leading_zero = len > 1 && byte_at(text, 0) == b'0';
    if len == 0 || has_leading_zero || !follows_value(byte_at(text, len)) {
        return None;
    }
    Some((number, &text[len..]))
}

/// How many digits the text begins with, and the number that they spell. From the limit on no digit is read.
#[inline(never)]
fn leading_digits(bytes: &[u8]) -> (usize, u64)
    ensures digits { list_all is_ascii_digit (take result.0 bytes.now) ≡ true }
    ensures number { result.1 ≡ digits_value 10 (take result.0 bytes.now) }
    ensures bound { result.0 ≤ length bytes.now }
{
    let mut len = 0;
    let mut number: u64 = 0;
    while len < bytes.len() && bytes[len].is_ascii_digit() && number < LIMIT {
        number = number * 10 + (bytes[len] - b'0') as u64;
        len += 1;
    }
    (len, number)
}

/// Whether the text begins with what may follow a value.
#[inline(always)]
pub fn value_ends(text: &str) -> bool
    ensures { result ≡ follows_value (head text.now) }
{
    follows_value(byte_at(text, 0))
}

#[inline(always)]
fn follows_value(byte: u8) -> bool
    ensures { result ≡ follows_value byte }
{
    byte == b',' || byte == b'}' || byte == b']'
}
