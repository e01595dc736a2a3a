//! The value of a Content-Length field.
ghost use Rattle.std.specs.Prelude.{◌≡◌, ◌+◌, min, is_some, IfSome};
ghost use Rattle.std.specs.Str.Parse.{digits_value};
ghost use Rattle.desk_wire.specs.Heads.{is_length};
ghost use Rattle.desk_wire.specs.Rules.{body_limit};

use crate::wire::BODY_LIMIT;

/// The number of one or more ASCII digits, or one more than the limit of a body where it is larger.
/// None exactly where the value is something else.
pub fn read_length(value: &[u8]) -> Option<usize>
    ensures digits { is_some result ≡ is_length value.now }
    ensures number { IfSome result (λ n. n ≡ min (digits_value 10 value.now) (body_limit + 1)) }
{
    if value.is_empty() {
        return None;
    }
    let mut length = 0;
    for digit in value {
        if !digit.is_ascii_digit() {
            return None;
        }
        length = (length * 10 + usize::from(digit - b'0')).min(BODY_LIMIT + 1);
    }
    Some(length)
}
