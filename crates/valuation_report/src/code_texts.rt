//! The codes of items and warehouses by their numbers.
ghost use Rattle.std.specs.Prelude.{◌≡◌, true, option_copied};
ghost use Rattle.std.specs.List.{find, list_all};
ghost use Rattle.stock_nums.specs.Codes.{is_code_byte};
ghost use Rattle.stock_model.specs.Books.{AreHeads};
ghost use Rattle.stock_model.specs.Masters.{has_number, code_of};

use stock_nums::head::Head;

/// The item or warehouse with this number. The heads are in the order of their numbers.
pub(crate) fn head_with(heads: &[Head], number: u32) -> Option<&Head>
    requires { AreHeads heads.now }
    ensures { option_copied result ≡ find (has_number number) heads.now }
{
    let index = heads.partition_point(|head| head.number.0 < number);
    match heads.get(index) {
        Some(head) if head.number.0 == number => Some(head),
        _ => None,
    }
}

/// The code of the item or warehouse with this number, or the empty text.
pub(crate) fn code_text(heads: &[Head], number: u32) -> &str
    requires { AreHeads heads.now }
    ensures code { result.now ≡ code_of heads.now number }
    ensures plain { list_all is_code_byte result.now ≡ true }
{
    match head_with(heads, number) {
        Some(head) => head.code.text(),
        None => "",
    }
}
