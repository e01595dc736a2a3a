//! The words of the column `do`.
ghost use Rattle.std.specs.Prelude.{◌≡◌};
ghost use Rattle.voucher_import.specs.Kinds.{kind_of};

/// What a voucher of a sheet is.
#[derive(Clone, Copy, Debug, PartialEq, Eq)]
pub(crate) enum SheetKind {
    Receipt,
    /// An issue of goods that were sold.
    Sold,
    /// An issue of goods that the firm used itself.
    Used,
    Transfer,
    Count,
}

/// The kind that a word of `do` means.
pub(crate) fn kind_named(word: &[u8]) -> Option<SheetKind>
    ensures { result ≡ kind_of word.now }
{
    if word == b"receipt".as_slice() {
        Some(SheetKind::Receipt)
    } else if word == b"sold".as_slice() {
        Some(SheetKind::Sold)
    } else if word == b"used".as_slice() {
        Some(SheetKind::Used)
    } else if word == b"transfer".as_slice() {
        Some(SheetKind::Transfer)
    } else if word == b"count".as_slice() {
        Some(SheetKind::Count)
    } else {
        None
    }
}
