//! What is wrong with a line of input that asks for nothing, and with a stored text that is no record.

/// A field of a request or of a stored record, or what stands for one.
#[derive(Clone, Copy, Debug, PartialEq, Eq)]
pub enum FieldName {
    Do,
    Code,
    Method,
    Account,
    At,
    Lines,
    Item,
    Store,
    Qty,
    Amount,
    Use,
    From,
    To,
    Record,
    Line,
    Charge,
    Basis,
    Targets,
    Turns,
    Of,
    Need,
    Until,
    As,
    /// The desk, of a stored record alone.
    Desk,
    /// The request as a whole.
    Request,
    /// A field that the kind does not have.
    Other,
}

/// Why a text is no request or no record. `line` is the place from 1 of the element of a list that is
/// wrong, and 0 for a field of the outer object.
#[derive(Clone, Copy, Debug, PartialEq, Eq)]
pub enum ReadFault {
    /// The text is no JSON.
    BadJson,
    /// The field is missing, of the wrong form, or none of its kind.
    BadField { name: FieldName, line: u32 },
    /// The field has the right form, and is out of its range.
    Limit { name: FieldName, line: u32 },
    /// Memory was wanting. This can come at any time.
    NoMemory,
}
