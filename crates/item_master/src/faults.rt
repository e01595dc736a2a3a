/// Why an item or a warehouse was not added, in the order in which faults are looked for.
#[derive(Clone, Copy, Debug, PartialEq, Eq)]
pub enum MasterFault {
    /// An item has the code of the new item, or a warehouse that of the new warehouse.
    CodeTaken,
    /// The code is not 1 to 24 of `A-Z a-z 0-9 . _ -`.
    CodeShape,
    /// The warehouse's account is not from 100 to 9999.
    AccountRange,
    /// Memory was wanting for an item or a warehouse that has no fault.
    NoMemory,
}
