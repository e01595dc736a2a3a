//! How the measuring of a part ends.
use std::process::ExitCode;

/// How the measuring of a part ends.
#[derive(Clone, Copy, Debug, PartialEq, Eq)]
pub(crate) enum Outcome {
    /// It was run, and what was found is printed.
    Done,
    /// The words ask for nothing that is measured.
    OtherWords,
    /// Memory was wanting.
    NoMemory,
}

impl Outcome {
    /// Done, or else that memory was wanting.
    pub(crate) fn if_enough(enough: bool) -> Outcome {
        if enough {
            Outcome::Done
        } else {
            Outcome::NoMemory
        }
    }

    /// The status that tells it: 0, 2 or 3.
    pub(crate) fn status(self) -> ExitCode {
        match self {
            Outcome::Done => ExitCode::SUCCESS,
            Outcome::OtherWords => ExitCode::from(2),
            Outcome::NoMemory => ExitCode::from(3),
        }
    }
}
