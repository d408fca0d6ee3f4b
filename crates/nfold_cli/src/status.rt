//! How a run ends.

ghost use Rattle.std.specs.Prelude.{◌≡◌, IsTrue, IsFalse};
ghost use Rattle.nfold_cli.specs.Endings.{status_number, IsWritten};

/// The answer of a run, in the order of the numbers with which the program ends, from 0.
#[derive(Clone, Copy, Debug, PartialEq, Eq, Drop)]
pub enum Status {
    /// The text of the command was written whole.
    Done,
    /// The text was written whole, and says what is broken.
    No,
    /// The words are no form.
    Usage,
    /// A file is refused for its length, its form or its content.
    Input,
    /// A limit is passed.
    Limit,
    /// A file is missing, or reading failed.
    ReadFault,
    /// Writing failed.
    WriteFault,
    /// Memory ran out, which may happen at any call that allocates.
    Memory,
}

impl Status {
    /// The number with which the program ends.
    pub fn number(self) -> u8
        ensures { result ≡ status_number self }
    {
        match self {
            Status::Done => 0,
            Status::No => 1,
            Status::Usage => 2,
            Status::Input => 3,
            Status::Limit => 4,
            Status::ReadFault => 5,
            Status::WriteFault => 6,
            Status::Memory => 7,
        }
    }

    /// Whether the run made a text for the output.
    pub(crate) fn is_written(self) -> bool
        ensures written { IsTrue result → IsWritten self }
        ensures refused { IsFalse result → IsWritten self → ⊥ }
    {
        matches!(self, Status::Done | Status::No)
    }
}

#[cfg(test)]
mod tests {
    use super::*;

    #[test]
    fn each_status_has_a_number_of_its_own(rt: HostRuntime) {
        for (status, number) in [
            (Status::Done, 0),
            (Status::No, 1),
            (Status::Input, 3),
            (Status::Limit, 4),
            (Status::WriteFault, 6),
        ] {
            assert_eq!(rt; status.number(), number);
        }
    }
}
