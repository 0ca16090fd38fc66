// The faults of a line, and a line at fault.

ghost use Rattle.std.specs.Prelude.{◌≡◌};
ghost use Rattle.list.specs.Faults.{number_of};

#[derive(Clone, Copy, Debug, PartialEq, Eq)]
pub(crate) enum Fault {
    NotOneTab,
    UnknownName,
    UsedName,
}

// The refusal number.
impl From<Fault> for u8 {
    ghost from_gives = { λ f r. r ≡ number_of f };

    fn from(fault: Fault) -> u8 {
        match fault {
            Fault::NotOneTab => 16,
            Fault::UnknownName => 17,
            Fault::UsedName => 18,
        }
    }
}

#[derive(Clone, Copy, Debug, PartialEq, Eq)]
pub(crate) struct FaultyLine {
    pub line: usize,
    pub fault: Fault,
}
