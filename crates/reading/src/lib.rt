// Reading by encoding number: the choice, the run, the feed loop and the end of input.
// Numbers and the bytes held go in, not a decoder's record.
// A slice that is passed on is lent anew (`&*`): docs/DECISIONS.md, 45.
#![tactic(auto)]

pub mod choice;
pub mod feed;
pub mod finish;
mod run;

ghost use Rattle.std.specs.Prelude.{◌≡◌, []};
ghost use Rattle.standard.specs.Sequence.{plain};
ghost use Rattle.standard.specs.Choice.{spot};
ghost use Rattle.reading.specs.Reading.{leaves, read_refusal};

// The bytes held: how many, 0 to 3, and the bytes. Numbers of their own and not an array: the C record has them.
#[derive(Clone, Copy)]
pub struct Held {
    pub count: u8,
    pub first: u8,
    pub second: u8,
    pub third: u8,
}

impl Held {
    // no byte
    pub const NONE: Held = Held {
        count: 0,
        first: 0,
        second: 0,
        third: 0,
    };
}

// What reading leaves: the stage, the shift, and the bytes held; the scalars and the line feeds written.
// The order of fields is for speed: in a Result none of them lies across fields of a report.
#[derive(Clone, Copy)]
pub struct Left {
    pub stage: u8,
    pub state: u8,
    pub flag: u8,
    pub held: Held,
    pub written: usize,
    pub lines: usize,
}

// Why nothing is read, with its number.
#[derive(Clone, Copy)]
pub enum Refusal {
    TooManyHeld = 5,
    RoomTooSmall = 7,
    ChunkTooLong = 8,
    TotalTooLarge = 14,
}

impl From<Refusal> for u8 {
    ghost from_gives = { λ refusal n. n ≡ read_refusal refusal };

    fn from(refusal: Refusal) -> u8 {
        refusal as u8
    }
}

// Why reading leaves nothing to go on from.
#[derive(Clone, Copy)]
pub enum Stop {
    // nothing is read: everything stays as it was
    Refused(Refusal),
    // an error in refusing mode: the scalars and the line feeds written before it, and the bytes before it
    Report {
        written: usize,
        lines: usize,
        place: usize,
    },
}

// So many scalars and line feeds written, no shift, and nothing held.
pub(crate) fn ended(written: usize, lines: usize) -> Left
    ensures { result ≡ leaves written lines (spot 0 plain) [] }
{
    Left {
        written,
        lines,
        stage: 0,
        state: 0,
        flag: 0,
        held: Held::NONE,
    }
}
