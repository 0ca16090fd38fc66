// Which encoding reads: what the first bytes choose, and the encoding of a stage.
ghost use Rattle.std.specs.Prelude.{◌≡◌, ◌∷◌, [], ◌-◌, take};
ghost use Rattle.standard.specs.Choice.{mark2, mark_ef, choose, reader};
ghost use Rattle.reading.specs.Reading.{chosen_of};

// What the first bytes choose.
#[derive(Clone, Copy)]
pub enum Chosen {
    // they still wait
    Waits,
    // there is no mark: the label's encoding reads
    Label,
    // so many bytes of a mark, and the stage behind it
    Marked { width: u8, stage: u8 },
}

// The choice behind FE or FF, by the second byte, with so many bytes there in all.
fn of_two(b: u8, last: u8, stage: u8, have: usize) -> Chosen
    ensures { result ≡ chosen_of (mark2 last stage (take (have - 1) (b ∷ []))) }
{
    if have < 2 {
        return Chosen::Waits;
    }
    if b == last {
        return Chosen::Marked { width: 2, stage };
    }
    Chosen::Label
}

// The choice behind EF, by the second and the third byte.
fn of_three(second: u8, third: u8, have: usize) -> Chosen
    ensures { result ≡ chosen_of (mark_ef (take (have - 1) (second ∷ third ∷ []))) }
{
    if have < 2 {
        return Chosen::Waits;
    }
    if second != 0xBB {
        return Chosen::Label;
    }
    if have < 3 {
        return Chosen::Waits;
    }
    if third == 0xBF {
        return Chosen::Marked { width: 3, stage: 2 };
    }
    Chosen::Label
}

// The choice by at most three bytes at the front, of which so many are there.
pub fn choose(first: u8, second: u8, third: u8, have: usize) -> Chosen
    ensures { result ≡ chosen_of (choose (take have (first ∷ second ∷ third ∷ []))) }
{
    if have == 0 {
        return Chosen::Waits;
    }
    match first {
        0xEF => of_three(second, third, have),
        0xFE => of_two(second, 0xFF, 3, have),
        0xFF => of_two(second, 0xFE, 4, have),
        _ => Chosen::Label,
    }
}

// The number of the encoding that reads at a stage, with the label's encoding.
pub fn reader(encoding: u8, stage: u8) -> u8
    ensures { result ≡ reader encoding stage }
{
    match stage {
        2 => 0,
        3 => 37,
        4 => 38,
        _ => encoding,
    }
}
