// The lengths of the tables that a caller lends: document 01, "Tables the caller lends".

ghost use Rattle.std.specs.Prelude.{◌≡◌};
ghost use Rattle.standard.specs.Encodings.{family, traits, second_fits};

// The cells of the first table of an encoding.
#[tactic(auto, using(crate::proofs::TableLengths::first_lengths))]
pub(crate) fn first_cells(encoding: u8) -> usize
    ensures { result ≡ (traits (family encoding)).first }
{
    match encoding {
        1..=20 | 22..=28 => 128,
        29 | 30 | 35 => 23940,
        31 => 19782,
        32..=34 => 11280,
        _ => 0,
    }
}

// Does a second table of so many cells fit? Ranges have an even length, at most 414.
#[tactic(auto, using(crate::proofs::TableLengths::second_lengths))]
pub(crate) fn second_fits(encoding: u8, size: usize) -> bool
    ensures { result ≡ second_fits (traits (family encoding)).second size }
{
    match encoding {
        29 | 30 => size % 2 == 0 && size <= 414,
        32 => size == 8836,
        _ => size == 0,
    }
}
