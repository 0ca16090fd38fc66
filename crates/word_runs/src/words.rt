// Pairs of bytes as 16-bit words. A loop that reads words from an array of its own loads two bytes at once, and the compiler knows that the array is not part of the lent memory.

ghost use Rattle.std.specs.Prelude.{◌≡◌, false, ℕ, ◌+◌, ◌*◌, ◌≤◌, ◌<◌, length, get_or};
ghost use Rattle.standard.specs.Sequences.Utf16.{unit};
ghost use Rattle.word_runs.specs.Units.{values, unit_at};

// A word; its second byte is the upper one.
fn word(b: u8, c: u8) -> u16
    ensures { (result ≡ unit false b c) × (b < 256) × (c < 256) }
{
    u16::from(c) * 256 + u16::from(b)
}

// As many words as there is room for, from a place of the chunk on.
pub(crate) fn read_words(chunk: &[u8], at: usize, words: &mut [u16])
    requires { at + length words.old * 2 ≤ length chunk.now }
    ensures { ((j : ℕ) → j < length words.old → (get_or chunk.now (at + j * 2) 0 < 256) × (get_or chunk.now (at + j * 2 + 1) 0 < 256))
        × (words.new ≡ values (unit_at false chunk.now at) (length words.old)) }
{
    for k in 0..words.len() {
        words[k] = word(chunk[at + k * 2], chunk[at + k * 2 + 1]);
    }
}
