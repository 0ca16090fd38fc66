// How many line feeds there are in a part of some bytes or scalars: many at a time, by narrow counts.
// A slice that is passed on is lent anew (`&*`): docs/DECISIONS.md, 45.
#![tactic(auto)]

ghost use Rattle.std.proofs.Common.{lit<};
ghost use Rattle.std.specs.Prelude.{◌≡◌, ◌∷◌, [], ℕ, ◌+◌, ◌-◌, ◌≤◌, ◌<◌, length, map};
ghost use Rattle.standard.specs.Base.{line_feeds};
ghost use Rattle.line_feeds.specs.Parts.{part};

// A byte or a scalar. A block of them is counted by a narrow number, so that many are counted at once.
trait Element: Copy {
    ghost number: { Self → ℕ };

    // The elements of a block: so many line feeds fit the narrow number.
    const BLOCK: usize;

    ghost BLOCK: { ℕ };

    // The line feeds among no more than a block.
    fn in_few(elements: &[Self]) -> usize
        requires { length elements.now ≤ BLOCK }
        ensures { result ≡ line_feeds (map number elements.now) };

    ghost some: { 0 < BLOCK };
}

impl Element for u8 {
    ghost number = { λ b. b };

    const BLOCK: usize = 192;

    ghost BLOCK = { 192 };

    fn in_few(bytes: &[u8]) -> usize {
        bytes.iter().map(|b| u8::from(*b == b'\n')).sum::<u8>() as usize
    }

    ghost some = { lit< tt };
}

impl Element for u32 {
    ghost number = { λ c. c };

    const BLOCK: usize = 1024;

    ghost BLOCK = { 1024 };

    fn in_few(scalars: &[u32]) -> usize {
        scalars.iter().map(|c| u32::from(*c == 0x0A)).sum::<u32>() as usize
    }

    ghost some = { lit< tt };
}

// The line feeds among all elements, in blocks and what is left.
fn in_many<T: Element>(elements: &[T]) -> usize
    ensures { result ≡ line_feeds (map T.number elements.now) }
{
    let blocks = elements.chunks_exact(T::BLOCK);
    let rest = blocks.remainder();
    let mut count = 0;
    for block in blocks {
        count += T::in_few(&*block);
    }
    count + T::in_few(&*rest)
}

// The line feeds among the elements from a place up to another; none where there are no such elements.
fn between<T: Element>(elements: &[T], from: usize, to: usize) -> usize
    ensures { result ≡ line_feeds (part (map T.number elements.now) from (to - from)) }
{
    match elements.get(from..to.min(elements.len())) {
        Some(part) => in_many(&*part),
        None => 0,
    }
}

// The line feeds among the 192 bytes from a place on, or among all from there on where there are fewer.
pub fn in_block(bytes: &[u8], at: usize) -> usize
    ensures { result ≡ line_feeds (part bytes.now at 192) }
{
    let Some(behind) = bytes.get(at..) else {
        return 0;
    };
    match behind.first_chunk::<192>() {
        Some(block) => u8::in_few(&*block),
        None => u8::in_few(&*behind),
    }
}

// The line feeds among the bytes from a place up to another; none where there are no such bytes.
pub fn in_bytes(bytes: &[u8], from: usize, to: usize) -> usize
    ensures { result ≡ line_feeds (part bytes.now from (to - from)) }
{
    between(&*bytes, from, to)
}

// 1 for a line feed, 0 for another scalar.
pub fn one_scalar(c: u32) -> u32
    ensures { result ≡ line_feeds (c ∷ []) }
{
    u32::from(c == 0x0A)
}

// The line feeds among the scalars from a place up to another; none where there are no such scalars.
pub fn in_scalars(cells: &[u32], from: usize, to: usize) -> usize
    ensures { result ≡ line_feeds (part cells.now from (to - from)) }
{
    between(&*cells, from, to)
}
