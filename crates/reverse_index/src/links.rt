// The cells of an index: the length, buckets, building, and an entry more.

ghost use Rattle.std.specs.Prelude.{◌≡◌, ℕ, ◌+◌, ◌≤◌, ◌<◌, length, get_or};
ghost use Rattle.reverse_index_spec.specs.ReverseIndex.{True, fits, bucket, place, insert};
ghost use Rattle.reverse_index.specs.Code.{chained, link_of};

// Has an index of m cells the length for a table of n?
#[tactic(auto, unfolding(reverse_index_spec::specs::ReverseIndex::fits))]
pub(crate) fn fits(n: usize, m: usize) -> bool
    ensures { result ≡ fits n m }
{
    n <= 0xFFFF_FFFF && m == n + n
}

// The bucket of a code point. By 32 bits: a division of 64 is slower.
pub(crate) fn bucket(n: usize, c: u32) -> usize
    requires { (0 < n) × (n < 0x100000000) }
    ensures { (result ≡ bucket n c) × (result < n) }
{
    let m = n as u32;
    (c / 2 % m) as usize
}

// The pointer that a link leads to; none for 0.
pub(crate) fn pointer(link: u32) -> Option<usize>
    ensures { link_of result ≡ link }
{
    (link as usize).checked_sub(1)
}

// No heads yet.
pub(crate) fn clear(index: &mut [u32], n: usize)
    requires { n ≤ length index.old }
    ensures { (length index.new ≡ length index.old) ×
        ((i : ℕ) → i < n → get_or index.new i 0 ≡ 0) }
{
    index[..n].fill(0);
}

// A pointer put in front of its bucket.
fn chain(n: usize, p: usize, c: u32, index: &mut [u32])
    requires { (p < n) × (n < 0x100000000) × (length index.old ≡ n + n) }
    ensures { index.new ≡ chained n p c index.old }
{
    if !index::mapped(c) {
        index[n + p] = 0;
        return;
    }
    let b = bucket(n, c);
    index[n + p] = index[b];
    index[b] = (p + 1) as u32;
}

// The index of a table, from its last pointer down, so that the least comes to stand in front.
pub(crate) fn fill(table: &[u32], index: &mut [u32])
    requires { (length table.now < 0x100000000) × (length index.old ≡ length table.now + length table.now) ×
        ((i : ℕ) → i < length table.now → get_or index.old i 0 ≡ 0) }
    ensures { True table.now index.new }
{
    let n = table.len();
    for p in (0..n).rev() {
        chain(n, p, table[p], index);
    }
}

// Where the link to pointer p is to stand: along the bucket while links rise and stay at or below p.
fn place(index: &[u32], n: usize, p: usize, b: usize) -> usize
    requires { (b < n) × (p < n) × (n < 0x100000000) × (length index.now ≡ n + n) }
    ensures { (result ≡ place index.now n p p 0 b) × (result < n + n) }
{
    let mut at = b;
    let mut low: usize = 0;
    let mut link = index[b] as usize;
    while low < link && link <= p {
        at = n + (link - 1);
        low = link;
        link = index[at] as usize;
    }
    at
}

// The entry of pointer p put into the index.
pub(crate) fn insert(n: usize, index: &mut [u32], p: usize, c: u32)
    requires { (p < n) × (n < 0x100000000) × (length index.old ≡ n + n) }
    ensures { index.new ≡ insert n index.old p c }
{
    let at = place(index, n, p, bucket(n, c));
    index[n + p] = index[at];
    index[at] = (p + 1) as u32;
}
