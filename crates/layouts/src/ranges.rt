// The ranges of gb18030, pairs of a pointer and a code point, by a column: their pointers or, back, their code points.

ghost use Rattle.std.specs.Prelude.{◌≡◌, true, ◌/◌, ◌≤◌, ◌<◌, leb, length};
ghost use Rattle.standard.specs.Base.{◌then◌else◌};
ghost use Rattle.layouts.specs.Ranges.{number, Ascending, Decides};

// The number of a pair.
fn number(ranges: &[u32], back: bool, k: usize) -> u32
    requires { k < length ranges.now / 2 }
    ensures { result ≡ number back ranges.now k }
{
    ranges[k * 2 + usize::from(back)]
}

// Are the numbers of a column in ascending order?
pub fn in_order(ranges: &[u32], back: bool) -> bool
    ensures { result ≡ true → Ascending back ranges.now }
{
    ranges.len() <= 65536
        && (1..ranges.len() / 2).all(|k| number(&*ranges, back, k - 1) <= number(&*ranges, back, k))
}

// 1 if q is not above x, else 0. By arithmetic and not by a comparison: of that the compiler may make a branch, which the search would
// have to foresee at each turn.
fn not_above(q: u32, x: u32) -> usize
    ensures { result ≡ (leb q x then 1 else 0) }
{
    ((u64::from(x) + 0x100000000 - u64::from(q)) / 0x100000000) as usize
}

// The last pair that is not above x, or the first where all are, if they are in order: by halves.
// A loop of its own and not `partition_point`, whose turns branch.
pub fn search(ranges: &[u32], back: bool, x: u32) -> usize
    ensures { (result ≤ length ranges.now / 2) ×
        (Ascending back ranges.now → 2 ≤ length ranges.now → Decides back ranges.now x result) }
{
    let mut low: usize = 0;
    let mut count = ranges.len() / 2;
    while 1 < count {
        let half = count / 2;
        low += half * not_above(number(ranges, back, low + half), x);
        count -= half;
    }
    low
}
