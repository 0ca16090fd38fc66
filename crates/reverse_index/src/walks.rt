// A walk along the links of a code point's bucket, of 64 at the most.

ghost use Rattle.std.specs.Prelude.{◌≡◌, length};
ghost use Rattle.standard.specs.Base.{◌then◌else◌};
ghost use Rattle.standard.specs.Search.{pass_over};
ghost use Rattle.reverse_index_spec.specs.ReverseIndex.{fits, walk};
ghost use Rattle.reverse_index.specs.Code.{link_of, side_of};

use crate::links;

// Which hit of a bucket is wanted.
#[derive(Clone, Copy)]
pub(crate) enum Side {
    First,
    Last,
}

// The first pointer of the bucket that is a hit, or the last one where the bucket ends before. None in an index of another length.
// Always inlined, so that each caller has a walk for its side.
#[inline(always)]
pub(crate) fn walk(
    side: Side,
    table: &[u32],
    index: &[u32],
    low: usize,
    high: usize,
    c: u32,
) -> Option<usize>
    ensures { link_of result ≡ (fits (length table.now) (length index.now) then
        walk table.now index.now (side_of side) (pass_over low high) c else 0) }
{
    let n = table.len();
    if n == 0 || !links::fits(n, index.len()) {
        return None;
    }
    let mut link = index[links::bucket(n, c)];
    let mut found = None;
    for _turn in 0..64usize {
        let Some(p) = links::pointer(link) else {
            return found;
        };
        if n <= p {
            return found;
        }
        if index::hits(low, high, p, table[p], c) {
            match side {
                Side::First => return Some(p),
                Side::Last => found = Some(p),
            }
        }
        link = index[n + p];
    }
    None
}
