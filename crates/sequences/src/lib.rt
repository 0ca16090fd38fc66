// The sequence at the front of up to four bytes, for every encoding.
// A slice that is passed on is lent anew (`&*`): docs/DECISIONS.md, 45.
#![tactic(auto)]

pub mod big5;
pub mod euc_jp;
pub mod euc_kr;
pub mod gb18030;
pub mod iso_2022_jp;
pub mod replacement;
pub mod shift_jis;
pub mod single_byte;
pub mod user_defined;
pub mod utf8;
pub mod utf_16;
pub mod windows_1252;

ghost use Rattle.std.specs.Prelude.{◌≡◌, false, ◌∷◌, [], ltb, eqb};
ghost use Rattle.standard.specs.Base.{◌then◌else◌};
ghost use Rattle.standard.specs.Layouts.{pair_code};
ghost use Rattle.standard.specs.Sequence.{more, bad, scalar, code, pair, trailed, item, shift, text, error};
ghost use Rattle.standard.specs.Encodings.{family, lent};
ghost use Rattle.standard.specs.Next.{next, unmark, unmarked};
ghost use Rattle.layouts.specs.Rows.{layout_of};
ghost use Rattle.sequences.specs.Code.{next_of, out_of, is_error, front};

use crate::big5::big5;
use crate::euc_jp::euc_jp;
use crate::euc_kr::euc_kr;
use crate::gb18030::gb18030;
use crate::iso_2022_jp::iso_2022_jp;
use crate::replacement::replacement;
use crate::shift_jis::shift_jis;
use crate::single_byte::single_byte;
use crate::user_defined::user_defined;
use crate::utf_16::utf_16;
use crate::utf8::utf8;
use crate::windows_1252::windows_1252;
use index::cell;
use layouts::pointer;

// What the bytes before leave behind: the output state of ISO-2022-JP, and a flag.
#[derive(Clone, Copy)]
pub struct Shift {
    pub state: u8,
    pub flag: bool,
}

// The shift of the encodings that have none.
const PLAIN: Shift = Shift {
    state: 0,
    flag: false,
};

// What a sequence gives: an error, or no scalar, one or two.
#[derive(Clone, Copy)]
pub enum Out {
    Error,
    Nothing,
    One(u32),
    Two(u32, u32),
}

impl Out {
    pub fn is_error(self) -> bool
        ensures { result ≡ is_error (out_of self) }
    {
        matches!(self, Out::Error)
    }
}

// A whole sequence: so many bytes, the shift that they leave, and what they give.
#[derive(Clone, Copy)]
pub struct Sequence {
    pub width: u8,
    pub shift: Shift,
    pub out: Out,
}

// An error of so many bytes.
fn wrong(width: u8) -> Option<Sequence>
    ensures { next_of result ≡ bad width }
{
    Some(Sequence {
        width,
        shift: PLAIN,
        out: Out::Error,
    })
}

// One scalar, of so many bytes.
fn gives(width: u8, c: u32) -> Option<Sequence>
    ensures { next_of result ≡ scalar width c }
{
    Some(Sequence {
        width,
        shift: PLAIN,
        out: Out::One(c),
    })
}

// A code point, where 0 is null.
fn gives_code(width: u8, c: u32) -> Option<Sequence>
    ensures { next_of result ≡ code width c }
{
    if c == 0 {
        return wrong(width);
    }
    gives(width, c)
}

// A trail byte with its code point: without one, a trail byte below 80 is put back.
fn gives_trailed(leads: u8, width: u8, trail: u8, c: u32) -> Option<Sequence>
    ensures { next_of result ≡ trailed leads width trail c }
{
    if c != 0 {
        return gives(width, c);
    }
    if trail < 0x80 {
        return wrong(leads);
    }
    wrong(width)
}

// The second byte of a pair, if it is there.
fn gives_pair(have: usize, trail: u8, c: u32) -> Option<Sequence>
    ensures { next_of result ≡ (ltb have 2 then more else pair trail c) }
{
    if have < 2 {
        return None;
    }
    gives_trailed(1, 2, trail, c)
}

// The code point of a pair, 0 for none. A number and not an Option, here and in the families: 0 is null in the definitions and in the tables.
pub fn code_point(encoding: u8, table: &[u32], lead: u8, trail: u8) -> u32
    ensures { result ≡ pair_code (layout_of encoding) table.now lead trail }
{
    let p = pointer(encoding, lead, trail);
    if p < 32768 {
        return cell(&*table, p);
    }
    0
}

// What is given without a mark in front.
fn unmark(out: Out) -> Out
    ensures { out_of result ≡ unmark (out_of out) }
{
    match out {
        Out::One(0xFEFF) => Out::Nothing,
        Out::Two(0xFEFF, second) => Out::One(second),
        _ => out,
    }
}

// Rule "drop": the first scalar is dropped if it is a mark, where one is still to be dropped.
pub fn drop_mark(q: Option<Sequence>, fresh: bool) -> Option<Sequence>
    ensures { next_of result ≡ unmarked fresh (next_of q) }
{
    if !fresh {
        return q;
    }
    let s = q?;
    Some(Sequence {
        width: s.width,
        shift: s.shift,
        out: unmark(s.out),
    })
}

// An error that leaves a shift behind.
fn fails(width: u8, state: u8, flag: bool) -> Option<Sequence>
    ensures { next_of result ≡ item width (shift state flag) error }
{
    Some(Sequence {
        width,
        shift: Shift { state, flag },
        out: Out::Error,
    })
}

// A scalar that leaves a shift behind.
fn says(width: u8, state: u8, flag: bool, c: u32) -> Option<Sequence>
    ensures { next_of result ≡ item width (shift state flag) (text (c ∷ [])) }
{
    Some(Sequence {
        width,
        shift: Shift { state, flag },
        out: Out::One(c),
    })
}

// No scalar, and a shift.
fn says_nothing(width: u8, state: u8, flag: bool) -> Option<Sequence>
    ensures { next_of result ≡ item width (shift state flag) (text []) }
{
    Some(Sequence {
        width,
        shift: Shift { state, flag },
        out: Out::Nothing,
    })
}

// The sequence at the front of up to four bytes, by encoding number; none where more bytes are wanted. Each family's answer has a name: returned without one it would go
// through memory in parts, and be waited for. The tests part the numbers by halves: in a chain of twelve the compiler takes the last
// families for rare, and leaves their functions apart.
pub fn next(
    t1: &[u32],
    t2: &[u32],
    encoding: u8,
    state: u8,
    flag: u8,
    b0: u8,
    b1: u8,
    b2: u8,
    b3: u8,
    have: usize,
) -> Option<Sequence>
    ensures { next_of result ≡ next (lent t1.now t2.now) (family encoding) (shift state (eqb flag 1)) (front have b0 b1 b2 b3) }
{
    if have == 0 {
        return None;
    }
    if encoding <= 28 {
        if encoding == 0 {
            let q = utf8(b0, b1, b2, b3, have);
            return drop_mark(q, flag == 1);
        }
        if encoding == 21 {
            let q = windows_1252(b0);
            return q;
        }
        let q = single_byte(&*t1, b0);
        return q;
    }
    if encoding <= 32 {
        if encoding <= 30 {
            let q = gb18030(&*t1, &*t2, b0, b1, b2, b3, have);
            return q;
        }
        if encoding <= 31 {
            let q = big5(&*t1, b0, b1, have);
            return q;
        }
        let q = euc_jp(&*t1, &*t2, b0, b1, b2, have);
        return q;
    }
    if encoding <= 34 {
        if encoding <= 33 {
            let q = iso_2022_jp(&*t1, state, flag, b0, b1, b2, have);
            return q;
        }
        let q = shift_jis(&*t1, b0, b1, have);
        return q;
    }
    if encoding <= 35 {
        let q = euc_kr(&*t1, b0, b1, have);
        return q;
    }
    if encoding <= 36 {
        let q = replacement(flag);
        return q;
    }
    if encoding <= 38 {
        let q = utf_16(encoding == 37, b0, b1, b2, b3, have);
        return drop_mark(q, flag == 1);
    }
    user_defined(b0)
}
