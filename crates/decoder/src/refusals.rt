// The refusals that a record and the lent tables give.

ghost use Rattle.std.specs.Prelude.{◌≡◌, true, false, ◌||◌, List, ℕ, ◌≤◌, ◌<◌, ltb, eqb, MatchResult};
ghost use Rattle.standard.specs.Encodings.{family, traits, lent, fits};
ghost use Rattle.standard.specs.Sequence.{shift};
ghost use Rattle.standard.specs.Choice.{mark_width, rests};
ghost use Rattle.decoder.specs.Record.{spot_of, held_of};
ghost use Rattle.decoder.specs.Valid.{unshifted, marking, paired, replaced, iso_cost, iso_least, escaping};
ghost use Rattle.decoder.specs.Valid.{possible, possible_at, ended_totals, unused, valid_rest, valid};
ghost use Rattle.decoder.specs.Record.{new, closed};
ghost use Rattle.decoder.specs.Calls.{opening, refuse, feeding, finishing};
ghost use Rattle.decoder.specs.Code.{number, accepting, refusing, utf16, most_lines, record_refusal, misfit};

use crate::Decoder;
use index::tables_fit;
use reading::choice::{Chosen, choose, reader};
use sequences::next;

// Is the encoding UTF-16BE or UTF-16LE?
fn utf_16(encoding: u8) -> bool
    ensures { result ≡ utf16 encoding }
{
    encoding == 37 || encoding == 38
}

// Does rule "drop" apply to an encoding?
pub(crate) fn marked(encoding: u8) -> bool
    ensures { result ≡ (traits (family encoding)).mark }
{
    encoding == 0 || utf_16(encoding)
}

// Most encodings: no shift, and a line feed takes a byte.
fn unshifted(state: u8, flag: u8, c: u32, l: u32) -> bool
    ensures { result ≡ unshifted (shift state (eqb flag 1)) c l }
{
    state == 0 && flag != 1 && l <= c
}

// UTF-8: a mark is still to be dropped where nothing was read.
fn marking(state: u8, flag: u8, c: u32, l: u32) -> bool
    ensures { result ≡ marking (shift state (eqb flag 1)) c l }
{
    state == 0 && if flag == 1 { c == 0 && l == 0 } else { l <= c }
}

// UTF-16: as UTF-8, by pairs of bytes.
fn paired(state: u8, flag: u8, c: u32, l: u32) -> bool
    ensures { result ≡ paired (shift state (eqb flag 1)) c l }
{
    c % 2 == 0 && marking(state, flag, c / 2, l)
}

// replacement: no line feeds; its error is given once, and ends a decoder in refusing mode.
fn replaced(mode: u8, state: u8, flag: u8, c: u32, l: u32) -> bool
    ensures { result ≡ replaced mode (shift state (eqb flag 1)) c l }
{
    state == 0
        && l == 0
        && if flag == 1 {
            mode == 0 && 0 < c
        } else {
            c == 0
        }
}

// ISO-2022-JP: the bytes without a line feed that it takes to come to a shift.
#[tactic(auto, unfolding(crate::specs::Valid::iso_cost))]
fn iso_cost(mode: u8, state: u8, flag: u8) -> u32
    ensures { result ≡ iso_cost mode (shift state (eqb flag 1)) }
{
    if flag == 1 {
        return 3;
    }
    match state {
        0 => 0,
        1 => 3,
        2 => 4,
        _ if mode == 0 => 4,
        _ => 5,
    }
}

// ISO-2022-JP: the bytes that it takes in all.
#[tactic(auto, unfolding(crate::specs::Valid::iso_least))]
fn iso_least(state: u8, flag: u8) -> u32
    ensures { result ≡ iso_least (shift state (eqb flag 1)) }
{
    if flag != 1 && state == 1 { 4 } else { 0 }
}

// ISO-2022-JP: a line feed takes a byte, and the shift its own.
fn escaping(mode: u8, state: u8, flag: u8, c: u32, l: u32) -> bool
    ensures { result ≡ escaping mode (shift state (eqb flag 1)) c l }
{
    let cost = iso_cost(mode, state, flag);
    let least = iso_least(state, flag);
    state <= 3 && cost <= c && l <= c - cost && least <= c
}

// Can a decoder of this encoding and mode come to this shift, with c bytes in whole sequences and l line feeds handed out?
fn possible(encoding: u8, mode: u8, state: u8, flag: u8, c: u32, l: u32) -> bool
    ensures { result ≡ possible (family encoding) mode (shift state (eqb flag 1)) c l }
{
    match encoding {
        0 => marking(state, flag, c, l),
        33 => escaping(mode, state, flag, c, l),
        36 => replaced(mode, state, flag, c, l),
        37 | 38 => paired(state, flag, c, l),
        _ => unshifted(state, flag, c, l),
    }
}

// The bytes of the mark that led to a stage.
fn mark_width(stage: u8) -> u32
    ensures { result ≡ mark_width stage }
{
    if stage == 2 { 3 } else { 2 }
}

// While the choice is to come there is no shift, and nothing was read.
#[tactic(auto, unfolding(crate::specs::Valid::possible_at))]
fn possible_waiting(d: Decoder, c: u32) -> bool
    requires { d.stage ≡ 1 }
    ensures { result ≡ possible_at d.encoding d.mode (spot_of d) c d.lines }
{
    c == 0 && unshifted(d.state, d.flag, 0, d.lines)
}

// Behind a mark its bytes count, and no other mark is dropped.
#[tactic(auto, unfolding(crate::specs::Valid::possible_at))]
fn possible_marked(d: Decoder, c: u32) -> bool
    requires { 1 < d.stage }
    ensures { result ≡ possible_at d.encoding d.mode (spot_of d) c d.lines }
{
    let width = mark_width(d.stage);
    let reads = reader(d.encoding, d.stage);
    d.stage <= 4
        && d.flag != 1
        && width <= c
        && possible(reads, d.mode, d.state, d.flag, c - width, d.lines)
}

// Can a decoder come to this record's spot, with c bytes in whole sequences?
#[tactic(auto, unfolding(crate::specs::Valid::possible_at))]
fn possible_at(d: Decoder, c: u32) -> bool
    ensures { result ≡ possible_at d.encoding d.mode (spot_of d) c d.lines }
{
    match d.stage {
        0 => possible(d.encoding, d.mode, d.state, d.flag, c, d.lines),
        1 => possible_waiting(d, c),
        _ => possible_marked(d, c),
    }
}

// The most line feeds that an encoding gives of n bytes.
#[tactic(auto, unfolding(crate::specs::Code::most_lines))]
fn most_lines(encoding: u8, n: u32) -> u32
    ensures { result ≡ most_lines encoding n }
{
    match encoding {
        36 => 0,
        37 | 38 => n / 2,
        _ => n,
    }
}

// Can a decoder that has ended have taken n bytes and handed out l line feeds? By the label's encoding, or by UTF-8 behind its mark.
fn ended_totals(encoding: u8, n: u32, l: u32) -> bool
    ensures { result ≡ ended_totals (family encoding) n l }
{
    let most = most_lines(encoding, n);
    l <= most || 3 <= n && l <= n - 3
}

// Is byte n, counted from 0, in use, or else 0?
fn free(n: u8, held: u8, b: u8) -> bool
    ensures { result ≡ (ltb n held || eqb b 0) }
{
    n < held || b == 0
}

// Are the bytes that are not in use 0?
#[tactic(auto, unfolding(crate::specs::Valid::unused))]
fn unused(d: Decoder) -> bool
    ensures { result ≡ unused d }
{
    free(2, d.held, d.third) && free(1, d.held, d.second) && free(0, d.held, d.first)
}

// Are the bytes held a started mark or sequence? No table is looked into.
fn started(d: Decoder) -> bool
    requires { d.held ≤ 3 }
    ensures { result ≡ rests d.encoding (spot_of d) (held_of d) }
{
    if d.held == 0 {
        return true;
    }
    if d.stage == 1 {
        let c = choose(d.first, d.second, d.third, d.held as usize);
        return matches!(c, Chosen::Waits);
    }
    let reads = reader(d.encoding, d.stage);
    let q = next(
        &[],
        &[],
        reads,
        d.state,
        d.flag,
        d.first,
        d.second,
        d.third,
        0,
        d.held as usize,
    );
    q.is_none()
}

// What the test of a record says of one that has ended.
#[tactic(auto, unfolding(crate::specs::Valid::valid_rest))]
fn valid_ended(d: Decoder) -> bool
    requires { d.ended ≡ 1 }
    ensures { result ≡ valid_rest d }
{
    d.held == 0
        && d.stage == 0
        && d.state == 0
        && d.flag == 0
        && ended_totals(d.encoding, d.taken, d.lines)
}

// What it says of any record: one that has not ended holds the last of the bytes taken.
#[tactic(auto, unfolding(crate::specs::Valid::valid_rest))]
fn valid_rest(d: Decoder) -> bool
    requires { d.held ≤ 3 }
    ensures { result ≡ valid_rest d }
{
    if d.ended == 1 {
        return valid_ended(d);
    }
    let held = u32::from(d.held);
    held <= d.taken && possible_at(d, d.taken - held) && started(d)
}

// Do some opening, accepted feeds and finish leave this record?
#[tactic(auto, unfolding(crate::specs::Valid::valid))]
fn valid(d: Decoder) -> bool
    ensures { result ≡ valid d }
{
    d.encoding <= 39
        && d.mode <= 1
        && d.flag <= 1
        && d.held <= 3
        && d.ended <= 1
        && unused(d)
        && valid_rest(d)
}

// Why a call is refused, with its number.
#[derive(Clone, Copy)]
pub(crate) enum Refusal {
    UnknownEncoding = 2,
    UnknownMode = 3,
    TablesMisfit = 4,
    InvalidRecord = 5,
    Ended = 6,
}

impl From<Refusal> for u8 {
    ghost from_gives = { λ refusal n. n ≡ number refusal };

    fn from(refusal: Refusal) -> u8 {
        refusal as u8
    }
}

// May a decoder be opened with these numbers?
pub(crate) fn openable(encoding: u8, mode: u8, rule: u8) -> Result<(), Refusal>
    ensures { MatchResult result
        (λ _. opening encoding mode rule ≡ accepting 0 (new encoding mode rule))
        (λ r. opening encoding mode rule ≡ refusing (number r) (closed 0 0 0 0)) }
{
    if 39 < encoding {
        return Err(Refusal::UnknownEncoding);
    }
    if 1 < mode || 2 < rule {
        return Err(Refusal::UnknownMode);
    }
    Ok(())
}

// Is a record one that calls leave, and not ended?
fn usable(d: Decoder) -> Result<(), Refusal>
    ensures { MatchResult result (λ _. record_refusal d ≡ 0) (λ r. record_refusal d ≡ number r) }
{
    if !valid(d) {
        return Err(Refusal::InvalidRecord);
    }
    if d.ended == 1 {
        return Err(Refusal::Ended);
    }
    Ok(())
}

// May a record be fed with these tables, as far as they and the record tell?
pub(crate) fn feedable(d: Decoder, t1: &[u32], t2: &[u32]) -> Result<(), Refusal>
    ensures { MatchResult result
        (λ _. (record_refusal d ≡ 0) × (fits (family d.encoding) (lent t1.now t2.now) ≡ true))
        (λ r. (chunk room : List ℕ) → feeding d (lent t1.now t2.now) chunk room ≡ refuse (number r) d room) }
{
    usable(d)?;
    if !tables_fit(d.encoding, &*t1, &*t2) {
        return Err(Refusal::TablesMisfit);
    }
    Ok(())
}

// May a record be finished with these tables? They are looked at only while the choice is still to come.
pub(crate) fn finishable(d: Decoder, t1: &[u32], t2: &[u32]) -> Result<(), Refusal>
    ensures { MatchResult result
        (λ _. (record_refusal d ≡ 0) × (misfit d (lent t1.now t2.now) ≡ false))
        (λ r. (room : List ℕ) → finishing d (lent t1.now t2.now) room ≡ refuse (number r) d room) }
{
    usable(d)?;
    if misfits(d, &*t1, &*t2) {
        return Err(Refusal::TablesMisfit);
    }
    Ok(())
}

// Do the lent tables not fit, where a finish looks at them: while the choice is still to come?
fn misfits(d: Decoder, t1: &[u32], t2: &[u32]) -> bool
    ensures { result ≡ misfit d (lent t1.now t2.now) }
{
    d.stage == 1 && !tables_fit(d.encoding, &*t1, &*t2)
}
