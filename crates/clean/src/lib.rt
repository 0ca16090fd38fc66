// Document 02, Ask 10: is a list clean? Its bytes are decoded part by part in refusing mode into a room of the call's own.
#![tactic(auto)]

ghost use Rattle.std.specs.Prelude.{◌≡◌, ◌≢◌, ◌≤◌, ◌<◌, MatchResult, length};
ghost use Rattle.standard.specs.Encodings.{lent};
ghost use Rattle.clean.specs.Checking.{check_refusal, checking};
ghost use Rattle.clean.specs.Code.{answered};

use decoder::{Answer, Decoder};
use index::tables_fit;

// The answer: a refusal number or 0; 1 where the list is clean; else place and line of its first error. A number that is not in use is 0.
#[repr(C)]
#[derive(Clone, Copy)]
pub struct Checked {
    // the bytes before the first byte of the sequence at fault
    pub place: u32,
    // one plus the line feeds before it
    pub line: u32,
    pub refusal: u8,
    pub clean: u8,
}

// Why a call is refused, with its number.
#[derive(Clone, Copy)]
enum Refusal {
    UnknownEncoding = 2,
    TablesMisfit = 4,
    TooLong = 8,
}

// Why a list is not clean: the call is refused, or the first error stands at a place, in a line.
#[derive(Clone, Copy)]
enum Unclean {
    Refused(Refusal),
    Faulty { place: u32, line: u32 },
}

// The answer as C reads it.
fn answered(judged: Result<(), Unclean>) -> Checked
    ensures { result ≡ answered judged }
{
    let none = Checked {
        place: 0,
        line: 0,
        refusal: 0,
        clean: 0,
    };
    match judged {
        Ok(()) => Checked { clean: 1, ..none },
        Err(Unclean::Refused(refusal)) => Checked {
            refusal: refusal as u8,
            ..none
        },
        Err(Unclean::Faulty { place, line }) => Checked {
            place,
            line,
            ..none
        },
    }
}

// A call in refusing mode: the decoder afterwards, or the error that it reports.
fn passed(answer: Answer) -> Result<Decoder, Unclean>
    ensures { MatchResult result
        (λ d. (answer.refusal ≢ 11) × (d ≡ answer.decoder))
        (λ u. (answer.refusal ≡ 11) × (u ≡ Unclean.Faulty answer.place answer.line)) }
{
    if answer.refusal == 11 {
        return Err(Unclean::Faulty {
            place: answer.place,
            line: answer.line,
        });
    }
    Ok(answer.decoder)
}

// Is a list that is not refused clean? Its parts are as long as the room allows: three cells less than it has.
fn walk(encoding: u8, bytes: &[u8], t1: &[u32], t2: &[u32], room: &mut [u32]) -> Result<(), Unclean>
    requires { (check_refusal encoding (lent t1.now t2.now) bytes.now ≡ 0) × (3 < length room.old) }
    ensures { answered result ≡ checking encoding (lent t1.now t2.now) bytes.now }
{
    let mut decoder = Decoder::open(encoding, 1, 0).decoder;
    for part in bytes.chunks(room.len() - 3) {
        let fed = decoder.feed(part, t1, t2, room);
        decoder = passed(fed)?;
    }
    let last = decoder.finish(t1, t2, room);
    passed(last)?;
    Ok(())
}

// The same in a room of the call's own, of so many cells.
fn walk_in<const CELLS: usize>(
    encoding: u8,
    bytes: &[u8],
    t1: &[u32],
    t2: &[u32],
) -> Result<(), Unclean>
    requires { (check_refusal encoding (lent t1.now t2.now) bytes.now ≡ 0) × (3 < CELLS) × (CELLS ≤ 8195) }
    ensures { answered result ≡ checking encoding (lent t1.now t2.now) bytes.now }
{
    let mut room = [0u32; CELLS];
    walk(encoding, bytes, t1, t2, &mut room)
}

// Is a list clean, and if not, why? A short one has a room that is soon cleared.
fn judged(encoding: u8, bytes: &[u8], t1: &[u32], t2: &[u32]) -> Result<(), Unclean>
    ensures { answered result ≡ checking encoding (lent t1.now t2.now) bytes.now }
{
    if 39 < encoding {
        return Err(Unclean::Refused(Refusal::UnknownEncoding));
    }
    if !tables_fit(encoding, t1, t2) {
        return Err(Unclean::Refused(Refusal::TablesMisfit));
    }
    if 65536 < bytes.len() {
        return Err(Unclean::Refused(Refusal::TooLong));
    }
    if bytes.len() <= 512 {
        return walk_in::<515>(encoding, bytes, t1, t2);
    }
    walk_in::<8195>(encoding, bytes, t1, t2)
}

// Is this list of an encoding clean, with the tables that the encoding wants?
pub fn check(encoding: u8, bytes: &[u8], t1: &[u32], t2: &[u32]) -> Checked
    ensures { result ≡ checking encoding (lent t1.now t2.now) bytes.now }
{
    answered(judged(encoding, bytes, t1, t2))
}
