// The lines of the report, written into a lent room of bytes. By hand and not by `write!`: the contract of a line says each byte and where it
// stands, and a step's lines go out in one write.

ghost use Rattle.std.specs.Prelude.{◌+◌, ◌*◌, ◌≤◌, length};
ghost use Rattle.program_text.specs.Places.{Put};
ghost use Rattle.mend_spec.specs.Mended.{span_line, span_lines};

use program_text::{put_bytes, put_count};

// The line of a replaced sequence, written from a place on; the place behind it.
fn put_span(report: &mut [u8], at: usize, place: u32, width: u32) -> usize
    requires { at + 64 ≤ length report.old }
    ensures { Put report.old at (span_line place width) result report.new }
{
    let tab = put_count(report, at, u64::from(place));
    report[tab] = b'\t';
    let end = put_count(report, tab + 1, u64::from(width));
    put_bytes(report, end, b"\tU+FFFD\n")
}

// The lines of replaced sequences, of which the spans have a place and a width each, at the front of the report; the place behind them.
pub(crate) fn put_spans(report: &mut [u8], spans: &[u32]) -> usize
    requires { 32 * length spans.now ≤ length report.old }
    ensures { Put report.old 0 (span_lines spans.now) result report.new }
{
    let mut o = 0;
    for span in spans.chunks_exact(2) {
        o = put_span(report, o, span[0], span[1]);
    }
    o
}
