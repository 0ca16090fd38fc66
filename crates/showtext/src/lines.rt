// The lines that are printed, written into a lent room of bytes. By hand and not by `write!`: the contract of a line says each byte and where it
// stands, and a buffer's lines go out in one write.

ghost use Rattle.std.specs.Prelude.{◌+◌, ◌*◌, ◌≤◌, ◌<◌, ◌^◌, length};
ghost use Rattle.standard.specs.Text.{bytes};
ghost use Rattle.labels_spec.specs.Labels.{name};
ghost use Rattle.program_text.specs.Places.{Put};
ghost use Rattle.showtext.specs.Output.{count, code_point, line, scalar_lines};

use program_text::{put_bytes, put_count, put_hexadecimal};

// The line of a scalar and its count; the place behind it.
fn put_scalar(out: &mut [u8], at: usize, n: u64, c: u32) -> usize
    requires { at + 32 ≤ length out.old }
    ensures { Put out.old at (line (count n) (code_point c)) result out.new }
{
    let tab = put_count(out, at, n);
    out[tab] = b'\t';
    out[tab + 1] = b'U';
    out[tab + 2] = b'+';
    let end = put_hexadecimal(out, tab + 3, c);
    out[end] = b'\n';
    end + 1
}

// The lines of some scalars, the first one's count being n; the place behind them.
pub(crate) fn put_scalars(out: &mut [u8], at: usize, n: u64, scalars: &[u32]) -> usize
    requires { (at + 32 * length scalars.now ≤ length out.old) × (n + length scalars.now < 2 ^ 64) }
    ensures { Put out.old at (scalar_lines n scalars.now) result out.new }
{
    let mut o = at;
    for (i, c) in scalars.iter().enumerate() {
        o = put_scalar(out, o, n + i as u64, *c);
    }
    o
}

// The line of two words; the place behind it.
fn put_words(out: &mut [u8], at: usize, first: &[u8], second: &[u8]) -> usize
    requires { at + length first.now + length second.now + 2 ≤ length out.old }
    ensures { Put out.old at (line first.now second.now) result out.new }
{
    let tab = put_bytes(out, at, first);
    out[tab] = b'\t';
    let end = put_bytes(out, tab + 1, second);
    out[end] = b'\n';
    end + 1
}

// The line of an encoding's name, at the front; the place behind it.
pub(crate) fn put_encoding(out: &mut [u8], encoding: u8) -> usize
    requires { 32 ≤ length out.old }
    ensures { Put out.old 0 (line (bytes "encoding") (name encoding)) result out.new }
{
    let mut name = [0u8; 20];
    let named = labels::name(encoding, &mut name);
    let n = named.length;
    put_words(out, 0, b"encoding", &name[..n])
}
