// The parts of an index line: document 01, "Index line".

ghost use Rattle.std.specs.Prelude.{◌≡◌, ◌&&◌, ℕ, Bool, ◌≤◌, length};
ghost use Rattle.standard.specs.Base.{within};
ghost use Rattle.index_spec.specs.IndexLine.{hexadecimal, digit, value, ending};
ghost use Rattle.index_spec.specs.IndexRead.{front, behind, is_no_entry, read};
ghost use Rattle.index.specs.IndexCode.{read_of};

// What a line says: the cell at a pointer.
#[derive(Clone, Copy)]
pub(crate) struct Entry {
    pub(crate) pointer: u32,
    pub(crate) code_point: u32,
}

// A line that is neither an entry nor without one.
#[derive(Clone, Copy)]
pub(crate) struct BadLine;

// The bytes at the front that pass a test, and those behind them.
fn split_front<F: Fn(u8) -> bool>(bytes: &[u8], passes: F) -> (&[u8], &[u8])
    requires { F.IsAlwaysCallable passes }
    ensures { (p : ℕ → Bool) → ((b : ℕ) (r : Bool) → F.post passes b r → r ≡ p b) →
        (result.0.now ≡ front p bytes.now) × (result.1.now ≡ behind p bytes.now) }
{
    for (count, b) in bytes.iter().enumerate() {
        if !passes(*b) {
            return bytes.split_at(count);
        }
    }
    bytes.split_at(bytes.len())
}

fn is_hexadecimal(b: u8) -> bool
    ensures { result ≡ hexadecimal b }
{
    matches!(b, b'0'..=b'9' | b'A'..=b'F')
}

// The number that a digit stands for.
fn digit(b: u8) -> u32
    ensures value { result ≡ digit b }
    ensures small { result ≤ 200 }
{
    if b < b'A' {
        u32::from(b.saturating_sub(b'0'))
    } else {
        u32::from(b - b'A') + 10
    }
}

// The number that a part's digits stand for.
fn number(digits: &[u8], base: u32) -> u32
    requires few { length digits.now ≤ 7 }
    requires small { base ≤ 16 }
    ensures { result ≡ value base 0 digits.now }
{
    let mut n = 0;
    for b in digits {
        n = n * base + digit(*b);
    }
    n
}

// Does a line end here, or go on behind a tab?
fn closes(rest: &[u8]) -> bool
    ensures { result ≡ ending rest.now }
{
    matches!(rest.first(), None | Some(b'\t'))
}

// Is a line empty, or does it start with `#`?
fn has_no_entry(line: &[u8]) -> bool
    ensures { result ≡ is_no_entry line.now }
{
    matches!(line.first(), None | Some(b'#'))
}

// Have the parts as many digits as they may, and does the line close behind them?
fn parts_fit(pointer: &[u8], code: &[u8], rest: &[u8]) -> bool
    ensures { result ≡ (within 1 (length pointer.now) 7 && (within 4 (length code.now) 6 && ending rest.now)) }
{
    matches!(pointer.len(), 1..=7) && matches!(code.len(), 4..=6) && closes(rest)
}

// A line, read from its start: spaces, the pointer's digits, a tab and 0x, the code point's digits, and the ending.
pub(crate) fn read(line: &[u8]) -> Result<Option<Entry>, BadLine>
    ensures { read_of result ≡ read line.now }
{
    if has_no_entry(line) {
        return Ok(None);
    }
    let (_, rest) = split_front(line, |b| b == b' ');
    let (pointer, rest) = split_front(rest, |b| b.is_ascii_digit());
    let Some(rest) = rest.strip_prefix(b"\t0x") else {
        return Err(BadLine);
    };
    let (code, rest) = split_front(rest, is_hexadecimal);
    if !parts_fit(pointer, code, rest) {
        return Err(BadLine);
    }
    let code_point = number(code, 16);
    if !crate::mapped(code_point) {
        return Err(BadLine);
    }
    Ok(Some(Entry {
        pointer: number(pointer, 10),
        code_point,
    }))
}
