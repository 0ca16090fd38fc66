// The rows and columns of the pairs that a run reads, by bytes and as a table. 32768 is none.

ghost use Rattle.std.specs.Prelude.{◌≡◌, ℕ, ◌+◌, ◌≤◌, get_or};
ghost use Rattle.layouts.specs.Rows.{no_cell};
ghost use Rattle.pair_runs.specs.Layout.{left_out, row, column, stepped, Holds, Laid};
ghost use Rattle.pair_runs.specs.Paired.{Paired};

use layouts::{column, pointer, row, sum, within};

// Leads without a row: in Big5 88, which has pairs of two scalars; in Shift_JIS those of the user rows, which are not in the index.
fn left_out(encoding: u8, lead: u8) -> bool
    ensures { result ≡ left_out encoding lead }
{
    if encoding == 31 {
        return lead == 0x88;
    }
    if encoding == 34 {
        return within(0xF0, lead, 0xF9);
    }
    false
}

// The row of a lead.
pub(crate) fn pair_row(encoding: u8, lead: u8) -> u16
    ensures { result ≡ row encoding lead }
{
    if left_out(encoding, lead) {
        return 32768;
    }
    row(encoding, lead)
}

// The pointer of a pair.
pub(crate) fn pair_pointer(encoding: u8, lead: u8, trail: u8) -> usize
    ensures { result ≡ row encoding lead + column encoding trail }
{
    if left_out(encoding, lead) {
        return sum(32768, column(encoding, trail));
    }
    pointer(encoding, lead, trail)
}

// Steps from a number on, into n cells from a place on.
fn lay(layout: &mut [u16; 512], at: usize, n: usize, first: usize, step: u16)
    requires { (at + n ≤ 512) × (first + n ≤ 190) × (step ≤ 190) }
    ensures { (f : ℕ → ℕ) → Holds layout.old f → Holds layout.new (stepped at n first step f) }
{
    for k in 0..n {
        layout[at + k] = ((first + k) as u16) * step;
    }
}

// The rows and columns of GBK and gb18030.
fn lay_gb18030(layout: &mut [u16; 512])
    requires { Holds layout.old (λ j. no_cell) }
    ensures { Laid 30 layout.new }
{
    lay(layout, 0x81, 126, 0, 190);
    lay(layout, 256 + 0x40, 63, 0, 1);
    lay(layout, 256 + 0x80, 127, 63, 1);
}

// Of Big5.
fn lay_big5(layout: &mut [u16; 512])
    requires { Holds layout.old (λ j. no_cell) }
    ensures { Laid 31 layout.new }
{
    lay(layout, 0x81, 7, 0, 157);
    lay(layout, 0x89, 118, 8, 157);
    lay(layout, 256 + 0x40, 63, 0, 1);
    lay(layout, 256 + 0xA1, 94, 63, 1);
}

// Of EUC-JP.
fn lay_euc_jp(layout: &mut [u16; 512])
    requires { Holds layout.old (λ j. no_cell) }
    ensures { Laid 32 layout.new }
{
    lay(layout, 0xA1, 94, 0, 94);
    lay(layout, 256 + 0xA1, 94, 0, 1);
}

// Of Shift_JIS.
fn lay_shift_jis(layout: &mut [u16; 512])
    requires { Holds layout.old (λ j. no_cell) }
    ensures { Laid 34 layout.new }
{
    lay(layout, 0x81, 31, 0, 188);
    lay(layout, 0xE0, 16, 31, 188);
    lay(layout, 0xFA, 3, 57, 188);
    lay(layout, 256 + 0x40, 63, 0, 1);
    lay(layout, 256 + 0x80, 125, 63, 1);
}

// Of EUC-KR.
fn lay_euc_kr(layout: &mut [u16; 512])
    requires { Holds layout.old (λ j. no_cell) }
    ensures { Laid 35 layout.new }
{
    lay(layout, 0x81, 126, 0, 190);
    lay(layout, 256 + 0x41, 190, 0, 1);
}

// All rows and columns, into a table without any.
pub(crate) fn lay_out(encoding: u8, layout: &mut [u16; 512])
    requires { (Paired encoding) × Holds layout.old (λ j. no_cell) }
    ensures { Laid encoding layout.new }
{
    if encoding <= 30 {
        lay_gb18030(layout);
        return;
    }
    if encoding == 31 {
        lay_big5(layout);
        return;
    }
    if encoding == 32 {
        lay_euc_jp(layout);
        return;
    }
    if encoding == 34 {
        lay_shift_jis(layout);
        return;
    }
    lay_euc_kr(layout);
}

// The row of a lead by the table.
pub(crate) fn row_laid(layout: &[u16; 512], lead: u8) -> u16
    ensures { result ≡ get_or layout.now lead 0 }
{
    layout[lead as usize]
}

// The pointer of a pair by the table.
pub(crate) fn pointer_laid(layout: &[u16; 512], lead: u8, trail: u8) -> usize
    ensures { result ≡ get_or layout.now lead 0 + get_or layout.now (256 + trail) 0 }
{
    sum(layout[lead as usize], layout[256 + trail as usize])
}
