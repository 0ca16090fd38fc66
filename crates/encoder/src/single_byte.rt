// Single-byte encodings: document 01, "Writing rules".

ghost use Rattle.std.specs.Prelude.{◌≡◌, ◌≤◌, length};
ghost use Rattle.standard.specs.Indexes.{windows1252};
ghost use Rattle.standard.specs.Search.{searching};
ghost use Rattle.standard.specs.Encoders.SingleByte.{or_error_with, single_byte_encode};
ghost use Rattle.index.specs.IndexCode.{pointer_of};
ghost use Rattle.reverse_index_spec.specs.ReverseIndex.{look_up};
ghost use Rattle.encoder.specs.WriterCode.{given, Found128};

// The byte of a pointer that is found.
fn at(found: Option<usize>, c: u32) -> Option<u8>
    requires { Found128 found }
    ensures { given c result ≡ or_error_with (pointer_of found) c }
{
    found.map(|p| p as u8 + 0x80)
}

// By a table of 128 cells or fewer and a reverse index of any cells, or of none.
pub(crate) fn byte_of(table: &[u32], links: &[u32], c: u32) -> Option<u8>
    requires { length table.now ≤ 128 }
    ensures { given c result ≡ single_byte_encode (look_up table.now links.now) c }
{
    if c < 0x80 {
        return Some(c as u8);
    }
    at(reverse_index::pointer_outside(table, links, 1, 0, c), c)
}

// By a search of a table of 128 cells or fewer: the first cell that counts as mapped and equals the scalar.
fn searched(table: &[u32], c: u32) -> Option<u8>
    requires { length table.now ≤ 128 }
    ensures { given c result ≡ single_byte_encode (searching table.now) c }
{
    if c < 0x80 {
        return Some(c as u8);
    }
    at(index::pointer(table, c), c)
}

// windows-1252: A0 to FF stand for themselves, the others are searched for.
pub(crate) fn windows_1252(c: u32) -> Option<u8>
    ensures { given c result ≡ single_byte_encode (searching windows1252) c }
{
    if c < 0xA0 {
        return searched(&index::IRREGULAR, c);
    }
    if c <= 0xFF {
        return Some(c as u8);
    }
    searched(&index::IRREGULAR, c)
}
