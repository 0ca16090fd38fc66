// x-user-defined: document 01, "Writing rules".

ghost use Rattle.std.specs.Prelude.{◌≡◌};
ghost use Rattle.standard.specs.Encoders.UserDefined.{user_defined_encode};
ghost use Rattle.encoder.specs.WriterCode.{given};

// F780 to F7FF have the bytes 80 to FF.
pub(crate) fn byte_of(c: u32) -> Option<u8>
    ensures { given c result ≡ user_defined_encode c }
{
    match c {
        0..0x80 => Some(c as u8),
        0xF780..=0xF7FF => Some((c - 0xF780 + 0x80) as u8),
        _ => None,
    }
}
