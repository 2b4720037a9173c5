//! Bytes of a sheet as printable text.
ghost use Rattle.std.specs.Prelude.{◌≡◌, Some};
ghost use Rattle.std.specs.Fmt.{WritesOnOk};
ghost use Rattle.listing.specs.Escapes.{plain, lead, escape, escaped, escaped_text};

use std::fmt;

/// Bytes as text: printable ASCII as it is, any other byte and the backslash as `\xHH`.
#[derive(Clone, Copy)]
pub struct Escaped<'a> {
    pub bytes: &'a [u8],
}

fn is_plain(byte: u8) -> bool
    ensures { result ≡ plain byte }
{
    matches!(byte, b' '..=b'~') && byte != b'\\'
}

// Writes what stands before the digits of a byte. The zero is written here, since the library takes long to pad a number.
fn write_lead<W: fmt::Write>(byte: u8, f: &mut fmt::Formatter<W>) -> fmt::Result
    ensures { WritesOnOk W.Write.write_str_gives f.old result (lead byte) f.new }
{
    if byte < 0x10 {
        f.write_str("\\x0")
    } else {
        f.write_str("\\x")
    }
}

#[tactic(auto, using(crate::proofs::Escapes::put_escape))]
fn write_escape<W: fmt::Write>(byte: u8, f: &mut fmt::Formatter<W>) -> fmt::Result
    ensures { WritesOnOk W.Write.write_str_gives f.old result (escape byte) f.new }
{
    write_lead(byte, f)?;
    // The width pads nothing: the library writes a number with a width faster than one with none.
    write!(f, "{byte:1X}")
}

fn write_byte<W: fmt::Write>(byte: u8, f: &mut fmt::Formatter<W>) -> fmt::Result
    ensures { WritesOnOk W.Write.write_str_gives f.old result (escaped byte) f.new }
{
    if is_plain(byte) {
        f.write_char(char::from(byte))
    } else {
        write_escape(byte, f)
    }
}

impl<'a> fmt::Display for Escaped<'a> {
    ghost output = { λ s. Some (escaped_text s.bytes.now) };

    fn fmt<W: fmt::Write>(&self, f: &mut fmt::Formatter<W>) -> fmt::Result {
        for byte in self.bytes {
            write_byte(*byte, f)?;
        }
        Ok(())
    }
}
