// Bytes in hex, in lower case.
ghost use Rattle.std.specs.Prelude.{Some};
ghost use Rattle.frame_text.specs.Digits.{hex_bytes};

use std::fmt;

// Two digits for each byte, with nothing between them.
#[derive(Clone, Copy)]
pub struct HexBytes<'a>(pub &'a [u8]);

impl fmt::Display for HexBytes<'_> {
    ghost output = { λ x. Some (hex_bytes x.0.now) };

    fn fmt<W: fmt::Write>(&self, f: &mut fmt::Formatter<W>) -> fmt::Result {
        // Four bytes by one call of the library's format, which takes longer than its digits.
        let mut rest = self.0;
        loop {
            rest = match rest {
                [a, b, c, d, tail @ ..] => {
                    let four = u32::from_be_bytes([*a, *b, *c, *d]);
                    write!(f, "{four:08x}")?;
                    tail
                }
                [a, b, tail @ ..] => {
                    let two = u16::from_be_bytes([*a, *b]);
                    write!(f, "{two:04x}")?;
                    tail
                }
                [one, tail @ ..] => {
                    let one = *one;
                    write!(f, "{one:02x}")?;
                    tail
                }
                [] => return Ok(()),
            };
        }
    }
}
