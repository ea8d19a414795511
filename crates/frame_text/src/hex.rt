// Bytes read from hex.
ghost use Rattle.std.specs.Prelude.{◌≡◌, ◌<◌, IfSome, Some};
ghost use Rattle.frame_text.specs.Hex.{digit_value, hex_of, hex_words, Answered};
ghost use Rattle.frame_text.specs.declared.hex.HexError.TheVariants.{Memory};

use std::alloc::{AllocFailed as NoRoom, Global};
use std::fmt;
use text::is_blank;

#[derive(Clone, Copy, Debug, PartialEq, Eq)]
pub enum HexError {
    // something else than digits and blanks
    NotHex,
    OddDigits,
    Memory,
}

// Written out: a derive would not say which case is made.
impl<T: Drop> From<NoRoom<T>> for HexError {
    ghost from_gives = { λ _ e. e ≡ Memory };

    fn from(_e: NoRoom<T>) -> HexError {
        HexError::Memory
    }
}

// Written out: a derive would not say which bytes are written.
impl fmt::Display for HexError {
    ghost output = { λ e. Some (hex_words e) };

    fn fmt<W: fmt::Write>(&self, f: &mut fmt::Formatter<W>) -> fmt::Result {
        match *self {
            HexError::NotHex => f.write_str("a frame in hex has digits and blanks alone"),
            HexError::OddDigits => f.write_str("the number of digits is odd"),
            HexError::Memory => f.write_str("there was not enough memory"),
        }
    }
}

// The value of a digit, upper case or lower.
fn digit_value(b: u8) -> Option<u8>
    ensures value { result ≡ digit_value b }
    ensures bound { IfSome result (λ v. v < 16) }
{
    char::from(b).to_digit(16).map(|value| value as u8)
}

// The bytes that a line has in hex. Blanks may stand anywhere in it.
pub fn read_hex(heap: Global, line: &[u8]) -> Result<Vec<u8>, HexError>
    ensures { Answered (hex_of line.now) result }
{
    let mut bytes = Vec::new(heap);
    // A loop, and no chunks of two: blanks may stand between the digits of a byte.
    let mut high = None;
    for b in line {
        if is_blank(*b) {
            continue;
        }
        let Some(value) = digit_value(*b) else {
            return Err(HexError::NotHex);
        };
        match high {
            None => high = Some(value),
            Some(first) => {
                bytes.push(16 * first + value)?;
                high = None;
            }
        }
    }
    match high {
        None => Ok(bytes),
        Some(_) => Err(HexError::OddDigits),
    }
}
