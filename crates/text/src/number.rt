// Decimal numbers.
ghost use Rattle.std.specs.Prelude.{◌≡◌};
ghost use Rattle.text.specs.Decimal.{decimal_of, with_digit};

// The number that `value` becomes with one more digit at its end, if that is a digit and the number fits.
fn with_digit(value: u32, digit: u8) -> Option<u32>
    ensures { result ≡ with_digit value digit }
{
    let tens = value.checked_mul(10)?;
    if !digit.is_ascii_digit() {
        return None;
    }
    tens.checked_add(u32::from(digit - b'0'))
}

// The value of a word that is a decimal number: digits alone, at least one, and at most 4,294,967,295.
pub fn decimal(word: &[u8]) -> Option<u32>
    ensures value { result ≡ decimal_of word.now }
{
    if word.is_empty() {
        return None;
    }
    word.iter().try_fold(0, |value, b| with_digit(value, *b))
}
