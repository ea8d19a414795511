// Cuts a run of bytes in two at a byte.
ghost use Rattle.std.specs.Prelude.{◌≡◌, ◌+◌, ◌<◌, length, take, drop, unwrap_or, IfSome};

// What stands before the byte at `at`, and what follows that byte. At `None`, all of it, and then nothing.
pub(crate) fn cut_at(bytes: &[u8], at: Option<usize>) -> (&[u8], &[u8])
    requires { IfSome at (λ i. i < length bytes.now) }
    ensures front { result.0.now ≡ take (unwrap_or at (length bytes.now)) bytes.now }
    ensures back { result.1.now ≡ drop (unwrap_or at (length bytes.now) + 1) bytes.now }
{
    match at {
        Some(at) => (&bytes[..at], &bytes[at + 1..]),
        None => (bytes, &[]),
    }
}
