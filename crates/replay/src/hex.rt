//! Bytes in hexadecimal digits.
ghost use Rattle.std.specs.Prelude.{◌≡◌, ℕ, [], ◌∷◌, ◌<◌, IfOk, MatchOption, ◌≢◌};
ghost use Rattle.replay.specs.Hex.{digit, digits, written};

use crate::error::BlockError;
use std::alloc::Global;
use std::fmt;

/// The value of a lower-case digit. The library's `to_digit` and the kit's hex take upper case too, which no vector has.
pub fn value(code: u8) -> Option<u8>
    ensures { MatchOption result ((v : ℕ) → v < 16 → digit v ≢ code) (λ v. (v < 16) × (digit v ≡ code)) }
{
    match code {
        b'0'..=b'9' => Some(code - b'0'),
        b'a'..=b'f' => Some(code - b'a' + 10),
        _ => None,
    }
}

/// The bytes that the field writes, two digits each, or - for none.
pub fn bytes_of(heap: Global, field: &str) -> Result<Vec<u8>, BlockError>
    ensures { IfOk result (λ v. written v.items ≡ field.now) }
{
    match field {
        "-" => Ok(Vec::new(heap)),
        "" => Err(BlockError::EmptyField),
        _ => decode(heap, field.as_bytes()),
    }
}

// The bytes of the digits, two for each.
fn decode(heap: Global, codes: &[u8]) -> Result<Vec<u8>, BlockError>
    ensures { IfOk result (λ v. digits v.items ≡ codes.now) }
{
    codes.chunks(2).map(byte_of).try_collect(heap)
}

// The byte of two digits.
fn byte_of(codes: &[u8]) -> Result<u8, BlockError>
    ensures { IfOk result (λ b. digits (b ∷ []) ≡ codes.now) }
{
    let [high, low] = codes else {
        return Err(BlockError::OddDigits);
    };
    match (value(*high), value(*low)) {
        (Some(h), Some(l)) => Ok(h * 16 + l),
        _ => Err(BlockError::NoDigit),
    }
}

/// Bytes as a field: two digits each, or - for none.
#[derive(Clone, Copy)]
pub struct Hex<'a>(pub &'a [u8]);

impl fmt::Display for Hex<'_> {
    fn fmt<W: fmt::Write>(&self, f: &mut fmt::Formatter<W>) -> fmt::Result {
        if self.0.is_empty() {
            return write!(f, "-");
        }
        for byte in self.0 {
            write!(f, "{byte:02x}")?;
        }
        Ok(())
    }
}
