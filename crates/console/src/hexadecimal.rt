// Bytes as hexadecimal digits, two a byte.
ghost use Rattle.std.specs.Prelude.{◌≡◌};
ghost use Rattle.console.specs.Hexadecimal.{digit_value};

use std::alloc::{AllocError, Global};
use std::fmt;

// The value of a digit, with letters of either case.
pub fn digit_value(b: u8) -> Option<u8>
    ensures { result ≡ digit_value b }
{
    match b {
        b'0'..=b'9' => Some(b - b'0'),
        b'a'..=b'f' => Some(b - b'a' + 10),
        b'A'..=b'F' => Some(b - b'A' + 10),
        _ => None,
    }
}

// The bytes that a text says, or none where it is no text of digits, two a byte.
// (A for and no chain: each pair of digits may fail in two ways, by a wrong digit, which is none, or for lack of memory, which `?`
// passes on.)
pub fn bytes_of(heap: Global, text: &str) -> Result<Option<Vec<u8>>, AllocError> {
    let (pairs, rest) = text.as_bytes().as_chunks::<2>();
    if !rest.is_empty() {
        return Ok(None);
    }
    let mut bytes = Vec::with_capacity(heap, pairs.len())?;
    for [high, low] in pairs {
        let (Some(high), Some(low)) = (digit_value(*high), digit_value(*low)) else {
            return Ok(None);
        };
        bytes.push(high << 4 | low)?;
    }
    Ok(Some(bytes))
}

// Bytes shown as digits, with nothing between them.
#[derive(Clone, Copy)]
pub struct Hex<'a>(pub &'a [u8]);

impl fmt::Display for Hex<'_> {
    fn fmt<W: fmt::Write>(&self, f: &mut fmt::Formatter<W>) -> fmt::Result {
        for b in self.0 {
            write!(f, "{b:02x}")?;
        }
        Ok(())
    }
}
