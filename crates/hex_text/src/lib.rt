// Bytes from their hexadecimal digits.
#![tactic(auto)]

ghost use Rattle.std.specs.Prelude.{◌≡◌, ◌<◌, ℕ, List, Some, IfSome, IfOk, vec_items};
ghost use Rattle.std.specs.List.{AllByRecursion};
ghost use Rattle.std.specs.Option.{option_map};
ghost use Rattle.hex_text.specs.Digits.{digit, byte_of, bytes_of, spelled};

use std::alloc::{AllocError, Global};

// The value of a digit.
fn digit(c: u8) -> Option<u8>
    ensures value { result ≡ digit c }
    ensures small { IfSome result (λ d. d < 16) }
{
    match c {
        b'0'..=b'9' => Some(c - b'0'),
        b'a'..=b'f' => Some(c - b'a' + 10),
        b'A'..=b'F' => Some(c - b'A' + 10),
        _ => None,
    }
}

// The byte of two digits, the high one first.
fn pair(a: u8, b: u8) -> Option<u8>
    ensures { result ≡ byte_of (digit a) (digit b) }
{
    let high = digit(a)?;
    let low = digit(b)?;
    Some(16 * high + low)
}

// The bytes of pairs of digits. A `collect` into an Option would not say when it fails, so this is a loop.
#[tactic(auto, using(crate::proofs::Pairs::pair_more))]
fn bytes_of(heap: Global, text: &[u8]) -> Result<Option<Vec<u8>>, AllocError>
    ensures { IfOk result (λ bytes. option_map vec_items bytes ≡ bytes_of text.now) }
{
    let mut bytes = Vec::new(heap);
    for digits in text.chunks(2) {
        let [high, low] = digits else {
            return Ok(None);
        };
        match pair(*high, *low) {
            Some(byte) => bytes.push(byte)?,
            None => return Ok(None),
        }
    }
    Ok(Some(bytes))
}

// The bytes that a text of digits spells; none where a character is no digit or one is left over.
#[tactic(auto, using(crate::proofs::Pairs::odd, crate::proofs::Spelling::read_back))]
pub fn decode(heap: Global, text: &[u8]) -> Result<Option<Vec<u8>>, AllocError>
    ensures value { IfOk result (λ bytes. option_map vec_items bytes ≡ bytes_of text.now) }
    ensures back { (bytes : List ℕ) → AllByRecursion (λ b. b < 256) bytes → bytes_of (spelled bytes) ≡ Some bytes }
{
    if text.len() % 2 != 0 {
        return Ok(None);
    }
    bytes_of(heap, text)
}
