// Bytes as hexadecimal digits: text that is read, in either case, and text that is shown, in lower case.
#![tactic(auto)]

ghost use Rattle.std.specs.Prelude.{◌≡◌, ◌≢◌, ℕ, ◌<◌, List, map, slice_index, IfOk, Some, MatchOption};
ghost use Rattle.std.specs.Char.{to_ascii_lowercase};
ghost use Rattle.hex.specs.Hex.{IsBytes, encode_lower, lower_digits};

use std::alloc::{AllocError, Global};
use std::fmt;

// The bytes whose digits the text is, whatever the case of its letters, or `None` where there are none. An odd number of digits is
// found before any memory is asked for.
pub fn decode(heap: Global, text: &str) -> Result<Option<Vec<u8>>, AllocError>
    ensures { IfOk result (λ o. MatchOption o ((bs : List ℕ) → IsBytes bs → encode_lower bs ≢ map to_ascii_lowercase text.now) (λ v. encode_lower v.items ≡ map to_ascii_lowercase text.now)) }
{
    if text.len() % 2 == 1 {
        return Ok(None);
    }
    let mut bytes = vec![in heap; 0; text.len() / 2]?;
    let read = hex::decode_to_slice(text, bytes.as_mut_slice());
    Ok(read.is_ok().then_some(bytes))
}

// Bytes that are shown by their digits.
#[derive(Clone, Copy)]
pub struct Hex<'a>(pub &'a [u8]);

impl<'a> fmt::Display for Hex<'a> {
    ghost output = { λ x. Some (encode_lower x.0.now) };

    fn fmt<W: fmt::Write>(&self, f: &mut fmt::Formatter<W>) -> fmt::Result {
        for byte in self.0 {
            f.write_char(digit(*byte / 16))?;
            f.write_char(digit(*byte % 16))?;
        }
        Ok(())
    }
}

const DIGITS: &[u8; 16] = b"0123456789abcdef";

// The lowercase digit of a value below 16.
fn digit(value: u8) -> char
    requires { value < 16 }
    ensures { result ≡ slice_index lower_digits value }
{
    char::from(DIGITS[value as usize])
}
