// Bytes that are kept under names.
ghost use Rattle.std.specs.Prelude.{◌≡◌, ℕ, List, Some, None, MatchResult};
ghost use Rattle.std.specs.Str.{bytes_eq as same_text};
ghost use Rattle.std.specs.Map.{update};
ghost use Rattle.std.specs.Option.{option_map};
ghost use Rattle.std.specs.List.{list_all};
ghost use Rattle.relog.specs.Names.{held, is_name, name_byte};

use std::alloc::{AllocError, Global};
use std::collections::BTreeMap;

// A name is made of letters, digits, `-` and `_`, and begins with a letter.
pub fn is_name(word: &str) -> bool
    ensures { result ≡ is_name word.now }
{
    let bytes = word.as_bytes();
    let [first, ..] = bytes else {
        return false;
    };
    first.is_ascii_alphabetic() && has_name_bytes(bytes)
}

fn has_name_bytes(bytes: &[u8]) -> bool
    ensures { result ≡ list_all name_byte bytes.now }
{
    bytes.iter().all(|b| is_name_byte(*b))
}

fn is_name_byte(b: u8) -> bool
    ensures { result ≡ name_byte b }
{
    b.is_ascii_alphanumeric() || b == b'-' || b == b'_'
}

#[derive(Drop)]
pub struct Kept {
    names: BTreeMap<String, Vec<u8>>,
}

impl Kept {
    pub fn new(heap: Global) -> Kept
        ensures { (q : List ℕ) → held result.names q ≡ None }
    {
        Kept {
            names: BTreeMap::new(heap),
        }
    }

    pub fn get(&self, name: &str) -> Option<&[u8]>
        ensures { option_map (λ x. x.now) result ≡ held self.now.names name.now }
    {
        self.names.get(name).map(|bytes| bytes.as_slice())
    }

    // Keeps a copy of the bytes in place of what the name stood for, or where memory fails leaves all as it was.
    pub fn keep(&mut self, heap: Global, name: &str, bytes: &[u8]) -> Result<(), AllocError>
        ensures { MatchResult result (λ _. (q : List ℕ) → held self.new.names q ≡ update same_text (held self.old.names) name.now (Some bytes.now) q) (λ _. (q : List ℕ) → held self.new.names q ≡ held self.old.names q) }
    {
        let name = String::from_str(heap, name)?;
        let bytes = Vec::from_slice(heap, bytes)?;
        self.names.insert(name, bytes)?;
        Ok(())
    }
}
