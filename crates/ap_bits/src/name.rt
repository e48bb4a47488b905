ghost use Rattle.std.specs.Prelude.{◌≡◌, IfOk, if◌then◌else◌};
ghost use Rattle.std.specs.Char.{is_ascii_alphanumeric};
ghost use Rattle.std.specs.List.{list_all};
ghost use Rattle.ap_bits.specs.Names as names;
ghost use Rattle.ap_bits.specs.Names.{IsName};

use crate::NoMemory;
use crate::limits::MAX_NAME_BYTES;
use std::alloc::Global;
use std::marker::Model;

/// A name of a description or a program: a letter followed by letters and digits, at most [`MAX_NAME_BYTES`] bytes. Contracts see its bytes.
#[derive(Drop)]
pub struct Name {
    text: String,
}

impl Model for Name {
    ghost use Rattle.std.specs.Prelude.{List, ℕ};
    ghost use Rattle.std.specs.String.{string_bytes};
    ghost use Rattle.ap_bits.specs.Names.{IsName};

    ghost Value = { List ℕ };

    ghost view = { λ n. string_bytes n.text };

    ghost invariant = { λ n. IsName (string_bytes n.text) };
}

/// Whether the first byte is a letter.
fn starts_with_letter(bytes: &[u8]) -> bool
    ensures { result ≡ names.starts_with_letter bytes.now }
{
    match bytes {
        [first, ..] => first.is_ascii_alphabetic(),
        [] => false,
    }
}

/// Whether all bytes are letters or digits.
fn is_alphanumeric(bytes: &[u8]) -> bool
    ensures { result ≡ list_all is_ascii_alphanumeric bytes.now }
{
    bytes.iter().all(|byte| byte.is_ascii_alphanumeric())
}

/// Whether the bytes are a name: a letter followed by letters and digits, at most [`MAX_NAME_BYTES`] bytes.
pub fn is_name(bytes: &[u8]) -> bool
    ensures { result ≡ names.is_name bytes.now }
{
    starts_with_letter(bytes) && is_alphanumeric(bytes) && bytes.len() <= MAX_NAME_BYTES
}

impl Name {
    /// The name that the bytes are, and None where they are none.
    pub fn parse(alloc: Global, bytes: &[u8]) -> Result<Option<Name>, NoMemory>
        ensures { IfOk result
            (λ name. name ≡ (if names.is_name bytes.now then Some bytes.now else None)) }
    {
        if !is_name(bytes) {
            return Ok(None);
        }
        let name = Name::new(alloc, bytes)?;
        Ok(Some(name))
    }

    /// The name of bytes that are known to be one.
    pub fn new(alloc: Global, name: &[u8]) -> Result<Name, NoMemory>
        requires { IsName name.now }
        ensures { IfOk result (λ made. made ≡ name.now) }
    {
        let text = std::str::from_utf8(name).unwrap();
        let text = String::from_str(alloc, text)?;
        Ok(Name { text })
    }

    /// The name once more.
    pub fn copy(&self, alloc: Global) -> Result<Name, NoMemory>
        ensures { IfOk result (λ made. made ≡ self.now) }
    {
        let text = String::from_str(alloc, self.text.as_str())?;
        Ok(Name { text })
    }

    /// The name as text; its bytes are those of a name.
    pub fn as_str(&self) -> &str
        ensures same { result.now ≡ self.now }
        ensures is_name { IsName self.now }
    {
        self.text.as_str()
    }
}
