// Names of nodes, segments, spans, trucks, actors and carriers.

ghost use Rattle.std.specs.Prelude.{◌≡◌, ◌++◌, ◌-◌, ◌≤◌, length, replicate, IfOk, OnErr, Some, true, false};
ghost use Rattle.std.specs.List.{list_all};
ghost use Rattle.names.specs.Names.{is_name, is_name_byte};

use std::hash::{Hash, Hasher};
use std::marker::Model;
use std::{fmt, str};

/// The bytes are no name.
#[derive(Clone, Copy, Debug, PartialEq, Eq)]
pub struct BadName;

/// 1 to 16 bytes, each an ASCII letter, digit, `-` or `_`.
#[derive(Clone, Copy, Debug)]
pub struct Name {
    len: usize,
    bytes: [u8; 16],
}

impl Model for Name {
    ghost use Rattle.std.specs.Prelude.{◌≡◌, true, ℕ, List};

    ghost Value = { List ℕ };

    ghost use Rattle.names.specs.Names.{is_name, name_bytes, name_fields};

    ghost view = { name_bytes };

    ghost invariant = { λ a. (is_name (name_bytes a) ≡ true) × (name_fields (name_bytes a) ≡ a) };

    ghost inverse = { name_fields };

    ghost inverse_ok = { λ a h. h.1 };
}

// Whether a byte may stand in a name.
fn is_name_char(b: u8) -> bool
    ensures { result ≡ is_name_byte b }
{
    b.is_ascii_alphanumeric() || b == b'-' || b == b'_'
}

// Whether each of the bytes may stand in a name.
fn are_name_chars(bytes: &[u8]) -> bool
    ensures { result ≡ list_all is_name_byte bytes.now }
{
    bytes.iter().all(|b| is_name_char(*b))
}

// Whether the bytes are a name.
fn is_name_text(bytes: &[u8]) -> bool
    ensures { result ≡ is_name bytes.now }
{
    1 <= bytes.len() && bytes.len() <= 16 && are_name_chars(bytes)
}

// The bytes, and then zeros.
fn padded(bytes: &[u8]) -> [u8; 16]
    requires { length bytes.now ≤ 16 }
    ensures { result ≡ bytes.now ++ replicate (16 - length bytes.now) 0 }
{
    let mut kept = [0u8; 16];
    kept[..bytes.len()].copy_from_slice(bytes);
    kept
}

impl Name {
    /// The name of these bytes.
    pub fn new(bytes: &[u8]) -> Result<Name, BadName>
        ensures ok { IfOk result (λ name. (is_name bytes.now ≡ true) × (name ≡ bytes.now)) }
        ensures bad { OnErr result (is_name bytes.now ≡ false) }
    {
        if !is_name_text(bytes) {
            return Err(BadName);
        }
        Ok(Name {
            len: bytes.len(),
            bytes: padded(bytes),
        })
    }

    /// The bytes of the name.
    pub fn as_bytes(&self) -> &[u8]
        ensures value { result.now ≡ self.now }
        ensures name { is_name self.now ≡ true }
    {
        &self.bytes[..self.len]
    }
}

impl fmt::Display for Name {
    ghost output = { λ name. Some name };

    fn fmt<W: fmt::Write>(&self, f: &mut fmt::Formatter<W>) -> fmt::Result {
        match str::from_utf8(self.as_bytes()) {
            Ok(text) => f.write_str(text),
            Err(_) => Err(fmt::Error),
        }
    }
}

impl PartialEq for Name {
    ghost use Rattle.std.specs.Str.{bytes_eq};
    ghost use Rattle.std.specs.Cmp.Lexicographic.{nat_list_eq_equiv};
    ghost use Rattle.std.specs.Cmp;

    ghost eq = { bytes_eq };

    ghost laws = { Cmp.partial_equiv_from_equiv nat_list_eq_equiv };

    fn eq(&self, other: &Name) -> bool {
        self.as_bytes() == other.as_bytes()
    }
}

impl Eq for Name {
    ghost use Rattle.std.specs.Cmp.Lexicographic.{nat_list_eq_equiv};

    ghost laws = { nat_list_eq_equiv };
}

impl Hash for Name {
    ghost use Rattle.std.proofs.Common.{rules};
    ghost use Rattle.std.specs.Hash as fed;

    ghost hash_input = { fed.str };

    ghost respects_eq = { Prim.search rules };

    fn hash<H: Hasher>(&self, state: &mut H) {
        state.write(self.as_bytes());
        state.write_u8(0xff);
    }
}
