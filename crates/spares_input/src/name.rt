//! Names of sites and parts.

ghost use Rattle.std.specs.Prelude.{◌≡◌, ◌≤◌, ◌-◌, ◌++◌, Some, None, if◌then◌else◌, bytes_eq, length, replicate, true, IsTrue};
ghost use Rattle.std.specs.List.{list_all};
ghost use Rattle.std.specs.Hash as fed;
ghost use Rattle.std.specs.Cmp.{partial_equiv_from_equiv};
ghost use Rattle.std.specs.Cmp.Lexicographic.{nat_list_eq_equiv};
ghost use Rattle.std.specs.Cmp.Rules.{hashing};
ghost use Rattle.std.proofs.Common.{rules};
ghost use Rattle.spares_input.specs.Names.{is_name, name_byte, has_length, is_trimmed};

use std::hash::{Hash, Hasher};
use std::marker::Model;

/// The name of a site or a part: 1 to 24 bytes of printable ASCII without comma and double quote, with no space at
/// either end.
#[derive(Clone, Copy)]
pub struct Name {
    bytes: [u8; 24],
    len: u8,
}

impl Model for Name {
    ghost use Rattle.std.specs.Prelude.{List, ℕ};

    ghost Value = { List ℕ };

    ghost use Rattle.spares_input.specs.Names.{bytes_of, kept, kept_bytes_of, IsKept};

    ghost view = { bytes_of };

    ghost invariant = { IsKept };

    ghost inverse = { kept };

    ghost inverse_ok = { kept_bytes_of };
}

impl Name {
    /// The name with these bytes; None exactly if they aren't a name.
    pub fn of(bytes: &[u8]) -> Option<Name>
        ensures { result ≡ (if is_name bytes.now then Some bytes.now else None) }
    {
        if !is_name(bytes) {
            return None;
        }
        Some(Name {
            bytes: padded(bytes),
            len: bytes.len() as u8,
        })
    }

    /// The rules of a name, for a proof.
    pub fn invariant(&self)
        ensures name { is_name self.now ≡ true }
    {
        let _opened = &self.len;
    }

    /// The name's bytes.
    pub fn as_bytes(&self) -> &[u8]
        ensures bytes { result.now ≡ self.now }
        ensures name { is_name result.now ≡ true }
    {
        &self.bytes[..self.len as usize]
    }
}

/// At most 24 bytes, followed by zeros.
fn padded(bytes: &[u8]) -> [u8; 24]
    requires { length bytes.now ≤ 24 }
    ensures { result ≡ bytes.now ++ replicate (24 - length bytes.now) 0 }
{
    let mut padded = zeros();
    padded[..bytes.len()].copy_from_slice(bytes);
    padded
}

/// The bytes of an empty name.
fn zeros() -> [u8; 24]
    ensures { result ≡ replicate 24 0 }
{
    [0; 24]
}

/// Whether these bytes are a name.
#[tactic(auto, unfolding(crate::specs::Names::is_name))]
fn is_name(bytes: &[u8]) -> bool
    ensures { result ≡ is_name bytes.now }
{
    has_length(bytes) && is_trimmed(bytes) && has_name_bytes(bytes)
}

/// Whether there are 1 to 24 bytes.
fn has_length(bytes: &[u8]) -> bool
    ensures { result ≡ has_length bytes.now }
{
    1 <= bytes.len() && bytes.len() <= 24
}

/// Whether no space is at either end.
fn is_trimmed(bytes: &[u8]) -> bool
    requires { IsTrue (has_length bytes.now) }
    ensures { result ≡ is_trimmed bytes.now }
{
    bytes[0] != b' ' && bytes[bytes.len() - 1] != b' '
}

/// Whether a name may have each of these bytes.
fn has_name_bytes(bytes: &[u8]) -> bool
    ensures { result ≡ list_all name_byte bytes.now }
{
    bytes.iter().all(|b| is_name_byte(*b))
}

/// Whether a name may have this byte.
fn is_name_byte(b: u8) -> bool
    ensures { result ≡ name_byte b }
{
    b >= 0x20 && b <= 0x7E && b != b',' && b != b'"'
}

impl PartialEq for Name {
    ghost eq = { bytes_eq };

    ghost laws = { partial_equiv_from_equiv nat_list_eq_equiv };

    fn eq(&self, other: &Name) -> bool {
        self.as_bytes() == other.as_bytes()
    }
}

impl Eq for Name {
    ghost laws = { nat_list_eq_equiv };
}

impl Hash for Name {
    ghost hash_input = { fed.slice fed.u8 };

    ghost respects_eq = { Prim.search (hashing, rules) };

    fn hash<H: Hasher>(&self, state: &mut H) {
        self.as_bytes().hash(state);
    }
}
