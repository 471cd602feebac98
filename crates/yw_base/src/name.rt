// Names of persons, roles, nets, tasks and places.
ghost use Rattle.std.specs.Prelude.{◌≡◌, ◌↔◌, List, ℕ, true, false, IfOk, IfSome, Err, None, string_bytes};
ghost use Rattle.std.specs.List.{list_all};
ghost use Rattle.yw_base.specs.Spelling.{is_digit, is_word_byte, is_name, most_name_bytes};

use std::alloc::{AllocError, Global};
use std::hash::{Hash, Hasher};
use std::marker::Model;

/// Why a text isn't read as a name.
#[derive(Clone, Copy, Debug, PartialEq, Eq)]
pub enum NameFault {
    /// The text isn't written as a name is.
    Shape,
    /// No memory was left.
    Memory,
}

/// 1 to 64 ASCII letters, digits or `_`, the first no digit. A contract sees it as its bytes.
#[derive(Debug, Drop)]
pub struct Name {
    text: String,
}

impl Model for Name {
    ghost use Rattle.std.specs.Prelude.{List, ℕ, ◌≡◌, true, string_bytes};
    ghost use Rattle.yw_base.specs.Spelling.{is_name};

    ghost Value = { List ℕ };

    ghost view = { λ n. string_bytes n.text };

    ghost invariant = { λ n. is_name (string_bytes n.text) ≡ true };
}

/// The most bytes of a name.
pub const MOST_NAME_BYTES: usize = 64;

fn is_digit_byte(byte: u8) -> bool
    ensures { result ≡ is_digit byte }
{
    byte.is_ascii_digit()
}

fn is_word(byte: u8) -> bool
    ensures { result ≡ is_word_byte byte }
{
    byte == b'_' || is_digit_byte(byte) || byte.is_ascii_uppercase() || byte.is_ascii_lowercase()
}

fn has_words_alone(bytes: &[u8]) -> bool
    ensures { result ≡ list_all is_word_byte bytes.now }
{
    bytes.iter().all(|byte| is_word(*byte))
}

fn has_name_shape(bytes: &[u8]) -> bool
    ensures { result ≡ is_name bytes.now }
{
    if bytes.is_empty() || bytes.len() > MOST_NAME_BYTES || is_digit_byte(bytes[0]) {
        return false;
    }
    has_words_alone(bytes)
}

impl Name {
    /// Reads a name. It is `Shape` exactly where the text isn't 1 to 64 ASCII letters, digits or `_`, the
    /// first no digit, and `Memory` only where no memory was left. A text past 64 bytes is looked at no
    /// further.
    pub fn read(alloc: Global, text: &str) -> Result<Name, NameFault>
        ensures ok { IfOk result (λ name. (name ≡ text.now) × (is_name text.now ≡ true)) }
        ensures shape { (result ≡ Err NameFault.Shape) ↔ (is_name text.now ≡ false) }
    {
        if !has_name_shape(text.as_bytes()) {
            return Err(NameFault::Shape);
        }
        match String::from_str(alloc, text) {
            Ok(text) => Ok(Name { text }),
            Err(AllocError) => Err(NameFault::Memory),
        }
    }

    /// The name that a `String` spells, which is kept. It is `None` exactly where the text isn't written as a name is; then the text is
    /// dropped. It takes no memory.
    pub fn from_string(text: String) -> Option<Name>
        ensures ok { IfSome result (λ name. name ≡ string_bytes text) }
        ensures shape { (result ≡ None) ↔ (is_name (string_bytes text) ≡ false) }
    {
        if !has_name_shape(text.as_bytes()) {
            return None;
        }
        Some(Name { text })
    }

    /// The same name once more. An `Err` says that no memory was left.
    pub fn copy(&self) -> Result<Name, AllocError>
        ensures { IfOk result (λ copy. copy ≡ self.now) }
    {
        Ok(Name {
            text: self.text.clone()?,
        })
    }

    /// The name as a `str`.
    pub fn as_str(&self) -> &str
        ensures text { result.now ≡ self.now }
        ensures name { is_name self.now ≡ true }
    {
        self.text.as_str()
    }

    /// The `String` of this name. It takes no memory.
    pub fn into_string(self) -> String
        ensures { string_bytes result ≡ self }
    {
        let Name { text } = self;
        text
    }
}

impl PartialEq for Name {
    ghost use Rattle.std.specs.Cmp.{partial_equiv_from_equiv};
    ghost use Rattle.std.specs.Cmp.Lexicographic.{nat_list_eq_equiv};
    ghost use Rattle.std.specs.Str.{bytes_eq};

    ghost eq = { bytes_eq };

    ghost laws = { partial_equiv_from_equiv nat_list_eq_equiv };

    fn eq(&self, other: &Name) -> bool {
        self.as_str() == other.as_str()
    }
}

impl Eq for Name {
    ghost use Rattle.std.specs.Cmp.Lexicographic.{nat_list_eq_equiv};

    ghost laws = { nat_list_eq_equiv };
}

/// Names hash by their bytes.
impl Hash for Name {
    ghost use Rattle.std.specs.Cmp.Rules.{hashing};
    ghost use Rattle.std.proofs.Common.{rules};
    ghost use Rattle.std.specs.Hash.{str};

    ghost hash_input = { str };

    ghost respects_eq = { Prim.search (hashing, rules) };

    fn hash<H: Hasher>(&self, state: &mut H) {
        self.as_str().hash(state);
    }
}
