//! Names of nodes, dimensions and measures.
ghost use Rattle.std.specs.Prelude.{◌≡◌, ◌↔◌, List, ℕ, true, false, IsNone, IfOk, IfSome, string_bytes};
ghost use Rattle.cube_base.specs.Name.{has_name_bytes, is_name, is_name_byte};
ghost use Rattle.std.specs.List.{list_all};

use crate::Memory;
use std::alloc::Global;
use std::marker::Model;

/// The most bytes that a name has.
pub const MAX_NAME_LEN: usize = 128;

/// A name: 1 to 128 bytes of UTF-8, none of them below 32 or equal to 127. Contracts see its bytes.
#[derive(Debug, Drop)]
pub struct Name {
    text: String,
}

impl Model for Name {
    ghost Value = { List ℕ };

    ghost view = { λ n. string_bytes n.text };

    ghost invariant = { λ n. is_name (string_bytes n.text) ≡ true };
}

impl Name {
    /// The text as a name: None exactly where it breaks the rule on names.
    pub fn new(alloc: Global, text: &str) -> Result<Option<Self>, Memory>
        ensures refused { IfOk result (λ name. IsNone name ↔ (is_name text.now ≡ false)) }
        ensures named { IfOk result (λ name. IfSome name (λ n. n ≡ text.now)) }
    {
        if !is_name(text) {
            return Ok(None);
        }
        let text = String::from_str(alloc, text)?;
        Ok(Some(Name { text }))
    }

    /// An equal name.
    pub fn copy(&self) -> Result<Self, Memory>
        ensures { IfOk result (λ name. name ≡ self.now) }
    {
        let text = self.text.clone()?;
        Ok(Name { text })
    }

    /// The text of the name.
    pub fn text(&self) -> &str
        ensures same { result.now ≡ self.now }
        ensures name { is_name self.now ≡ true }
    {
        self.text.as_str()
    }
}

/// Whether a text keeps the rule on names, which for a text is one on its length and its bytes.
pub fn is_name(text: &str) -> bool
    ensures bytes { result ≡ has_name_bytes text.now }
    ensures name { result ≡ is_name text.now }
{
    let bytes = text.as_bytes();
    !bytes.is_empty() && bytes.len() <= MAX_NAME_LEN && are_name_bytes(bytes)
}

/// Whether each byte may stand in a name.
fn are_name_bytes(bytes: &[u8]) -> bool
    ensures { result ≡ list_all is_name_byte bytes.now }
{
    bytes.iter().all(|b| *b >= 32 && *b != 127)
}
