//! Names of objects, actions, armatures, bones, pencils, layers and modifiers.
ghost use Rattle.std.specs.Prelude.{◌≡◌, false, IsTrue, IfOk, MatchOption};
ghost use Rattle.std.specs.List.{list_all};
ghost use Rattle.rig_scene.specs.Name.{is_name, is_name_byte};

use crate::limits::MAX_NAME_BYTES;
use rig_io::NoMemory;
use std::alloc::{AllocError, Global};
use std::hash::{Hash, Hasher};
use std::marker::Model;
use thiserror::Error;

/// A name: text of 1 to 63 bytes without bytes below 0x20 and without 0x7F. Contracts see it as its bytes,
/// and two names are equal where their bytes are.
#[derive(Clone, Debug, Drop)]
pub struct Name {
    text: String,
}

impl Model for Name {
    ghost use Rattle.std.specs.Prelude.{List, ℕ, IsTrue, string_bytes};
    ghost use Rattle.rig_scene.specs.Name.{is_name};

    ghost Value = { List ℕ };

    ghost view = { λ n. string_bytes n.text };

    ghost invariant = { λ n. IsTrue (is_name (string_bytes n.text)) };
}

impl PartialEq for Name {
    ghost use Rattle.std.specs.Prelude.{nat_eq};
    ghost use Rattle.std.specs.Cmp.{partial_equiv_from_equiv};
    ghost use Rattle.std.specs.Cmp.Lexicographic.{pointwise, nat_list_eq_equiv};

    ghost eq = { pointwise nat_eq };

    ghost laws = { partial_equiv_from_equiv nat_list_eq_equiv };

    fn eq(&self, other: &Name) -> bool {
        self.as_str() == other.as_str()
    }
}

impl Eq for Name {
    ghost use Rattle.std.specs.Cmp.Lexicographic.{nat_list_eq_equiv};

    ghost laws = { nat_list_eq_equiv };
}

impl Hash for Name {
    ghost use Rattle.std.specs.Hash as fed;
    ghost use Rattle.std.specs.Cmp.Rules.{hashing};
    ghost use Rattle.std.proofs.Common.{rules};

    ghost hash_input = { fed.str };

    ghost respects_eq = { Prim.search (hashing, rules) };

    fn hash<H: Hasher>(&self, state: &mut H) {
        self.as_str().hash(state);
    }
}

/// Why bytes gave no name.
#[derive(Clone, Copy, Debug, PartialEq, Eq, Error)]
pub enum NameStop {
    /// Memory was refused.
    #[error("out of memory")]
    NoMemory,
    /// The bytes aren't a name.
    #[error("expected text of 1 to {most} bytes without control characters", most = MAX_NAME_BYTES)]
    BadName,
}

impl From<AllocError> for NameStop {
    ghost use Rattle.std.specs.Prelude.{◌≡◌};
    ghost use Rattle.rig_scene.specs.declared.name.NameStop.TheVariants.{NoMemory};

    ghost from_gives = { λ _ stop. stop ≡ NoMemory };

    fn from(_: AllocError) -> Self {
        NameStop::NoMemory
    }
}

impl Name {
    /// Whether the bytes are a name: UTF-8 of 1 to 63 bytes without bytes below 0x20 and without 0x7F. It allocates
    /// nothing.
    pub fn is_name(bytes: &[u8]) -> bool
        ensures { result ≡ is_name bytes.now }
    {
        name_text(bytes).is_some()
    }

    /// The name that the bytes are.
    ///
    /// # Errors
    ///
    /// [`NameStop::BadName`] exactly where the bytes aren't a name ([`Name::is_name`]). [`NameStop::NoMemory`] where they
    /// are one, and memory is refused.
    pub fn of(alloc: Global, bytes: &[u8]) -> Result<Name, NameStop>
        ensures name { IfOk result (λ name. (name ≡ bytes.now) × IsTrue (is_name bytes.now)) }
        ensures bad { result ≡ Err NameStop.BadName → is_name bytes.now ≡ false }
        ensures memory { result ≡ Err NameStop.NoMemory → IsTrue (is_name bytes.now) }
    {
        let Some(text) = name_text(bytes) else {
            return Err(NameStop::BadName);
        };
        let text = String::from_str(alloc, text)?;
        Ok(Name { text })
    }

    /// The name as text.
    pub fn as_str(&self) -> &str
        ensures text { result.now ≡ self.now }
        ensures name { IsTrue (is_name self.now) }
    {
        self.text.as_str()
    }

    /// An equal name with memory of its own.
    ///
    /// # Errors
    ///
    /// [`NoMemory`] where memory is refused.
    pub fn copy(&self) -> Result<Self, NoMemory>
        ensures { IfOk result (λ copy. copy ≡ self.now) }
    {
        Ok(self.clone()?)
    }
}

// The bytes as text, where they are a name's.
fn name_text(bytes: &[u8]) -> Option<&str>
    ensures { MatchOption result (is_name bytes.now ≡ false) (λ text. (text.now ≡ bytes.now) × IsTrue (is_name bytes.now)) }
{
    if bytes.is_empty() || bytes.len() > MAX_NAME_BYTES || !has_name_bytes(bytes) {
        return None;
    }
    str::from_utf8(bytes).ok()
}

fn has_name_bytes(bytes: &[u8]) -> bool
    ensures { result ≡ list_all is_name_byte bytes.now }
{
    bytes.iter().all(|b| *b >= 0x20 && *b != 0x7F)
}

#[cfg(test)]
mod tests {
    use super::*;
    use std::test::Fail;

    #[test]
    fn bytes_are_a_name_or_not(rt: HostRuntime) -> Result<(), Fail> {
        let two_byte_letters = "éééééééééééééééééééééééééééééééa";
        let too_long = "ééééééééééééééééééééééééééééééééé";
        for (bytes, is_name) in [
            (b"A".as_slice(), true),
            (b" ".as_slice(), true),
            (b"~".as_slice(), true),
            (two_byte_letters.as_bytes(), true),
            (too_long.as_bytes(), false),
            (b"".as_slice(), false),
            ([0x1F].as_slice(), false),
            ([0x7F].as_slice(), false),
            ([0xFF].as_slice(), false),
        ] {
            assert_eq!(rt; Name::is_name(bytes), is_name);
            match Name::of(rt.alloc(), bytes) {
                Ok(name) => assert_eq!(rt; name.copy()?.as_str().as_bytes(), bytes),
                Err(stop) => assert!(rt; !is_name && stop == NameStop::BadName),
            }
        }
        Ok(())
    }
}
