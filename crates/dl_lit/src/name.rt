//! Names of atoms, modes and labels.

ghost use Rattle.std.specs.Prelude.{◌≡◌, ◌↔◌, IsTrue, IfOk, false, length};
ghost use Rattle.std.specs.List.{list_all};
ghost use Rattle.dl_lit.specs.Name.{begins_name, continues_name, is_name};
ghost use Rattle.dl_lit.specs.declared.name.NameStop.TheVariants.{Spelling};

use crate::text::Text;
use dl_base::Memory;
use std::alloc::Global;
use std::cmp::Ordering;
use std::hash::{Hash, Hasher};
use std::marker::Model;

/// Why no name was made.
#[derive(Clone, Copy, Debug, PartialEq, Eq)]
pub enum NameStop {
    Spelling,
    Memory,
}

/// A letter or `_`, and then letters, `_` and digits.
pub struct Name {
    text: Text,
}

impl Drop for Name {
    fn drop(self) {
        let Name { text: _ } = self;
    }
}

impl Model for Name {
    ghost use Rattle.std.specs.Prelude.{IsTrue, List, ℕ};
    ghost use Rattle.dl_lit.specs.Name.{is_name};
    ghost use Rattle.dl_lit.specs.Text.{text_bytes};

    ghost Value = { List ℕ };

    ghost view = { λ n. text_bytes n.text };

    ghost invariant = { λ n. IsTrue (is_name (text_bytes n.text)) };
}

impl Name {
    /// The name with these bytes.
    pub fn make(alloc: Global, bytes: &[u8]) -> Result<Name, NameStop>
        ensures made { IfOk result (λ name. name ≡ bytes.now) }
        ensures spelled { IfOk result (λ name. IsTrue (is_name name)) }
        ensures spelling { (result ≡ Err NameStop.Spelling) ↔ (is_name bytes.now ≡ false) }
    {
        if !is_name(bytes) {
            return Err(NameStop::Spelling);
        }
        match Text::make(alloc, bytes) {
            Ok(text) => Ok(Name { text }),
            Err(Memory) => Err(NameStop::Memory),
        }
    }

    /// The name with these bytes, which are known to be one.
    #[inline(always)]
    pub fn from_spelled(alloc: Global, bytes: &[u8]) -> Result<Name, Memory>
        requires { IsTrue (is_name bytes.now) }
        ensures { IfOk result (λ name. name ≡ bytes.now) }
    {
        let text = Text::make(alloc, bytes)?;
        Ok(Name { text })
    }

    #[inline(always)]
    pub fn bytes(&self) -> &[u8]
        ensures bytes { result.now ≡ self.now }
        ensures spelled { IsTrue (is_name self.now) }
    {
        self.text.as_slice()
    }

    #[inline(always)]
    pub fn copy(&self) -> Result<Name, Memory>
        ensures { IfOk result (λ copy. copy ≡ self.now) }
    {
        let text = self.text.copy()?;
        Ok(Name { text })
    }
}

impl PartialEq for Name {
    ghost use Rattle.std.specs.Str.{bytes_eq};
    ghost use Rattle.std.specs.Cmp.Rules.{comparing};
    ghost use Rattle.std.proofs.Common.{rules};

    ghost eq = { bytes_eq };

    ghost laws = { Prim.search (comparing, rules) };

    fn eq(&self, other: &Name) -> bool {
        self.bytes() == other.bytes()
    }
}

impl Eq for Name {
    ghost use Rattle.std.specs.Cmp.Rules.{comparing};
    ghost use Rattle.std.proofs.Common.{rules};

    ghost laws = { Prim.search (comparing, rules) };
}

/// By all bytes at once.
impl Hash for Name {
    ghost use Rattle.dl_lit.specs.Order.{name_hash, name_hashes};

    ghost hash_input = { name_hash };

    ghost respects_eq = { name_hashes };

    fn hash<H: Hasher>(&self, state: &mut H) {
        state.write(self.bytes());
    }
}

/// By the bytes.
impl PartialOrd for Name {
    ghost use Rattle.std.specs.Prelude.{Some, refl};
    ghost use Rattle.std.specs.Ordering.{nat_cmp};
    ghost use Rattle.std.specs.Cmp.{partial_order_from_agreeing_total};
    ghost use Rattle.std.specs.Cmp.Lexicographic.{slice_cmp, nat_list_cmp_total, texts_ties};

    ghost partial_cmp = { λ x y. Some (slice_cmp nat_cmp x y) };

    ghost laws = { partial_order_from_agreeing_total (slice_cmp nat_cmp) nat_list_cmp_total (λ x y. refl) texts_ties };

    fn partial_cmp(&self, other: &Name) -> Option<Ordering> {
        Some(self.cmp(other))
    }
}

impl Ord for Name {
    ghost use Rattle.std.specs.Ordering.{nat_cmp};
    ghost use Rattle.std.specs.Cmp.Rules.{comparing};
    ghost use Rattle.std.proofs.Common.{rules};
    ghost use Rattle.std.specs.Cmp.Lexicographic.{slice_cmp, nat_list_cmp_total, texts_ties};

    ghost cmp = { slice_cmp nat_cmp };

    ghost total = { nat_list_cmp_total };

    ghost matches_partial_cmp = { Prim.search (comparing, rules) };

    ghost matches_eq = { texts_ties };

    fn cmp(&self, other: &Name) -> Ordering {
        self.bytes().cmp(other.bytes())
    }
}

/// Which bytes go on with a name: one look tells it, in place of seven comparisons for each byte of a text.
const NAME_BYTES: [bool; 256] = [
    false, false, false, false, false, false, false, false, false, false, false, false, false,
    false, false, false, false, false, false, false, false, false, false, false, false, false,
    false, false, false, false, false, false, false, false, false, false, false, false, false,
    false, false, false, false, false, false, false, false, false, true, true, true, true, true,
    true, true, true, true, true, false, false, false, false, false, false, false, true, true,
    true, true, true, true, true, true, true, true, true, true, true, true, true, true, true, true,
    true, true, true, true, true, true, true, true, false, false, false, false, true, false, true,
    true, true, true, true, true, true, true, true, true, true, true, true, true, true, true, true,
    true, true, true, true, true, true, true, true, true, false, false, false, false, false, false,
    false, false, false, false, false, false, false, false, false, false, false, false, false,
    false, false, false, false, false, false, false, false, false, false, false, false, false,
    false, false, false, false, false, false, false, false, false, false, false, false, false,
    false, false, false, false, false, false, false, false, false, false, false, false, false,
    false, false, false, false, false, false, false, false, false, false, false, false, false,
    false, false, false, false, false, false, false, false, false, false, false, false, false,
    false, false, false, false, false, false, false, false, false, false, false, false, false,
    false, false, false, false, false, false, false, false, false, false, false, false, false,
    false, false, false, false, false, false, false, false, false, false, false, false, false,
    false, false, false, false, false, false, false, false, false, false,
];

pub fn begins_name(byte: u8) -> bool
    ensures { result ≡ begins_name byte }
{
    byte >= b'A' && byte <= b'Z' || byte >= b'a' && byte <= b'z' || byte == b'_'
}

#[inline(always)]
pub fn continues_name(byte: u8) -> bool
    ensures { result ≡ continues_name byte }
{
    NAME_BYTES[byte as usize]
}

fn is_name(bytes: &[u8]) -> bool
    ensures { result ≡ is_name bytes.now }
{
    match bytes.split_first() {
        None => false,
        Some((first, rest)) => begins_name(*first) && all_continue_name(rest),
    }
}

fn all_continue_name(bytes: &[u8]) -> bool
    ensures { result ≡ list_all continues_name bytes.now }
{
    bytes.iter().all(|b| continues_name(*b))
}
