//! Short texts.

ghost use Rattle.std.specs.Prelude.{◌≡◌, ◌≤◌, length, IsOk, IfOk, bytes_eq};
ghost use Rattle.std.specs.Hash as fed;
ghost use Rattle.std.specs.Cmp.{partial_equiv_from_equiv};
ghost use Rattle.std.specs.Cmp.Lexicographic.{nat_list_eq_equiv};
ghost use Rattle.std.specs.Cmp.Rules.{hashing};
ghost use Rattle.std.proofs.Common.{rules};

use std::alloc::{AllocError, Global};
use std::hash::{Hash, Hasher};
use std::marker::Model;

/// Bytes, which are stored inline where there are at most `N`; clauses see their list. Texts are
/// equal where their bytes are.
#[derive(Debug, Drop)]
pub struct ShortText<const N: usize> {
    octets: Octets<N>,
}

/// The bytes of a text, inline or on the heap.
#[derive(Debug, Drop)]
enum Octets<const N: usize> {
    Inline(Inline<N>),
    Heap(Vec<u8>),
}

/// At most `N` bytes; clauses see their list.
#[derive(Debug, Drop)]
struct Inline<const N: usize> {
    len: usize,
    /// The bytes and zeros after them.
    places: [u8; N],
}

impl<const N: usize> Model for Inline<N> {
    ghost use Rattle.std.specs.Prelude.{◌≤◌, List, ℕ, take};

    ghost Value = { List ℕ };

    ghost view = { λ t. take t.len t.places };

    ghost invariant = { λ t. t.len ≤ N };
}

impl<const N: usize> Inline<N> {
    /// Returns a copy of these bytes.
    fn new(octets: &[u8]) -> Self
        requires { length octets.now ≤ N }
        ensures { result ≡ octets.now }
    {
        let len = octets.len();
        let mut places = [0; N];
        places[..len].copy_from_slice(octets);
        Inline { len, places }
    }

    /// Returns the bytes.
    fn octets(&self) -> &[u8]
        ensures { result.now ≡ self.now }
    {
        &self.places[..self.len]
    }

    /// Returns a text of the same bytes.
    fn copy(&self) -> Self
        ensures { result ≡ self.now }
    {
        Inline {
            len: self.len,
            places: self.places,
        }
    }
}

impl<const N: usize> Model for ShortText<N> {
    ghost use Rattle.std.specs.Prelude.{List, ℕ};
    ghost use Rattle.zic_base.specs.code.ShortText.{octets_of};

    ghost Value = { List ℕ };

    ghost view = { λ t. octets_of t.octets };
}

impl<const N: usize> ShortText<N> {
    /// Returns a copy of these bytes. Takes memory only where there are more than `N`.
    pub fn new(alloc: Global, octets: &[u8]) -> Result<Self, AllocError>
        ensures ok { IfOk result (λ text. text ≡ octets.now) }
        ensures inline { length octets.now ≤ N → IsOk result }
    {
        let octets = if octets.len() <= N {
            Octets::Inline(Inline::new(octets))
        } else {
            Octets::Heap(Vec::from_slice(alloc, octets)?)
        };
        Ok(ShortText { octets })
    }

    /// Returns the bytes.
    pub fn octets(&self) -> &[u8]
        ensures { result.now ≡ self.now }
    {
        match &self.octets {
            Octets::Inline(inline) => inline.octets(),
            Octets::Heap(heap) => heap.as_slice(),
        }
    }
}

impl<const N: usize> Clone for ShortText<N> {
    ghost is_clone = { λ text copy. copy ≡ text };

    fn clone(&self) -> Result<ShortText<N>, AllocError> {
        let octets = match &self.octets {
            Octets::Inline(inline) => Octets::Inline(inline.copy()),
            Octets::Heap(heap) => Octets::Heap(heap.clone()?),
        };
        Ok(ShortText { octets })
    }
}

impl<const N: usize> PartialEq for ShortText<N> {
    ghost eq = { bytes_eq };

    ghost laws = { partial_equiv_from_equiv nat_list_eq_equiv };

    fn eq(&self, other: &ShortText<N>) -> bool {
        self.octets() == other.octets()
    }
}

impl<const N: usize> Eq for ShortText<N> {
    ghost laws = { nat_list_eq_equiv };
}

impl<const N: usize> Hash for ShortText<N> {
    ghost hash_input = { fed.slice fed.u8 };

    ghost respects_eq = { Prim.search (hashing, rules) };

    fn hash<H: Hasher>(&self, state: &mut H) {
        self.octets().hash(state);
    }
}
