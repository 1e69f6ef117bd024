ghost use Rattle.std.specs.Prelude.{◌≡◌, ℕ, ◌<◌, List, [], ◌∷◌, ◌++◌, length, slice_get, IfOk, OnOk, OnErr, MatchOption, Some, IsTrue, ◌↔◌};
ghost use Rattle.eb_base.specs.Hashing.{hash};

use crate::hashing::hash_of;
use crate::memory::NoMemory;
use smallvec::SmallVec;
use std::alloc::Global;
use std::marker::Model;

/// The most bytes of a term that are kept in the term itself; a longer one has an allocation of its
/// own.
const BYTES_WITHIN: usize = 16;

/// A term: one folded word of a text, as a list of bytes. A short one is kept in the term itself. A
/// term has the hash of its bytes, so no one hashes it again.
#[derive(Debug, Drop)]
pub struct Term {
    hashed: u32,
    bytes: SmallVec<u8, BYTES_WITHIN>,
}

impl Model for Term {
    ghost use Rattle.std.specs.Prelude.{◌≡◌, ℕ, List};
    ghost use Rattle.eb_base.specs.Term.{AreBytes};
    ghost use Rattle.eb_base.specs.Hashing.{hash};

    ghost Value = { List ℕ };

    ghost view = { λ t. t.bytes.items };

    ghost invariant = { λ t. AreBytes t.bytes.items × (t.hashed ≡ hash t.bytes.items) };
}

impl Term {
    /// The term with these bytes, which are copied. Takes memory where they are more than 16.
    pub fn new(alloc: Global, bytes: &[u8]) -> Result<Term, NoMemory>
        ensures { IfOk result (λ term. term ≡ bytes.now) }
    {
        let hashed = hash_of(bytes);
        let bytes = SmallVec::from_slice(alloc, bytes)?;
        Ok(Term { hashed, bytes })
    }

    /// The hash of the term, of 32 bits: 0, and for each byte 31 times the hash plus the byte, modulo
    /// 2^32 (this project's profile, docs/FORMATS.md).
    pub fn hash(&self) -> u32
        ensures { result ≡ hash self.now }
    {
        self.hashed
    }

    /// The bytes of the term.
    pub fn bytes(&self) -> &[u8]
        ensures { result.now ≡ self.now }
    {
        self.bytes.as_slice()
    }
}

impl PartialEq for Term {
    ghost use Rattle.std.specs.Prelude.{bytes_eq};
    ghost use Rattle.std.specs.Cmp as Cmp;
    ghost use Rattle.std.proofs.lemmas.Cmp.{nat_list_eq_equiv};

    ghost eq = { bytes_eq };

    ghost laws = { Cmp.partial_equiv_from_equiv nat_list_eq_equiv };

    fn eq(&self, other: &Term) -> bool {
        self.bytes() == other.bytes()
    }
}

impl Eq for Term {
    ghost use Rattle.std.proofs.lemmas.Cmp.{nat_list_eq_equiv};

    ghost laws = { nat_list_eq_equiv };
}

/// A list of terms: those of a document in the order of its words, or those of a phrase.
#[derive(Debug, Drop)]
pub struct Terms {
    terms: Vec<Term>,
}

impl Model for Terms {
    ghost use Rattle.std.specs.Prelude.{ℕ, List};
    ghost use Rattle.std.specs.List.{All};
    ghost use Rattle.eb_base.specs.Term.{AreBytes};

    ghost Value = { List (List ℕ) };

    ghost view = { λ t. t.terms.items };

    ghost invariant = { λ t. All AreBytes t.terms.items };
}

impl Terms {
    /// No terms. Takes no memory.
    pub fn new(alloc: Global) -> Terms
        ensures { result ≡ [] }
    {
        Terms {
            terms: Vec::new(alloc),
        }
    }

    /// No terms, with room for this many, which is taken at once. `NoMemory` where memory runs out.
    pub fn with_capacity(alloc: Global, room: usize) -> Result<Terms, NoMemory>
        ensures { IfOk result (λ t. t ≡ []) }
    {
        Ok(Terms {
            terms: Vec::with_capacity(alloc, room)?,
        })
    }

    /// Puts the term at the end. Without memory the list stays as it was, and the term is dropped.
    pub fn push(&mut self, term: Term) -> Result<(), NoMemory>
        ensures ok { OnOk result (self.new ≡ self.old ++ term ∷ []) }
        ensures err { OnErr result (self.new ≡ self.old) }
    {
        self.terms.push(term)?;
        Ok(())
    }

    // Removes the last term.
    pub(crate) fn pop(&mut self) -> Option<Term>
        ensures { MatchOption result (self.old ≡ []) (λ term. self.old ≡ self.new ++ term ∷ []) }
    {
        self.terms.pop()
    }

    /// The number of terms.
    pub fn len(&self) -> usize
        ensures { result ≡ length self.now }
    {
        self.terms.len()
    }

    /// Whether there is no term.
    pub fn is_empty(&self) -> bool
        ensures { IsTrue result ↔ (self.now ≡ []) }
    {
        self.terms.is_empty()
    }

    /// The terms in order.
    pub fn as_slice(&self) -> &[Term]
        ensures { result.now ≡ self.now }
    {
        self.terms.as_slice()
    }

    /// The term at this place, counted from 0.
    pub fn get(&self, at: usize) -> &Term
        requires { at < length self.now }
        ensures { slice_get self.now at ≡ Some result.now }
    {
        &self.terms[at]
    }
}
