//! The tokens of a text: its words, with their case folded. Documents and queries are cut by this
//! one rule, so a query finds what it names however it was written. [`folded_term`] folds a whole
//! text.
//!
//! The word boundaries of UAX #29 look at the table entry of each character and at its neighbours,
//! which took more than a third of a document's instructions. Most words are ASCII letters and
//! digits between two spaces, and there the rules come to what one sees: letters and digits are
//! joined, and a space between a byte of ASCII and an ASCII letter or digit ends a word, since no
//! rule joins over it or looks past it. So a text is cut at such spaces first, and only parts with
//! other bytes are cut by the boundaries. `specs/Parting.antt` and `proofs/Words.antt` show that
//! the words are the same. A space before a mark isn't such a space: some marks are letters, and
//! combine with it. Rejected: to cut at commas and full stops, which join in `3,5` and `foo.bar`.
//!
//! A word of ASCII without a capital letter is its own folding. Any other word of ASCII of at most
//! 64 bytes is folded in a buffer on the stack, and a word whose characters fold to themselves
//! stays as it is; only the rest takes memory. A Zipf document, a third of whose words are of these
//! two kinds, takes 18,800 instructions in place of 20,500. Rejected: a buffer that is kept from
//! word to word, which is one more parameter of each call.
#![tactic(auto)]

ghost use Rattle.std.specs.Prelude.{◌≡◌, ◌+◌, ◌<◌, ◌≤◌, [], ◌∷◌, ◌++◌, drop, length, slice_index, take, IfOk, IsAscii, IsTrue, MatchOption};
ghost use Rattle.std.specs.List.{All};
ghost use Rattle.std.specs.Str.{IsCharBoundary};
ghost use Rattle.ucd_case.specs.CaseFolding.{full_fold};
ghost use Rattle.unicode_segmentation.specs.Word.{words};
ghost use Rattle.eb_text.specs.Parting.{IsAlphanumeric, IsPlain, IsParting};
ghost use Rattle.eb_text.specs.Tokens.{IsFoldedByte, folded, tokens_of};
ghost use Rattle.eb_text.specs.Pieces as spec;
ghost use Rattle.eb_text.specs.declared.cutting.Cut.{Cut as How};

mod cutting;
mod laws;
mod pieces;

pub use crate::cutting::Cut;
pub use crate::laws::pieces_of_tokens;
use crate::pieces::{push_pieces, push_token};
use caseless::default_case_fold_str;
use eb_base::{NoMemory, Term, Terms};
use std::alloc::Global;
use ucd_case::full_folding;
use unicode_segmentation::UnicodeSegmentation;

// The most bytes of a text of ASCII that is folded in place.
pub(crate) const SHORT: usize = 64;

/// The tokens of the text, in order: its words by the word boundaries of UAX #29, each under the
/// default case folding of Unicode. A piece without a letter or a number is no word, so a text of
/// punctuation has no token. Takes memory for the tokens; `NoMemory` where it runs out.
pub fn tokens(alloc: Global, text: &str) -> Result<Terms, NoMemory>
    ensures { IfOk result (λ terms. terms ≡ tokens_of text.now) }
{
    tokens_by(alloc, Cut::Words, text)
}

/// The tokens of the text by this cut: each word whole, or in pieces. Takes memory as [`tokens`]
/// does.
pub fn tokens_by(alloc: Global, cut: Cut, text: &str) -> Result<Terms, NoMemory>
    ensures { IfOk result (λ terms. terms ≡ spec.tokens_by cut text.now) }
{
    let mut terms = Terms::with_capacity(alloc, text.len() / 4 + 1)?;
    let mut rest = text;
    loop {
        let plain = plain_front(rest);
        let end = parting_space(rest, plain);
        push_tokens(alloc, cut, &rest[..end], plain, &mut terms)?;
        if end == rest.len() {
            return Ok(terms);
        }
        rest = &rest[end + 1..];
    }
}

/// The token of a text that is one word of ASCII letters and digits, and `None` for any other text,
/// whose tokens [`tokens`] gives. Takes memory for a long token alone; `NoMemory` where it runs
/// out.
pub fn plain_token(alloc: Global, text: &str) -> Result<Option<Term>, NoMemory>
    ensures { IfOk result (λ found. MatchOption found (IsPlain text.now → ⊥) (λ term. (cut : How) → spec.tokens_by cut text.now ≡ term ∷ [])) }
{
    let plain = plain_front(text);
    if plain == 0 || plain != text.len() {
        return Ok(None);
    }
    let term = folded_term(alloc, text)?;
    Ok(Some(term))
}

// Puts the tokens of a text at the end. Its first `plain` bytes are ASCII letters and digits; where
// all bytes are, the text is one word.
#[inline(always)]
fn push_tokens(
    alloc: Global,
    cut: Cut,
    text: &str,
    plain: usize,
    terms: &mut Terms,
) -> Result<(), NoMemory>
    requires { All IsAlphanumeric (take plain text.now) }
    ensures { IfOk result (λ _. terms.new ≡ terms.old ++ spec.tokens_by cut text.now) }
{
    if plain == 0 || plain != text.len() {
        return match cut {
            Cut::Words => push_words(alloc, cut, text, terms),
            Cut::Pieces => push_pieces(alloc, text, terms),
        };
    }
    let term = folded_term(alloc, text)?;
    terms.push(term)?;
    Ok(())
}

// Puts the tokens of any text at the end, by its word boundaries.
pub(crate) fn push_words(
    alloc: Global,
    cut: Cut,
    text: &str,
    terms: &mut Terms,
) -> Result<(), NoMemory>
    ensures { IfOk result (λ _. terms.new ≡ terms.old ++ spec.tokens_by cut text.now) }
{
    for word in text.unicode_words() {
        let term = folded_term(alloc, word)?;
        push_token(alloc, cut, term, terms)?;
    }
    Ok(())
}

// How many bytes at the start are ASCII letters and digits.
#[inline(always)]
pub(crate) fn plain_front(text: &str) -> usize
    ensures within { result ≤ length text.now }
    ensures plain { All IsAlphanumeric (take result text.now) }
    ensures most { result < length text.now → IsAlphanumeric (slice_index text.now result) → ⊥ }
{
    let bytes = text.as_bytes();
    let mut place = 0;
    while place < bytes.len() && bytes[place].is_ascii_alphanumeric() {
        place += 1;
    }
    place
}

// The first place, from this one on, of a space that parts the words before it from those after it,
// whatever they are; the length where there is none.
#[inline(always)]
fn parting_space(text: &str, from: usize) -> usize
    requires { from ≤ length text.now }
    ensures within { (from ≤ result) × (result ≤ length text.now) }
    ensures ends { IsCharBoundary text.now result }
    ensures begins { result < length text.now → IsCharBoundary text.now (result + 1) }
    ensures parts { words text.now ≡ words (take result text.now) ++ words (drop (result + 1) text.now) }
{
    let bytes = text.as_bytes();
    for place in from..bytes.len() {
        if is_parting(bytes, place) {
            return place;
        }
    }
    bytes.len()
}

// Whether there is a space here, after a byte of ASCII other than a space, and before an ASCII
// letter or digit: no rule of UAX #29 joins over it, or looks past it.
#[inline(always)]
fn is_parting(bytes: &[u8], place: usize) -> bool
    requires { place < length bytes.now }
    ensures { IsTrue result → IsParting bytes.now place }
{
    if bytes[place] != b' ' {
        return false;
    }
    if place == 0 || place + 1 == bytes.len() {
        return false;
    }
    let last = bytes[place - 1];
    last < 128 && last != b' ' && bytes[place + 1].is_ascii_alphanumeric()
}

/// A text under the default case folding of Unicode, as one term: it isn't cut into words. A text
/// whose characters fold to themselves, and one of ASCII of at most 64 bytes, takes no memory
/// except a long term's.
#[inline(always)]
#[tactic(auto, using(crate::proofs::Folding::folded_same))]
pub fn folded_term(alloc: Global, text: &str) -> Result<Term, NoMemory>
    ensures { IfOk result (λ term. term ≡ folded text.now) }
{
    if is_folded_ascii(text) {
        return Term::new(alloc, text.as_bytes());
    }
    other_folded_term(alloc, text)
}

// A text under the default case folding of Unicode, as one term; it may have capital letters, or
// characters beyond ASCII.
fn other_folded_term(alloc: Global, text: &str) -> Result<Term, NoMemory>
    ensures { IfOk result (λ term. term ≡ folded text.now) }
{
    if text.len() <= SHORT && is_ascii(text) {
        return short_folded_term(alloc, text);
    }
    if is_folded(text) {
        return Term::new(alloc, text.as_bytes());
    }
    let folded = default_case_fold_str(alloc, text)?;
    Term::new(alloc, folded.as_bytes())
}

// A text of ASCII of at most 64 bytes under the default case folding of Unicode, as one term.
fn short_folded_term(alloc: Global, text: &str) -> Result<Term, NoMemory>
    requires short { length text.now ≤ SHORT }
    requires ascii { IsAscii text.now }
    ensures { IfOk result (λ term. term ≡ folded text.now) }
{
    let mut room = [0; SHORT];
    let letters = &mut room[..text.len()];
    letters.copy_from_slice(text.as_bytes());
    letters.make_ascii_lowercase();
    Term::new(alloc, letters)
}

// Whether all bytes of a text are ASCII, byte by byte, since words are short.
pub(crate) fn is_ascii(text: &str) -> bool
    ensures { IsTrue result → IsAscii text.now }
{
    for byte in text.as_bytes() {
        if *byte >= 128 {
            return false;
        }
    }
    true
}

// Whether each character of a text folds to itself.
fn is_folded(text: &str) -> bool
    ensures { IsTrue result → folded text.now ≡ text.now }
{
    for c in text.chars() {
        if !folds_to_itself(c) {
            return false;
        }
    }
    true
}

// Whether a character folds to itself.
fn folds_to_itself(c: char) -> bool
    ensures { IsTrue result → full_fold c ≡ c ∷ [] }
{
    if c.is_ascii_uppercase() {
        return false;
    }
    if c.is_ascii() {
        return true;
    }
    full_folding(c).is_empty()
}

// Whether all bytes of a text are ASCII and no capital letters.
fn is_folded_ascii(text: &str) -> bool
    ensures { IsTrue result → All IsFoldedByte text.now }
{
    for byte in text.as_bytes() {
        if !is_folded_byte(*byte) {
            return false;
        }
    }
    true
}

// Whether a byte is ASCII and no capital letter.
fn is_folded_byte(byte: u8) -> bool
    ensures { IsTrue result → IsFoldedByte byte }
{
    byte < 65 || (byte > 90 && byte < 128)
}
