//! Tokens in pieces.
ghost use Rattle.std.specs.Prelude.{◌≡◌, ◌≤◌, [], ◌∷◌, ◌++◌, length, IfOk, IsAscii};
ghost use Rattle.std.specs.List.{filter, position_or_len};
ghost use Rattle.eb_text.specs.Tokens.{tokens_of};
ghost use Rattle.eb_text.specs.Pieces.{is_mark, has_byte, pieces, in_cut, tokens_by};
ghost use Rattle.eb_text.specs.declared.cutting.Cut.TheVariants as by;

use crate::cutting::Cut;
use crate::{SHORT, folded_term, is_ascii, push_words};
use eb_base::{NoMemory, Term, Terms};
use std::alloc::Global;

// Whether a byte is a character of ASCII that is neither a letter nor a digit.
fn is_mark_byte(byte: u8) -> bool
    ensures { result ≡ is_mark byte }
{
    byte < 128 && !byte.is_ascii_alphanumeric()
}

// How many bytes come before the first mark.
fn mark_at(bytes: &[u8]) -> usize
    ensures place { result ≡ position_or_len is_mark bytes.now }
    ensures within { result ≤ length bytes.now }
{
    for (at, byte) in bytes.iter().enumerate() {
        if is_mark_byte(*byte) {
            return at;
        }
    }
    bytes.len()
}

// Puts a piece at the end, unless it is empty.
fn push_piece(alloc: Global, piece: &[u8], terms: &mut Terms) -> Result<(), NoMemory>
    ensures { IfOk result (λ _. terms.new ≡ terms.old ++ filter has_byte (piece.now ∷ [])) }
{
    if piece.is_empty() {
        return Ok(());
    }
    let term = Term::new(alloc, piece)?;
    terms.push(term)?;
    Ok(())
}

// Puts the pieces of a token at the end.
fn push_cut(alloc: Global, token: &[u8], terms: &mut Terms) -> Result<(), NoMemory>
    ensures { IfOk result (λ _. terms.new ≡ terms.old ++ pieces token.now) }
{
    let mut rest = token;
    'rest: loop {
        let (piece, behind) = rest.split_at(mark_at(rest));
        push_piece(alloc, piece, terms)?;
        let Some((_mark, more)) = behind.split_first() else {
            return Ok(());
        };
        rest = more;
    }
}

// Puts a token at the end, whole or in pieces.
#[inline(always)]
pub(crate) fn push_token(
    alloc: Global,
    cut: Cut,
    token: Term,
    terms: &mut Terms,
) -> Result<(), NoMemory>
    ensures { IfOk result (λ _. terms.new ≡ terms.old ++ in_cut cut (token ∷ [])) }
{
    match cut {
        Cut::Words => {
            terms.push(token)?;
            Ok(())
        }
        Cut::Pieces => push_whole(alloc, token, terms),
    }
}

// Puts the pieces of a token at the end; a token without a mark is its own piece.
#[tactic(auto, using(crate::proofs::ByCut::one_token))]
fn push_whole(alloc: Global, token: Term, terms: &mut Terms) -> Result<(), NoMemory>
    ensures { IfOk result (λ _. terms.new ≡ terms.old ++ in_cut by.Pieces (token ∷ [])) }
{
    let len = token.bytes().len();
    if len > 0 && mark_at(token.bytes()) == len {
        terms.push(token)?;
        return Ok(());
    }
    push_cut(alloc, token.bytes(), terms)
}

// Puts the tokens of a text of ASCII at the end: its runs of letters and digits.
#[tactic(auto, using(crate::proofs::Runs::runs))]
fn push_runs(alloc: Global, text: &str, terms: &mut Terms) -> Result<(), NoMemory>
    requires { IsAscii text.now }
    ensures { IfOk result (λ _. terms.new ≡ terms.old ++ tokens_by by.Pieces text.now) }
{
    if text.len() > SHORT {
        let folded = folded_term(alloc, text)?;
        return push_cut(alloc, folded.bytes(), terms);
    }
    let mut room = [0; SHORT];
    let letters = &mut room[..text.len()];
    letters.copy_from_slice(text.as_bytes());
    letters.make_ascii_lowercase();
    push_cut(alloc, letters, terms)
}

// Puts the pieces of a text's tokens at the end.
pub(crate) fn push_pieces(alloc: Global, text: &str, terms: &mut Terms) -> Result<(), NoMemory>
    ensures { IfOk result (λ _. terms.new ≡ terms.old ++ tokens_by by.Pieces text.now) }
{
    if is_ascii(text) {
        return push_runs(alloc, text, terms);
    }
    push_words(alloc, Cut::Pieces, text, terms)
}
