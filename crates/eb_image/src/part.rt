ghost use Rattle.std.specs.Prelude.{◌≡◌, ◌++◌, ◌<◌, ◌≤◌, ◌^◌, length, IfOk, OnOk};
ghost use Rattle.eb_base.specs.Document.{Doc, IsDocument};
ghost use Rattle.eb_image.specs.Image.{document_part, term_bytes};
ghost use Rattle.eb_image.specs.Reading.{IsPart, IsPartOf};
ghost use Rattle.eb_image.specs.Scan.{longest_part};

use crate::scan::{BEFORE_TERMS, two_bytes_at};
use eb_base::{Document, NoMemory, Term, Terms};
use std::alloc::Global;

// Puts a term after the bytes.
fn put_term(bytes: &mut Vec<u8>, term: &Term) -> Result<(), NoMemory>
    requires { length term.now < 2 ^ 16 }
    ensures { OnOk result (bytes.new.items ≡ bytes.old.items ++ term_bytes term.now) }
{
    let letters = term.bytes();
    bytes.extend_from_slice(&(letters.len() as u16).to_be_bytes())?;
    bytes.extend_from_slice(letters)?;
    Ok(())
}

/// The part of the document in an image: the byte 1, the id in eight bytes, highest first, the
/// number of terms in two bytes, and for each term its length in two bytes and its bytes (this
/// project's profile, docs/FORMATS.md). Takes memory.
pub fn write_part(alloc: Global, document: &Document) -> Result<Vec<u8>, NoMemory>
    ensures { IfOk result (λ bytes. bytes.items ≡ document_part document.now) }
{
    let terms = document.terms();
    let mut bytes = Vec::new(alloc);
    bytes.push(1)?;
    bytes.extend_from_slice(&document.id().to_be_bytes())?;
    bytes.extend_from_slice(&(terms.len() as u16).to_be_bytes())?;
    for term in terms.as_slice() {
        put_term(&mut bytes, term)?;
    }
    Ok(bytes)
}

// The terms in the bytes of a part that has this many.
fn terms_of(alloc: Global, bytes: &[u8], count: usize) -> Result<Terms, NoMemory>
    requires part { IsPart bytes.now }
    requires within { length bytes.now ≤ longest_part }
    requires count { (d : Doc) → IsDocument d → bytes.now ≡ document_part d → count ≡ length d.terms }
    ensures { IfOk result (λ terms. (d : Doc) → IsDocument d → bytes.now ≡ document_part d → terms ≡ d.terms) }
{
    let mut terms = Terms::new(alloc);
    let mut at = BEFORE_TERMS;
    'terms: for _ in 0..count {
        let from = at + 2;
        let to = from + two_bytes_at(bytes, at);
        let term = Term::new(alloc, &bytes[from..to])?;
        terms.push(term)?;
        at = to;
    }
    Ok(terms)
}

// The document of a part.
pub(crate) fn document_of(alloc: Global, bytes: &[u8]) -> Result<Document, NoMemory>
    requires part { IsPart bytes.now }
    requires within { length bytes.now ≤ longest_part }
    ensures { IfOk result (λ document. IsPartOf document bytes.now) }
{
    let id = u64::from_be_bytes([
        bytes[1], bytes[2], bytes[3], bytes[4], bytes[5], bytes[6], bytes[7], bytes[8],
    ]);
    let terms = terms_of(alloc, bytes, two_bytes_at(bytes, 9))?;
    match Document::new(id, terms) {
        Ok(document) => Ok(document),
        Err(_) => unreachable!(),
    }
}
