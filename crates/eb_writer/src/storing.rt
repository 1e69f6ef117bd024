ghost use Rattle.std.specs.Prelude.{◌≡◌, ◌<◌, ◌+◌, length};
ghost use Rattle.eb_place.specs.declared.moment.Moment.{Moment};
ghost use Rattle.eb_place.specs.Postings.{terms_of};
ghost use Rattle.eb_place.specs.Tells.{TellsSegment};
ghost use Rattle.eb_place.specs.Walk.{IsTerm};
ghost use Rattle.eb_place.specs.Told.{Written};
ghost use Rattle.eb_writer.specs.Recall.{token_at};
ghost use Rattle.eb_writer.specs.Counting.{AreFound};
ghost use Rattle.eb_writer.specs.Storing.{HasComeTo, HasComeToPosting, HasStoredMore, IsNumbered, IsAccepted, BeginsSegment, before_it};

use crate::plan::Found;
use eb_base::{Document, MAX_TOKENS};
use eb_chain::append;
use eb_place::{Pen, Places, Used, posting};
use eb_terms::enter;

// The first store of a document that begins a segment: the segment's first-document word.
pub(crate) fn begin<P: Pen>(pen: &mut P, document: &Document, segment: u32, count: u64)
    requires { (m : Moment) × P.stands pen.old m × BeginsSegment m document.now segment × (count ≡ length m.documents.accepted) }
    ensures { Written P.stands P.same pen.old pen.new (λ m. BeginsSegment m document.now segment × (count ≡ length m.documents.accepted))
        (λ m n. HasStoredMore m n × HasComeTo n document.now segment 0) }
{
    let place = Places::new(pen.config()).first(segment);
    pen.store(document, place, count + 1);
}

// Stores the tokens of a document, in order. `used` describes the segment before and afterwards.
pub(crate) fn store_tokens<P: Pen>(
    pen: &mut P,
    document: &Document,
    segment: u32,
    used: &mut Used,
    found: &[Found; MAX_TOKENS],
)
    requires { (m : Moment) × P.stands pen.old m × HasComeTo m document.now segment 0 × TellsSegment used.old m segment
        × AreFound (terms_of (before_it m document.now)) document.now.terms found.now (length document.now.terms) }
    ensures { Written P.stands P.same pen.old pen.new (λ m. HasComeTo m document.now segment 0 × TellsSegment used.old m segment
        × AreFound (terms_of (before_it m document.now)) document.now.terms found.now (length document.now.terms))
        (λ m n. HasStoredMore m n × HasComeTo n document.now segment (length document.now.terms) × TellsSegment used.new n segment) }
{
    for at in 0..document.terms().len() {
        store_token(pen, document, segment, used, at, found[at].number);
    }
}

// Stores the token at a place of the document. A new term is entered first.
fn store_token<P: Pen>(
    pen: &mut P,
    document: &Document,
    segment: u32,
    used: &mut Used,
    at: usize,
    number: u32,
)
    requires { (m : Moment) × P.stands pen.old m × HasComeTo m document.now segment at × TellsSegment used.old m segment
        × (at < length document.now.terms) × IsNumbered m document.now at number }
    ensures { Written P.stands P.same pen.old pen.new (λ m. HasComeTo m document.now segment at × TellsSegment used.old m segment
        × (at < length document.now.terms) × IsNumbered m document.now at number)
        (λ m n. HasStoredMore m n × HasComeTo n document.now segment (at + 1) × TellsSegment used.new n segment) }
{
    let number = entered_number(pen, document, segment, used, at, number);
    let value = posting(used.documents, at as u32);
    append(pen, document, segment, used, number, value);
}

// The number of the token's term, which is entered if it is new.
fn entered_number<P: Pen>(
    pen: &mut P,
    document: &Document,
    segment: u32,
    used: &mut Used,
    at: usize,
    number: u32,
) -> u32
    requires { (m : Moment) × P.stands pen.old m × HasComeTo m document.now segment at × TellsSegment used.old m segment
        × (at < length document.now.terms) × IsNumbered m document.now at number }
    ensures { Written P.stands P.same pen.old pen.new (λ m. HasComeTo m document.now segment at × TellsSegment used.old m segment
        × (at < length document.now.terms) × IsNumbered m document.now at number)
        (λ m n. HasStoredMore m n × HasComeToPosting n document.now segment at
        × IsTerm n segment (token_at document.now.terms at) result × TellsSegment used.new n segment) }
{
    if number == used.terms {
        return enter(pen, document, segment, used, document.terms().get(at));
    }
    number
}

// The last two stores of a document: its id, and the greater count.
pub(crate) fn finish<P: Pen>(
    pen: &mut P,
    document: &Document,
    segment: u32,
    number: u32,
    count: u64,
)
    requires { (m : Moment) × P.stands pen.old m × HasComeTo m document.now segment (length document.now.terms)
        × (number ≡ length (before_it m document.now)) × (count ≡ length m.documents.accepted) }
    ensures { Written P.stands P.same pen.old pen.new (λ m. HasComeTo m document.now segment (length document.now.terms)
        × (number ≡ length (before_it m document.now)) × (count ≡ length m.documents.accepted))
        (λ m n. IsAccepted m n document.now) }
{
    let place = Places::new(pen.config()).id(segment, number);
    pen.store(document, place, document.id());
    pen.store(document, 0, count + 1);
}
