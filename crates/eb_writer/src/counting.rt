ghost use Rattle.std.specs.Prelude.{◌≡◌, ◌<◌, ◌≤◌, ◌+◌, ◌++◌, ◌∷◌, [], List, ℕ, length, take};
ghost use Rattle.eb_base.specs.Term.{Term};
ghost use Rattle.eb_base.specs.Document.{most_tokens, most_bytes};
ghost use Rattle.eb_place.specs.declared.moment.Moment.{Moment};
ghost use Rattle.eb_place.specs.Placing.{hash};
ghost use Rattle.eb_place.specs.Postings.{count_of, number_of, distinct};
ghost use Rattle.eb_place.specs.Later.{IsNotBefore};
ghost use Rattle.eb_chain.specs.Needs.{IsTailWord};
ghost use Rattle.eb_writer.specs.Recall.{Remembers, bucket_in, token_at};
ghost use Rattle.eb_writer.specs.Counting.{IsIdle, tokens_in, IsUsedBy, IsFound, AreFound, IsFirst, IsReady, IsPlan, IsSmall};

use crate::plan::{Found, Plan, Recall};
use crate::recall::{bucket_of, forget, hash_at, last_place, remember};
use eb_base::{Document, MAX_TOKENS, Term, Terms};
use eb_chain::{NewSlices, needs_next};
use eb_place::{Pen, Places, Steps, Used};
use eb_terms::{count_words, find_hashed};
use std::sync::ledger::{Blank, Ledger};

// Counts what a document needs of a segment, token by token, before any of it is stored.
pub(crate) fn make_plan<P: Pen, L: Ledger>(
    pen: &mut P,
    document: &Document,
    segment: u32,
    used: Used,
    plan: &mut Plan,
    blank: Blank,
)
    requires blank { (blank.name ≡ L.name) × (blank.parts ≡ L.parts) × (0 < blank.parts) }
    requires ready { (m : Moment) × P.stands pen.old m × IsReady m segment used }
    ensures { (m : Moment) → P.stands pen.old m → IsReady m segment used
        → (n : Moment) × P.stands pen.new n × IsNotBefore n m × P.keeps pen.old m pen.new n × IsPlan m segment used document.now plan.new }
{
    let terms = document.terms();
    let mut steps = Steps::<L>::new(blank);
    forget(&mut plan.recall, terms);
    plan.used = used;
    for at in 0..terms.len() {
        let next = plan.used.terms;
        let hashed = hash_at(terms, at);
        let bucket = bucket_of(hashed);
        let token = found_at(
            pen,
            segment,
            terms,
            at,
            hashed,
            bucket,
            &plan.recall,
            &plan.found,
            next,
            &mut steps,
        );
        plan.used = with_token(plan.used, terms.get(at), token);
        plan.found[at] = token;
        remember(&mut plan.recall, terms, at, bucket);
    }
}

// What is found of the token at a place: what was found of the same term's last token in the
// document, with one more earlier token; else what the segment says.
fn found_at<P: Pen, L: Ledger>(
    pen: &mut P,
    segment: u32,
    terms: &Terms,
    at: usize,
    hashed: u32,
    bucket: usize,
    recall: &Recall,
    found: &[Found; MAX_TOKENS],
    next: u32,
    steps: &mut Steps<L>,
) -> Found
    requires place { (at < length terms.now) × (length terms.now ≤ most_tokens) × Remembers recall.now terms.now at × (bucket ≡ bucket_in terms.now at) }
    requires hash { hashed ≡ hash (token_at terms.now at) }
    requires ready { (m : Moment) × P.stands pen.old m × IsIdle m × (segment < m.setting.segments) × AreFound (tokens_in m segment) terms.now found.now at }
    ensures { (m : Moment) → P.stands pen.old m → IsIdle m → segment < m.setting.segments → AreFound (tokens_in m segment) terms.now found.now at
        → next ≡ length (distinct (tokens_in m segment ++ take at terms.now))
        → (n : Moment) × P.stands pen.new n × IsNotBefore n m × P.keeps pen.old m pen.new n × IsFound (tokens_in m segment) terms.now at result }
{
    match last_place(recall, terms, at, bucket) {
        Some(place) => {
            let last = found[place];
            Found {
                earlier: last.earlier + 1,
                ..last
            }
        }
        None => first_found(pen, segment, terms.get(at), hashed, next, steps),
    }
}

// What the segment says of a term.
fn first_found<P: Pen, L: Ledger>(
    pen: &mut P,
    segment: u32,
    term: &Term,
    hashed: u32,
    next: u32,
    steps: &mut Steps<L>,
) -> Found
    requires hash { hashed ≡ hash term.now }
    requires ready { (m : Moment) × P.stands pen.old m × IsIdle m × (segment < m.setting.segments) }
    ensures { (m : Moment) → P.stands pen.old m → IsIdle m → segment < m.setting.segments
        → (n : Moment) × P.stands pen.new n × IsNotBefore n m × P.keeps pen.old m pen.new n × IsFirst (tokens_in m segment) term.now next result }
{
    match find_hashed(pen, segment, term, hashed, steps) {
        Some(number) => {
            let place = Places::new(pen.config()).tail(segment, number);
            Found {
                number,
                tail: pen.load(place, steps),
                earlier: 0,
            }
        }
        None => Found {
            number: next,
            tail: 0,
            earlier: 0,
        },
    }
}

// What is used with one more token.
fn with_token(used: Used, term: &Term, token: Found) -> Used
    requires tail { (f : ℕ) × IsTailWord f token.tail }
    requires few { token.earlier < most_tokens }
    requires short { length term.now ≤ most_bytes }
    requires small { (n : ℕ) × (n ≤ most_tokens) × IsSmall used n }
    ensures documents { result.documents ≡ used.documents }
    ensures used { (f : ℕ) (before : List (List ℕ)) → IsTailWord f token.tail → f + token.earlier ≡ count_of term.now before
        → token.number ≡ number_of term.now before → IsUsedBy used before → IsUsedBy result (before ++ term.now ∷ []) }
{
    let used = with_slices(used, needs_next(token.tail, token.earlier));
    if token.number == used.terms {
        return Used {
            terms: used.terms + 1,
            text: used.text + count_words(term) as u32,
            ..used
        };
    }
    used
}

// What is used with the slices that one more posting takes.
fn with_slices(used: Used, new: NewSlices) -> Used
    requires small { (n : ℕ) × (n ≤ most_tokens) × IsSmall used n }
    requires few { (new.pool0 ≤ 1) × (new.pool1 ≤ 1) × (new.pool2 ≤ 1) × (new.pool3 ≤ 1) }
    ensures others { (result.documents ≡ used.documents) × (result.terms ≡ used.terms) × (result.text ≡ used.text) }
    ensures pool0 { result.pool0 ≡ used.pool0 + new.pool0 }
    ensures pool1 { result.pool1 ≡ used.pool1 + new.pool1 }
    ensures pool2 { result.pool2 ≡ used.pool2 + new.pool2 }
    ensures pool3 { result.pool3 ≡ used.pool3 + new.pool3 }
{
    Used {
        pool0: used.pool0 + new.pool0,
        pool1: used.pool1 + new.pool1,
        pool2: used.pool2 + new.pool2,
        pool3: used.pool3 + new.pool3,
        ..used
    }
}
