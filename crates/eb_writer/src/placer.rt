//! The placer: it plans a document, and then stores it.
//!
//! What a document needs is counted posting by posting (`needs_next`) on a copy of what is used.
//! `plan.rt` says how, and why.
//!
//! A document that begins a segment is counted a second time, over the empty segment: one more
//! probe for each distinct term, which finds a free cell at once.
ghost use Rattle.std.specs.Prelude.{◌≡◌, ◌<◌, ◌+◌, ◌-◌, ◌*◌, ◌/◌, ◌&&◌, length, nat_le, IfOk, OnErr, MatchOption};
ghost use Rattle.eb_place.specs.declared.moment.Moment.{Moment};
ghost use Rattle.eb_place.specs.Layout.{pool_slices};
ghost use Rattle.eb_place.specs.Postings.{terms_of};
ghost use Rattle.eb_place.specs.Room.{cut, HasRoom};
ghost use Rattle.eb_place.specs.Moments.{empty_moment};
ghost use Rattle.eb_place.specs.Later.{IsNotBefore};
ghost use Rattle.eb_place.specs.Tells.{TellsSegment};
ghost use Rattle.eb_place.specs.Told.{Written};
ghost use Rattle.eb_writer.specs.Counting.{AreFound};
ghost use Rattle.eb_writer.specs.Storing.{HasComeTo, IsAccepted, before_it};
ghost use Rattle.eb_writer.specs.Progress.{PlacerStands, IsLastFull, HasNoRoom};

use crate::counting::make_plan;
use crate::plan::{Found, Plan, plan_nothing};
use crate::storing::{begin, finish, store_tokens};
use eb_base::{Config, Document, MAX_TOKENS};
use eb_place::{Pen, Used};
use std::error::Error;
use std::fmt;
use std::marker::{Brand, Model};
use std::sync::ledger::Blank;

/// There is no room for the document: it doesn't fit the last segment that is begun, and all
/// segments of the index are begun.
#[derive(Clone, Copy, Debug, PartialEq, Eq)]
pub struct Full;

impl fmt::Display for Full {
    ghost use Rattle.std.specs.Prelude.{Some, codes};

    ghost output = { λ _. Some (codes "the index is full") };

    fn fmt<W: fmt::Write>(&self, f: &mut fmt::Formatter<W>) -> fmt::Result {
        f.write_str("the index is full")
    }
}

impl Error for Full {}

// What is used of a segment at first.
const NOTHING: Used = Used {
    documents: 0,
    terms: 0,
    text: 0,
    pool0: 0,
    pool1: 0,
    pool2: 0,
    pool3: 0,
};

/// Adds documents to an index, for its one writer. It knows how many segments are begun, and how
/// much of the last one is used. The relation `PlacerStands` of `specs/` says for which moments of
/// the words it stands.
#[derive(Drop)]
pub struct Placer {
    config: Config,
    segments: u32,
    documents: u64,
    used: Used,
    // Where a document is planned.
    plan: Plan,
}

impl Model for Placer {
    ghost use Rattle.eb_writer.specs.Progress.{PlacerProgress};

    ghost Value = { PlacerProgress };

    ghost view = { λ p. record { setting = p.config; segments = p.segments; documents = p.documents; used = p.used } };
}

impl Placer {
    /// A placer for an index of this setting that has no document. Takes no memory.
    pub fn new(config: Config) -> Placer
        ensures { PlacerStands result (empty_moment config) }
    {
        Placer {
            config,
            segments: 0,
            documents: 0,
            used: NOTHING,
            plan: plan_nothing(NOTHING),
        }
    }

    /// The placer that has begun `segments` segments, placed `documents` documents of an index of
    /// this setting, and used `used` of the last segment: one that was put down, by what its
    /// `config`, `segments`, `documents` and `used` returned. No number is tested. It stands for a
    /// moment of the words where all four are those of that moment, as `PlacerStands` says, and for
    /// no other. Takes no memory.
    pub fn resume(config: Config, segments: u32, documents: u64, used: Used) -> Placer
        ensures { result ≡ record { setting = config; segments = segments; documents = documents; used = used } }
    {
        Placer {
            config,
            segments,
            documents,
            used,
            plan: plan_nothing(NOTHING),
        }
    }

    /// The setting of its index.
    pub fn config(&self) -> Config
        ensures { result ≡ self.now.setting }
    {
        self.config
    }

    /// The number of segments of the cut of the documents that it placed.
    pub fn segments(&self) -> u32
        ensures kept { result ≡ self.now.segments }
        ensures cut { (m : Moment) → PlacerStands self.now m → result ≡ length (cut m.setting m.documents.accepted) }
    {
        self.segments
    }

    /// The number of documents that it placed.
    pub fn documents(&self) -> u64
        ensures kept { result ≡ self.now.documents }
        ensures accepted { (m : Moment) → PlacerStands self.now m → result ≡ length m.documents.accepted }
    {
        self.documents
    }

    /// How much of the last segment that is begun is used; all 0 where none is begun.
    pub fn used(&self) -> Used
        ensures kept { result ≡ self.now.used }
        ensures segment { (m : Moment) → PlacerStands self.now m → TellsSegment result m (length (cut m.setting m.documents.accepted) - 1) }
    {
        self.used
    }

    /// Adds a document: does exactly the stores of the document's placing, in order, and returns
    /// the new count of accepted documents. `Full` exactly where there is no room for the document;
    /// then no store is done. What the document needs is counted before the first store. The work
    /// is one lookup in the dictionary for each distinct term, and a bounded number of steps for
    /// each token; twice that where the document begins a segment. Takes no memory.
    pub fn add<P: Pen>(&mut self, pen: &mut P, document: &Document) -> Result<u64, Full>
        requires { (m : Moment) × P.stands pen.old m × PlacerStands self.old m }
        ensures ok { IfOk result (λ count. (m : Moment) → P.stands pen.old m → PlacerStands self.old m
            → (n : Moment) × P.stands pen.new n × P.same pen.old pen.new × HasRoom m.setting m.documents.accepted document.now
            × IsAccepted m n document.now × (count ≡ length m.documents.accepted + 1) × PlacerStands self.new n) }
        ensures full { OnErr result ((m : Moment) → P.stands pen.old m → PlacerStands self.old m
            → (n : Moment) × P.stands pen.new n × P.keeps pen.old m pen.new n × HasNoRoom m document.now
            × IsNotBefore n m × (n.documents ≡ m.documents) × PlacerStands self.new n) }
        ensures unchanged { OnErr result (self.new ≡ self.old) }
    {
        if let Some(count) = self.join_last(pen, document) {
            return Ok(count);
        }
        if self.segments == self.config.segments() {
            return Err(Full);
        }
        Ok(self.begin_next(pen, document))
    }

    // Adds a document to the last segment, where it fits; else none is stored.
    fn join_last<P: Pen>(&mut self, pen: &mut P, document: &Document) -> Option<u64>
        requires { (m : Moment) × P.stands pen.old m × PlacerStands self.old m }
        ensures { MatchOption result
            ((self.new ≡ self.old) × ((m : Moment) → P.stands pen.old m → PlacerStands self.old m
            → (n : Moment) × P.stands pen.new n × P.keeps pen.old m pen.new n × IsLastFull m document.now
            × IsNotBefore n m × (n.documents ≡ m.documents)))
            (λ count. (m : Moment) → P.stands pen.old m → PlacerStands self.old m
            → (n : Moment) × P.stands pen.new n × P.same pen.old pen.new × HasRoom m.setting m.documents.accepted document.now
            × IsAccepted m n document.now × (count ≡ length m.documents.accepted + 1) × PlacerStands self.new n) }
    {
        if self.segments == 0 {
            return None;
        }
        let segment = self.segments - 1;
        let used = self.used;
        make_plan::<P, Brand>(pen, document, segment, used, &mut self.plan, Blank::new(1));
        if !is_within(self.plan.used, self.config) {
            return None;
        }
        self.used = store_rest(
            pen,
            document,
            segment,
            used,
            &self.plan.found,
            self.documents,
        );
        self.documents += 1;
        Some(self.documents)
    }

    // Adds a document that doesn't fit the last segment to the next one.
    fn begin_next<P: Pen>(&mut self, pen: &mut P, document: &Document) -> u64
        requires { (m : Moment) × P.stands pen.old m × PlacerStands self.old m × IsLastFull m document.now
            × (length (cut m.setting m.documents.accepted) < m.setting.segments) }
        ensures { Written P.stands P.same pen.old pen.new
            (λ m. PlacerStands self.old m × IsLastFull m document.now × (length (cut m.setting m.documents.accepted) < m.setting.segments))
            (λ m n. HasRoom m.setting m.documents.accepted document.now × IsAccepted m n document.now
            × (result ≡ length m.documents.accepted + 1) × PlacerStands self.new n) }
    {
        let segment = self.segments;
        make_plan::<P, Brand>(
            pen,
            document,
            segment,
            NOTHING,
            &mut self.plan,
            Blank::new(1),
        );
        begin(pen, document, segment, self.documents);
        self.used = store_rest(
            pen,
            document,
            segment,
            NOTHING,
            &self.plan.found,
            self.documents,
        );
        self.segments += 1;
        self.documents += 1;
        self.documents
    }
}

// Stores the tokens of a document, its id and the greater count, and returns what is used of its
// segment then.
fn store_rest<P: Pen>(
    pen: &mut P,
    document: &Document,
    segment: u32,
    used: Used,
    found: &[Found; MAX_TOKENS],
    count: u64,
) -> Used
    requires { (m : Moment) × P.stands pen.old m × HasComeTo m document.now segment 0 × TellsSegment used m segment
        × AreFound (terms_of (before_it m document.now)) document.now.terms found.now (length document.now.terms) × (count ≡ length m.documents.accepted) }
    ensures { Written P.stands P.same pen.old pen.new (λ m. HasComeTo m document.now segment 0 × TellsSegment used m segment
        × AreFound (terms_of (before_it m document.now)) document.now.terms found.now (length document.now.terms) × (count ≡ length m.documents.accepted))
        (λ m n. IsAccepted m n document.now × TellsSegment result n segment) }
{
    let mut used = used;
    store_tokens(pen, document, segment, &mut used, found);
    finish(pen, document, segment, used.documents, count);
    Used {
        documents: used.documents + 1,
        ..used
    }
}

// Whether a segment has room for one more document that needs this much: for its terms, their text
// words and the slices of each pool.
fn is_within(used: Used, config: Config) -> bool
    ensures { result ≡ (nat_le (used.documents + 1) config.docs && nat_le used.terms config.terms && nat_le used.text (4 * config.terms)
        && nat_le used.pool0 (pool_slices config 0) && nat_le used.pool1 (pool_slices config 1)
        && nat_le used.pool2 (pool_slices config 2) && nat_le used.pool3 (pool_slices config 3)) }
{
    let terms = config.terms();
    used.documents < config.docs()
        && used.terms <= terms
        && used.text <= 4 * terms
        && used.pool0 <= terms
        && used.pool1 <= terms / 2
        && used.pool2 <= terms / 16
        && used.pool3 <= terms / 128
}
