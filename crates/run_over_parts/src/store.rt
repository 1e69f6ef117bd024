//! The blend that a run over parts fills and queries.
ghost use Rattle.eb_fields.specs.Dialect.{Dialect as Spoken};
ghost use Rattle.std.specs.Prelude.{◌≡◌, ◌+◌, ◌<◌, ◌≤◌, ◌^◌, ◌++◌, ℕ, List, [], length, map, sum, vec_len, vec_capacity, option_map, IfOk, OnErr, OnOk};
ghost use Rattle.eb_base.specs.Document.{Doc};
ghost use Rattle.eb_base.specs.Match.{answer};
ghost use Rattle.eb_base.specs.Query.{Tree};
ghost use Rattle.eb_base.specs.Setting.{Setting};
ghost use Rattle.eb_blend.specs.Blended.{blended};
ghost use Rattle.eb_blend.specs.Frames.{Asks, found_of};
ghost use Rattle.eb_blend.specs.Laws.{cut_into};
ghost use Rattle.eb_blend.specs.Counted.{all_of};
ghost use Rattle.eb_blend.specs.Parts.{AreFronts, counted, lengths_of};
ghost use Rattle.eb_count.specs.Tallies.{HasCounted};
ghost use Rattle.eb_cursor.specs.Frames.{query_of};
ghost use Rattle.eb_place.specs.Room.{cut};
ghost use Rattle.run_index.specs.Conversions.{most_converted};
ghost use Rattle.eb_lines.specs.declared.form.Form.{Form};
ghost use Rattle.run_over_parts.specs.AcceptedInParts.{refused_by};
ghost use Rattle.run_ahead.specs.Placed.{item_refusals, docs_after};
ghost use Rattle.run_over_parts.specs.Stores.{Holds, WithPlaced};
ghost use Rattle.run_over_parts.specs.Texts.{parts_rules};

use eb_base::{Config, Document, Gate, NoMemory};
use eb_blend::{Blend, BlendConverter, BlendFrame, BlendReader, BlendRefusal, BlendWriter};
use eb_count::Tally;
use eb_cursor::Frame;
use eb_lines::Refusal;
use eb_place::Steps;
use run_index::SegmentCounts;
use std::alloc::Global;
use std::marker::Brand;
use std::sync::ledger::{Blank, Ledger};
use std::thread::Threads;

// A blend with its writer and its converter.
#[derive(Drop)]
pub(crate) struct Store {
    blend: Blend,
    writer: BlendWriter,
    converter: BlendConverter,
}

// Searches all documents with a counter of loads of its own, and returns their number. Takes no
// memory.
fn search_alone<G: Gate, L: Ledger>(
    blend: &Blend,
    writer: &mut BlendWriter,
    frame: &mut BlendFrame,
    gate: &G,
    blank: Blank,
) -> u64
    requires blank { (blank.name ≡ L.name) × (blank.parts ≡ L.parts) × (0 < blank.parts) }
    requires made { writer.old.indexes ≡ blend.now.indexes }
    requires frame { (q : Tree) × (k : ℕ) × Asks frame.old q k (length blend.now.indexes) }
    ensures writer { writer.new ≡ writer.old }
    ensures count { result ≡ counted (lengths_of writer.old.histories) }
    ensures ids { (q : Tree) (k : ℕ) → Asks frame.old q k (length blend.now.indexes)
        → found_of frame.new ≡ blended q k writer.old.histories (lengths_of writer.old.histories) }
{
    let mut steps = Steps::<L>::new(blank);
    writer.search(blend, frame, gate, &mut steps)
}

// Counts what matches among all documents that the reader comes to see, with a counter of loads of
// its own, added to what the tally held. The frame stays as it is. Takes no memory.
fn count_alone<G: Gate, L: Ledger>(
    blend: &Blend,
    reader: &mut BlendReader,
    frame: &mut Frame,
    tally: &mut Tally,
    gate: &G,
    blank: Blank,
)
    requires blank { (blank.name ≡ L.name) × (blank.parts ≡ L.parts) × (0 < blank.parts) }
    requires made { reader.old.indexes ≡ blend.now.indexes }
    ensures made { reader.new.indexes ≡ reader.old.indexes }
    ensures known { AreFronts reader.old.histories reader.new.histories }
    ensures counts { HasCounted (query_of frame.old) (all_of reader.new.histories) tally.old tally.new }
{
    let mut steps = Steps::<L>::new(blank);
    reader.count(blend, frame, tally, gate, &mut steps);
}

// Why a document is refused that the blend refuses.
fn refused(refusal: BlendRefusal) -> Refusal
    ensures { result ≡ refused_by refusal }
{
    match refusal {
        BlendRefusal::NotRising { last } => Refusal::NotRising(last),
        BlendRefusal::Full { part: _ } => Refusal::Full,
    }
}

// Puts what came of each item after the others.
fn put_outcomes(outcomes: &[Option<BlendRefusal>], all: &mut Vec<Option<Refusal>>)
    requires { vec_len all.old + length outcomes.now ≤ vec_capacity all.old }
    ensures { all.new.items ≡ all.old.items ++ map (option_map refused_by) outcomes.now }
{
    for outcome in outcomes {
        all.push_reserved(outcome.map(refused));
    }
}

impl Store {
    // Empty parts, from 1 to 16. Takes all their memory.
    pub(crate) fn new(alloc: Global, parts: u32, config: Config) -> Result<Store, NoMemory>
        requires { (1 ≤ parts) × (parts ≤ 16) }
        ensures { IfOk result (λ store. Holds store parts config []) }
    {
        // the call that counts the words shows that the setting is allowed
        let _words = config.words();
        let (blend, writer, converter) = Blend::open(alloc, parts, config)?;
        Ok(Store {
            blend,
            writer,
            converter,
        })
    }

    // Adds a document to its part, and converts the segment that it closed there; or returns why it
    // is refused. Takes no memory.
    pub(crate) fn add<G: Gate>(&mut self, document: &Document, gate: &G) -> Option<Refusal>
        requires { (parts : ℕ) × (σ : Setting) × (docs : List Doc) × Holds self.old parts σ docs }
        ensures { (parts : ℕ) (σ : Setting) (docs : List Doc) → Holds self.old parts σ docs → WithPlaced self.new parts σ docs document.now result }
    {
        match self.writer.add(&self.blend, document, gate) {
            Ok(_count) => {
                self.writer.catch_up(&self.blend, &mut self.converter);
                None
            }
            Err(refusal) => Some(refused(refusal)),
        }
    }

    // Adds the documents among some items, one after the other, all parts concurrently, and
    // converts the segments that they closed; returns why each document is refused, if it is. Where
    // memory runs out, which shows before the first is added, nothing is done.
    pub(crate) fn add_all<R: Threads + Sync, E: Sync, G: Gate + Sync>(
        &mut self,
        rt: &R,
        alloc: Global,
        items: &[Result<Document, E>],
        gate: &G,
    ) -> Result<Vec<Option<Refusal>>, NoMemory>
        requires { (parts : ℕ) × (σ : Setting) × (docs : List Doc) × Holds self.old parts σ docs }
        ensures outcomes { IfOk result (λ r. (how : Spoken) (parts : ℕ) (σ : Setting) (form : Form) (docs : List Doc) → Holds self.old parts σ docs
            → r.items ≡ item_refusals (parts_rules how parts σ form) docs items.now) }
        ensures holds { OnOk result ((how : Spoken) (parts : ℕ) (σ : Setting) (form : Form) (docs : List Doc) → Holds self.old parts σ docs
            → Holds self.new parts σ (docs_after (parts_rules how parts σ form) docs items.now)) }
        ensures unchanged { OnErr result (self.new ≡ self.old) }
    {
        let mut refusals = Vec::with_capacity(alloc, items.len())?;
        let outcomes = self.writer.add_all(rt, alloc, &self.blend, items, gate)?;
        self.writer
            .catch_up_all(rt, &self.blend, &mut self.converter);
        put_outcomes(outcomes.as_slice(), &mut refusals);
        Ok(refusals)
    }

    // Searches all documents, and returns their number. Takes no memory.
    pub(crate) fn search<G: Gate>(&mut self, frame: &mut BlendFrame, gate: &G) -> u64
        requires holds { (parts : ℕ) × (σ : Setting) × (docs : List Doc) × Holds self.old parts σ docs }
        requires frame { (q : Tree) × (k : ℕ) × Asks frame.old q k (length self.old.blend.indexes) }
        ensures store { self.new ≡ self.old }
        ensures count { (parts : ℕ) (σ : Setting) (docs : List Doc) → Holds self.old parts σ docs → length docs < 2 ^ 64 → result ≡ length docs }
        ensures ids { (parts : ℕ) (σ : Setting) (docs : List Doc) (q : Tree) (k : ℕ) → Holds self.old parts σ docs → Asks frame.old q k parts
            → found_of frame.new ≡ answer q k docs }
        ensures few { (parts : ℕ) (σ : Setting) (docs : List Doc) (q : Tree) (k : ℕ) → Holds self.old parts σ docs → Asks frame.old q k parts
            → length (found_of frame.new) ≤ k }
    {
        search_alone::<G, Brand>(&self.blend, &mut self.writer, frame, gate, Blank::new(1))
    }

    // Counts what matches among all documents, added to what the tally held, and returns their
    // number. Takes memory for a reader of the parts; without it nothing is counted.
    pub(crate) fn count<G: Gate>(
        &mut self,
        alloc: Global,
        frame: &mut Frame,
        tally: &mut Tally,
        gate: &G,
    ) -> Result<u64, NoMemory>
        requires { (parts : ℕ) × (σ : Setting) × (docs : List Doc) × Holds self.old parts σ docs }
        ensures store { self.new ≡ self.old }
        ensures count { IfOk result (λ n. (parts : ℕ) (σ : Setting) (docs : List Doc) → Holds self.old parts σ docs → length docs < 2 ^ 64 → n ≡ length docs) }
        ensures counts { OnOk result ((parts : ℕ) (σ : Setting) (docs : List Doc) → Holds self.old parts σ docs
            → HasCounted (query_of frame.old) docs tally.old tally.new) }
    {
        let mut reader = self.writer.reader(alloc, &self.blend)?;
        count_alone::<G, Brand>(&self.blend, &mut reader, frame, tally, gate, Blank::new(1));
        self.writer.meet(&self.blend, reader);
        Ok(self.writer.accepted())
    }

    // The number of documents.
    pub(crate) fn documents(&self) -> u64
        ensures { (parts : ℕ) (σ : Setting) (docs : List Doc) → Holds self.now parts σ docs → length docs < 2 ^ 64 → result ≡ length docs }
    {
        self.writer.accepted()
    }

    // Converts of each part all segments but the last one, and returns how many are begun and how
    // many are converted.
    pub(crate) fn close(&mut self, alloc: Global) -> Result<SegmentCounts, NoMemory>
        requires { (parts : ℕ) × (σ : Setting) × (docs : List Doc) × Holds self.old parts σ docs }
        ensures documents { self.new.writer ≡ self.old.writer }
        ensures segments { IfOk result (λ r. (parts : ℕ) (σ : Setting) (docs : List Doc) → Holds self.old parts σ docs
            → r.segments ≡ sum (map (λ h. length (cut σ h)) (cut_into parts docs))) }
        ensures converted { IfOk result (λ r. (parts : ℕ) (σ : Setting) (docs : List Doc) → Holds self.old parts σ docs
            → r.converted ≡ sum (map most_converted (map (λ h. length (cut σ h)) (cut_into parts docs)))) }
    {
        let reader = self.writer.reader(alloc, &self.blend)?;
        self.converter.meet(&self.blend, reader);
        self.converter.convert_all(&self.blend);
        self.writer.hear(&self.blend, &mut self.converter);
        Ok(SegmentCounts {
            segments: self.writer.segments(),
            converted: self.converter.converted(),
        })
    }
}
