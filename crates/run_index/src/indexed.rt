ghost use Rattle.std.specs.Prelude.{◌≡◌, ◌≤◌, List, [], length, IfOk, OnErr, OnOk};
ghost use Rattle.run_store.specs.Questions.{MayAsk};
ghost use Rattle.run_store.specs.Stores.{IsHolding, PutsAnswer};
ghost use Rattle.eb_base.specs.Query.{tree, IsWellFormed};
ghost use Rattle.eb_query.specs.Head.{most_buckets};
ghost use Rattle.eb_query.specs.declared.ask.Ask.TheVariants.{Newest, Counts};
ghost use Rattle.run_store.specs.Rules.{Rules};
ghost use Rattle.eb_base.specs.Document.{Doc};
ghost use Rattle.eb_base.specs.Setting.{Setting};
ghost use Rattle.run_index.specs.Indexed.{Holds, WithPlaced, IsIndexed};
ghost use Rattle.run_index.specs.IndexRules.{index_tail};
ghost use Rattle.eb_base.specs.Match.{answer};
ghost use Rattle.eb_count.specs.Tallies.{AreCounts};
ghost use Rattle.eb_cursor.specs.Frames.{query_of, k_of, ids_of, SeenAs};

use crate::converting::{catch_up, close};
use crate::counting::count_all;
use crate::ending::tell_segments;
use crate::searching::search_all;
use crate::spare::Spare;
use eb_base::{Config, Document, Gate, NoMemory, Query};
use eb_bloom::Filters;
use eb_count::Tally;
use eb_cursor::Frame;
use eb_engine::{Converter, Index, Writer};
use eb_fields::Dialect;
use eb_lines::{Form, Refusal, Tail, line_room, put_answer, put_count};
use eb_query::Ask;
use eb_writer::Full;
use run_store::Store;
use std::alloc::Global;

/// An index with its writer, its converter and the filters of its segments, and how its output is
/// written. The memory of the last query serves the next one.
#[derive(Drop)]
pub struct Indexed {
    index: Index,
    writer: Writer,
    converter: Converter,
    filters: Filters,
    spare: Spare,
    form: Form,
}

impl Indexed {
    /// An empty index. Takes all its memory.
    pub fn new(alloc: Global, form: Form, config: Config) -> Result<Indexed, NoMemory>
        ensures holds { IfOk result (λ s. Holds s config []) }
        ensures form { IfOk result (λ s. s.form ≡ form) }
    {
        let (index, writer, converter) = Index::open(alloc, config)?;
        let filters = Filters::new(alloc, config)?;
        Ok(Indexed {
            index,
            writer,
            converter,
            filters,
            spare: Spare::new(),
            form,
        })
    }

    /// This index, whose output is written in this form.
    pub fn telling(self, form: Form) -> Indexed
        ensures holds { (σ : Setting) (docs : List Doc) → Holds self σ docs → Holds result σ docs }
        ensures form { result.form ≡ form }
    {
        let Indexed {
            index,
            writer,
            converter,
            filters,
            spare,
            form: _,
        } = self;
        Indexed {
            index,
            writer,
            converter,
            filters,
            spare,
            form,
        }
    }

    /// Adds a document after the others, and converts the segment that it closed. False exactly
    /// where there is no room for it. Takes no memory.
    pub fn add<G: Gate>(&mut self, document: &Document, gate: &G) -> bool
        requires { (σ : Setting) × (docs : List Doc) × Holds self.old σ docs }
        ensures placed { (σ : Setting) (docs : List Doc) → Holds self.old σ docs → WithPlaced self.new σ docs document.now result }
        ensures form { self.new.form ≡ self.old.form }
    {
        match self.writer.add(&self.index, document, gate) {
            Ok(_) => {
                self.filters.note(self.writer.segments() - 1, document);
                catch_up(&self.index, &mut self.writer, &mut self.converter);
                true
            }
            Err(Full) => false,
        }
    }

    /// Searches all documents, and returns their number. Takes no memory.
    pub fn search<G: Gate>(&mut self, frame: &mut Frame, gate: &G) -> u64
        requires { (σ : Setting) × (docs : List Doc) × Holds self.old σ docs }
        ensures same { self.new ≡ self.old }
        ensures count { (σ : Setting) (docs : List Doc) → Holds self.old σ docs → result ≡ length docs }
        ensures ids { (σ : Setting) (docs : List Doc) → Holds self.old σ docs → ids_of frame.new ≡ answer (query_of frame.old) (k_of frame.old) docs }
        ensures few { length (ids_of frame.new) ≤ k_of frame.old }
    {
        search_all(&self.index, &self.filters, &mut self.writer, frame, gate)
    }

    /// Clears the tally, counts in it all matches among all documents, and returns the number of
    /// documents. The frame stays as it is. Takes no memory.
    pub fn count<G: Gate>(&mut self, frame: &mut Frame, tally: &mut Tally, gate: &G) -> u64
        requires { (σ : Setting) × (docs : List Doc) × Holds self.old σ docs }
        ensures same { self.new ≡ self.old }
        ensures count { (σ : Setting) (docs : List Doc) → Holds self.old σ docs → result ≡ length docs }
        ensures seen { SeenAs frame.old frame.new }
        ensures start { tally.new.start ≡ tally.old.start }
        ensures width { tally.new.width ≡ tally.old.width }
        ensures number { length tally.new.buckets ≡ length tally.old.buckets }
        ensures counts { (σ : Setting) (docs : List Doc) → Holds self.old σ docs → AreCounts (query_of frame.old) docs tally.new }
    {
        tally.clear();
        count_all(
            &self.index,
            &self.filters,
            &mut self.writer,
            frame,
            tally,
            gate,
        )
    }

    // Answers line `number` by the ids of the newest `k` matches.
    fn answer_newest<G: Gate>(
        &mut self,
        alloc: Global,
        number: u64,
        k: u32,
        query: Query,
        gate: &G,
        text: &mut Vec<u8>,
    ) -> Result<(), NoMemory>
        requires state { IsHolding IsIndexed self.old }
        requires asked { MayAsk (Newest k) query }
        ensures ok { OnOk result (PutsAnswer IsIndexed self.old self.new number (Newest k) (tree query) text.old.items text.new.items) }
        ensures err { OnErr result ((self.new ≡ self.old) × (text.new.items ≡ text.old.items)) }
    {
        let mut frame = self.spare.frame(alloc, query, k)?;
        text.reserve(line_room(k as usize))?;
        let seen = search_all(
            &self.index,
            &self.filters,
            &mut self.writer,
            &mut frame,
            gate,
        );
        put_answer(text, self.form, number, seen, frame.ids());
        self.spare.keep(frame);
        Ok(())
    }

    // Answers line `number` by the counts of this tally, which is empty.
    fn answer_counts<G: Gate>(
        &mut self,
        alloc: Global,
        number: u64,
        tally: Tally,
        query: Query,
        gate: &G,
        text: &mut Vec<u8>,
    ) -> Result<(), NoMemory>
        requires state { IsHolding IsIndexed self.old }
        requires formed { IsWellFormed (tree query) }
        requires few { length tally.buckets ≤ most_buckets }
        ensures ok { OnOk result (PutsAnswer IsIndexed self.old self.new number (Counts tally.start tally.width (length tally.buckets)) (tree query)
            text.old.items text.new.items) }
        ensures err { OnErr result ((self.new ≡ self.old) × (text.new.items ≡ text.old.items)) }
    {
        let mut tally = tally;
        let mut frame = self.spare.frame(alloc, query, 1)?;
        text.reserve(line_room(1 + tally.buckets().len()))?;
        let seen = self.count(&mut frame, &mut tally, gate);
        put_count(
            text,
            self.form,
            number,
            seen,
            tally.total(),
            tally.buckets(),
        );
        self.spare.keep(frame);
        Ok(())
    }

    /// The number of documents.
    pub fn accepted(&self) -> u64
        ensures { (σ : Setting) (docs : List Doc) → Holds self.now σ docs → result ≡ length docs }
    {
        self.writer.accepted()
    }

    /// Converts all segments but the last one, and returns what is printed of them.
    pub fn tail(&mut self) -> Tail
        requires { (σ : Setting) × (docs : List Doc) × Holds self.old σ docs }
        ensures { (σ : Setting) (docs : List Doc) → Holds self.old σ docs → result ≡ index_tail σ self.old.form docs }
    {
        let counts = close(&self.index, &mut self.writer, &mut self.converter);
        tell_segments(self.form, counts)
    }

    /// How the output is written.
    pub fn form(&self) -> Form
        ensures { result ≡ self.now.form }
    {
        self.form
    }
}

impl Store for Indexed {
    ghost use Rattle.run_store.specs.Rules.{is_bad};
    ghost use Rattle.run_index.specs.Indexed.{IsIndexed as IsIndexedBy};

    ghost Watches = { Unit {0} };

    ghost other = { is_bad };

    ghost holds = { IsIndexedBy };

    fn place<G: Gate>(&mut self, document: &Document, gate: &G) -> Option<Refusal> {
        if self.add(document, gate) {
            None
        } else {
            Some(Refusal::Full)
        }
    }

    fn told(&self, alloc: Global, _document: &Document) -> Result<Vec<u32>, NoMemory> {
        Ok(Vec::new(alloc))
    }

    fn take_other(
        &mut self,
        _alloc: Global,
        _fields: Dialect<'_>,
        _bytes: &[u8],
    ) -> Result<Option<Refusal>, NoMemory> {
        Ok(Some(Refusal::BadLine))
    }

    fn answer<G: Gate>(
        &mut self,
        alloc: Global,
        number: u64,
        ask: Ask,
        query: Query,
        gate: &G,
        text: &mut Vec<u8>,
    ) -> Result<(), NoMemory> {
        match ask {
            Ask::Newest(k) => self.answer_newest(alloc, number, k, query, gate, text),
            Ask::Counts {
                start,
                width,
                number: buckets,
            } => {
                let tally = Tally::with_buckets(alloc, start, width, buckets as usize)?;
                self.answer_counts(alloc, number, tally, query, gate, text)
            }
        }
    }

    fn documents(&self) -> u64 {
        self.writer.accepted()
    }

    fn form(&self) -> Form {
        self.form
    }

    fn close(&mut self, _alloc: Global) -> Result<Tail, NoMemory> {
        let counts = close(&self.index, &mut self.writer, &mut self.converter);
        Ok(tell_segments(self.form, counts))
    }
}
