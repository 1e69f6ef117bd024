//! The parts that lines fill and query.
ghost use Rattle.eb_fields.specs.Dialect.{Dialect as Spoken};
ghost use Rattle.std.specs.Prelude.{◌≡◌, ◌≤◌, ℕ, List, [], length, IfOk, OnErr, OnOk};
ghost use Rattle.run_ahead.specs.Placed.{IsHoldingFor, PlacesAll};
ghost use Rattle.run_store.specs.Questions.{MayAsk};
ghost use Rattle.run_store.specs.Stores.{IsHolding, PutsAnswer, Keeps};
ghost use Rattle.eb_base.specs.Query.{tree, IsWellFormed};
ghost use Rattle.eb_query.specs.Head.{most_buckets};
ghost use Rattle.eb_query.specs.declared.ask.Ask.TheVariants.{Newest, Counts};
ghost use Rattle.run_over_parts.specs.Parted.{IsParted};
ghost use Rattle.run_over_parts.specs.Texts.{parts_rules};

use crate::store::Store as Parts;
use eb_base::{Config, Document, Gate, NoMemory, Query};
use eb_blend::BlendFrame;
use eb_count::Tally;
use eb_cursor::Frame;
use eb_fields::Dialect;
use eb_lines::{Form, Refusal, Tail, line_room, put_answer, put_count};
use eb_query::Ask;
use run_index::tell_segments;
use run_store::Store;
use std::alloc::Global;
use std::thread::Threads;

// The blend of the parts, and how the output is written.
#[derive(Drop)]
pub(crate) struct Parted {
    parts: Parts,
    number: u32,
    form: Form,
}

impl Parted {
    // Empty parts, from 1 to 16. Takes all their memory.
    pub(crate) fn new(
        alloc: Global,
        number: u32,
        form: Form,
        config: Config,
    ) -> Result<Parted, NoMemory>
        requires { (1 ≤ number) × (number ≤ 16) }
        ensures { IfOk result (λ parted. (how : Spoken) → IsParted parted (parts_rules how number config form) [] tt) }
    {
        let parts = Parts::new(alloc, number, config)?;
        Ok(Parted {
            parts,
            number,
            form,
        })
    }

    // Adds the documents among some items, one after the other, all parts concurrently, and returns
    // why each document is refused, if it is. Where memory runs out, which shows before the first
    // is added, nothing is done.
    pub(crate) fn place_all<R: Threads + Sync, E: Sync, G: Gate + Sync>(
        &mut self,
        rt: &R,
        alloc: Global,
        items: &[Result<Document, E>],
        gate: &G,
    ) -> Result<Vec<Option<Refusal>>, NoMemory>
        requires { IsHoldingFor IsParted self.old (length items.now) }
        ensures ok { IfOk result (λ refusals. PlacesAll IsParted self.old self.new items.now refusals.items) }
        ensures err { OnErr result (Keeps IsParted self.old self.new) }
    {
        self.parts.add_all(rt, alloc, items, gate)
    }

    // Answers line `number` by the ids of the newest `k` matches.
    fn answer_newest<G: Gate>(
        &mut self,
        alloc: Global,
        number: u64,
        k: u32,
        query: Query,
        gate: &G,
        text: &mut Vec<u8>,
    ) -> Result<(), NoMemory>
        requires state { IsHolding IsParted self.old }
        requires asked { MayAsk (Newest k) query }
        ensures ok { OnOk result (PutsAnswer IsParted self.old self.new number (Newest k) (tree query) text.old.items text.new.items) }
        ensures err { OnErr result ((self.new ≡ self.old) × (text.new.items ≡ text.old.items)) }
    {
        let mut frame = BlendFrame::new(alloc, &query, k, self.number)?;
        text.reserve(line_room(k as usize))?;
        let seen = self.parts.search(&mut frame, gate);
        put_answer(text, self.form, number, seen, frame.ids());
        Ok(())
    }

    // Answers line `number` by the counts of this tally, which is empty.
    fn answer_counts<G: Gate>(
        &mut self,
        alloc: Global,
        number: u64,
        tally: Tally,
        query: Query,
        gate: &G,
        text: &mut Vec<u8>,
    ) -> Result<(), NoMemory>
        requires state { IsHolding IsParted self.old }
        requires formed { IsWellFormed (tree query) }
        requires few { length tally.buckets ≤ most_buckets }
        ensures ok { OnOk result (PutsAnswer IsParted self.old self.new number (Counts tally.start tally.width (length tally.buckets)) (tree query)
            text.old.items text.new.items) }
        ensures err { OnErr result ((self.new ≡ self.old) × (text.new.items ≡ text.old.items)) }
    {
        let mut tally = tally;
        tally.clear();
        let mut frame = Frame::new(alloc, query, 1)?;
        text.reserve(line_room(1 + tally.buckets().len()))?;
        let seen = self.parts.count(alloc, &mut frame, &mut tally, gate)?;
        put_count(
            text,
            self.form,
            number,
            seen,
            tally.total(),
            tally.buckets(),
        );
        Ok(())
    }
}

impl Store for Parted {
    ghost use Rattle.run_store.specs.Rules.{is_bad};
    ghost use Rattle.run_over_parts.specs.Parted.{IsParted as IsPartedBy};

    ghost Watches = { Unit {0} };

    ghost other = { is_bad };

    ghost holds = { IsPartedBy };

    fn place<G: Gate>(&mut self, document: &Document, gate: &G) -> Option<Refusal> {
        self.parts.add(document, gate)
    }

    fn told(&self, alloc: Global, _document: &Document) -> Result<Vec<u32>, NoMemory> {
        Ok(Vec::new(alloc))
    }

    fn take_other(
        &mut self,
        _alloc: Global,
        _dialect: Dialect<'_>,
        _bytes: &[u8],
    ) -> Result<Option<Refusal>, NoMemory> {
        Ok(Some(Refusal::BadLine))
    }

    fn answer<G: Gate>(
        &mut self,
        alloc: Global,
        number: u64,
        ask: Ask,
        query: Query,
        gate: &G,
        text: &mut Vec<u8>,
    ) -> Result<(), NoMemory> {
        match ask {
            Ask::Newest(k) => self.answer_newest(alloc, number, k, query, gate, text),
            Ask::Counts {
                start,
                width,
                number: buckets,
            } => {
                let tally = Tally::with_buckets(alloc, start, width, buckets as usize)?;
                self.answer_counts(alloc, number, tally, query, gate, text)
            }
        }
    }

    fn documents(&self) -> u64 {
        self.parts.documents()
    }

    fn form(&self) -> Form {
        self.form
    }

    fn close(&mut self, alloc: Global) -> Result<Tail, NoMemory> {
        let counts = self.parts.close(alloc)?;
        Ok(tell_segments(self.form, counts))
    }
}
