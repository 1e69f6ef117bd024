//! The feed that lines fill and query.
ghost use Rattle.eb_fields.specs.Dialect.{Dialect as Spoken};
ghost use Rattle.std.specs.Prelude.{◌≡◌, ◌<◌, ◌≤◌, ℕ, List, [], length, IfOk, OnErr, OnOk};
ghost use Rattle.run_store.specs.Rules.{Rules};
ghost use Rattle.run_store.specs.Questions.{MayAsk};
ghost use Rattle.run_store.specs.Stores.{IsHolding, PutsAnswer};
ghost use Rattle.eb_base.specs.Document.{Doc};
ghost use Rattle.eb_base.specs.Match.{answer};
ghost use Rattle.eb_base.specs.Query.{tree, IsWellFormed};
ghost use Rattle.eb_count.specs.Tallies.{HasCounted};
ghost use Rattle.eb_query.specs.Head.{most_buckets};
ghost use Rattle.eb_query.specs.declared.ask.Ask.TheVariants.{Newest, Counts};
ghost use Rattle.eb_base.specs.Setting.{Setting};
ghost use Rattle.eb_cursor.specs.Frames.{query_of, k_of, ids_of};
ghost use Rattle.eb_feed.specs.Generations.{kept};
ghost use Rattle.eb_feed.specs.Held.{IsFedWith};
ghost use Rattle.eb_run.specs.Fed.{IsFed};
ghost use Rattle.eb_run.specs.FeedOutput.{feed_rules, feed_tail};

use eb_base::{Config, Document, Gate, NoMemory, Query};
use eb_count::Tally;
use eb_cursor::Frame;
use eb_feed::Feed;
use eb_fields::Dialect;
use eb_lines::{Form, Refusal, Tail, line_room, put_answer, put_count};
use eb_query::Ask;
use run_store::Store;
use std::alloc::Global;

// A feed that the lines of an input fill and query, and how the output is written.
#[derive(Drop)]
pub(crate) struct Fed {
    feed: Feed,
    form: Form,
}

impl Fed {
    // An empty feed. Takes all its memory.
    pub(crate) fn new(alloc: Global, keep: u32, form: Form, config: Config) -> Result<Fed, NoMemory>
        requires { (2 ≤ keep) × (keep ≤ 64) }
        ensures { IfOk result (λ fed. (how : Spoken) → IsFed fed (feed_rules how config keep form) [] tt) }
    {
        let feed = Feed::open(alloc, config, keep)?;
        Ok(Fed { feed, form })
    }

    // Answers line `number` by the ids of the newest `k` matches.
    fn answer_newest<G: Gate>(
        &mut self,
        alloc: Global,
        number: u64,
        k: u32,
        query: Query,
        gate: &G,
        text: &mut Vec<u8>,
    ) -> Result<(), NoMemory>
        requires state { IsHolding IsFed self.old }
        requires asked { MayAsk (Newest k) query }
        ensures ok { OnOk result (PutsAnswer IsFed self.old self.new number (Newest k) (tree query) text.old.items text.new.items) }
        ensures err { OnErr result ((self.new ≡ self.old) × (text.new.items ≡ text.old.items)) }
    {
        let mut frame = Frame::new(alloc, query, k)?;
        text.reserve(line_room(k as usize))?;
        let seen = self.feed.search_unmetered(&mut frame, gate);
        put_answer(text, self.form, number, seen, frame.ids());
        Ok(())
    }

    // Answers line `number` by the counts of this tally, which is empty.
    fn answer_counts<G: Gate>(
        &mut self,
        alloc: Global,
        number: u64,
        tally: Tally,
        query: Query,
        gate: &G,
        text: &mut Vec<u8>,
    ) -> Result<(), NoMemory>
        requires state { IsHolding IsFed self.old }
        requires formed { IsWellFormed (tree query) }
        requires few { length tally.buckets ≤ most_buckets }
        ensures ok { OnOk result (PutsAnswer IsFed self.old self.new number (Counts tally.start tally.width (length tally.buckets)) (tree query)
            text.old.items text.new.items) }
        ensures err { OnErr result ((self.new ≡ self.old) × (text.new.items ≡ text.old.items)) }
    {
        let mut tally = tally;
        tally.clear();
        let mut frame = Frame::new(alloc, query, 1)?;
        text.reserve(line_room(1 + tally.buckets().len()))?;
        let seen = self.feed.count_unmetered(&mut frame, &mut tally, gate);
        put_count(
            text,
            self.form,
            number,
            seen,
            tally.total(),
            tally.buckets(),
        );
        Ok(())
    }

    // What is printed beside the counts at the end.
    fn tail(&self) -> Tail
        requires { (σ : Setting) × (keep : ℕ) × (history : List Doc) × IsFedWith self.now.feed σ keep history }
        ensures { (σ : Setting) (keep : ℕ) (history : List Doc) → IsFedWith self.now.feed σ keep history → result ≡ feed_tail σ keep self.now.form history }
    {
        let kept = self.feed.kept();
        if !self.form.stats {
            return Tail::Kept(kept);
        }
        Tail::Generations {
            kept,
            segments: self.feed.segments(),
            converted: 0,
            begun: self.feed.begun(),
        }
    }
}

impl Store for Fed {
    ghost use Rattle.run_store.specs.Rules.{is_bad};
    ghost use Rattle.eb_run.specs.Fed.{IsFed as IsFedBy};

    ghost Watches = { Unit {0} };

    ghost other = { is_bad };

    ghost holds = { IsFedBy };

    fn place<G: Gate>(&mut self, document: &Document, _gate: &G) -> Option<Refusal> {
        self.feed.add(document);
        None
    }

    fn told(&self, alloc: Global, _document: &Document) -> Result<Vec<u32>, NoMemory> {
        Ok(Vec::new(alloc))
    }

    fn take_other(
        &mut self,
        _alloc: Global,
        _dialect: Dialect<'_>,
        _bytes: &[u8],
    ) -> Result<Option<Refusal>, NoMemory> {
        Ok(Some(Refusal::BadLine))
    }

    fn answer<G: Gate>(
        &mut self,
        alloc: Global,
        number: u64,
        ask: Ask,
        query: Query,
        gate: &G,
        text: &mut Vec<u8>,
    ) -> Result<(), NoMemory> {
        match ask {
            Ask::Newest(k) => self.answer_newest(alloc, number, k, query, gate, text),
            Ask::Counts {
                start,
                width,
                number: buckets,
            } => {
                let tally = Tally::with_buckets(alloc, start, width, buckets as usize)?;
                self.answer_counts(alloc, number, tally, query, gate, text)
            }
        }
    }

    fn documents(&self) -> u64 {
        self.feed.accepted()
    }

    fn form(&self) -> Form {
        self.form
    }

    fn close(&mut self, _alloc: Global) -> Result<Tail, NoMemory> {
        Ok(self.tail())
    }
}
