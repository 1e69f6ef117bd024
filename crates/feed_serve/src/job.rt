//! Jobs and answers.
ghost use Rattle.std.specs.Prelude.{◌≡◌, ◌≤◌, ◌<◌, List, IfOk};
ghost use mathlib.Core.List.{IsPrefix};
ghost use Rattle.eb_base.specs.Document.{Doc};
ghost use Rattle.eb_base.specs.Match.{answer};
ghost use Rattle.eb_cursor.specs.Frames.{query_of, k_of, ids_of};
ghost use Rattle.feed_shared.specs.Turns.{history_of, stretch_of, counted, HasTaken};

use eb_base::{Gate, NoMemory};
use eb_cursor::Frame;
use feed_shared::{FeedReader, FeedWriter};

/// A query that waits for its answer: a number, a frame with the query, and a reader of its own. It
/// keeps how many documents its reader knows of.
#[derive(Drop)]
pub struct Job {
    number: u64,
    told: u64,
    frame: Frame,
    reader: FeedReader,
    ghost knows: { told ≡ counted (history_of reader.log reader.docs) },
}

/// A query with its answer: the frame holds the ids of the newest `k` matches among the documents
/// of the generations that the reader holds, up to the end of a prefix of the feed's history. It
/// keeps the length of that prefix, which has at least the documents that the job's reader knew of.
#[derive(Drop)]
pub struct Answer {
    number: u64,
    told: u64,
    seen: u64,
    frame: Frame,
    reader: FeedReader,
    ghost knows: { told ≤ seen },
    ghost saw: { seen ≡ counted (history_of reader.log reader.docs) },
    ghost found: { ids_of frame ≡ answer (query_of frame) (k_of frame) (stretch_of reader.held reader.log reader.docs) },
}

impl Job {
    ghost use Rattle.feed_serve.specs.Feeds.{FeedName, feed_name, IsReaderOf};
    ghost use Rattle.feed_serve.specs.Jobs.{known_to, pair, pair_of, asking, asker, answer_pair, answering, answerer};

    /// A job of this number, with a reader that the writer makes now: it knows of all documents,
    /// and holds as many generations as the feed keeps, or all. It keeps how many documents it
    /// knows of, as its `told`. `NoMemory` where memory runs out for the reader: the writer is as
    /// before.
    pub fn new(number: u64, frame: Frame, feed: &mut FeedWriter) -> Result<Job, NoMemory>
        ensures feed { feed.new ≡ feed.old }
        ensures pair { IfOk result (λ j. pair_of j ≡ pair number (known_to feed.old.feed) frame) }
        ensures frame { IfOk result (λ j. asking j ≡ frame) }
        ensures reader { IfOk result (λ j. asker j ≡ feed.old.feed) }
        ensures made { (history : List Doc) → HasTaken feed.old history → IfOk result (λ j. IsReaderOf (feed_name feed.old) (asker j)) }
    {
        let told = feed.accepted();
        let reader = feed.reader()?;
        Ok(Job {
            number,
            told,
            frame,
            reader,
        })
    }
}

impl eb_desk::Job for Job {
    type Answer = Answer;

    type Place = FeedWriter;

    type With = ();

    ghost use Rattle.std.specs.Prelude.{⊤};
    ghost use Rattle.feed_serve.specs.Feeds.{feed_name, key_of, feed_of, IsReaderOf};
    ghost use Rattle.feed_serve.specs.Jobs.{pair_of, asker, answer_pair, answerer};

    ghost pair = { pair_of };

    ghost answer_pair = { answer_pair };

    ghost made = { λ home j. IsReaderOf (feed_of home) (asker j) };

    ghost answer_made = { λ home a. IsReaderOf (feed_of home) (answerer a) };

    ghost serves = { λ with home. ⊤ };

    ghost key = { λ w. key_of (feed_name w) };

    #[tactic(auto, using(crate::proofs::Fronts::reads_on, crate::proofs::Fronts::counted_more))]
    fn answered<G: Gate>(self, _with: &(), gate: &G) -> Answer {
        let Job {
            number,
            told,
            mut frame,
            mut reader,
        } = self;
        let seen = reader.search_unmetered(&mut frame, gate);
        Answer {
            number,
            told,
            seen,
            frame,
            reader,
        }
    }
}

impl Answer {
    ghost use Rattle.feed_serve.specs.Jobs.{known_to, answer_pair, answering, answerer};

    /// The job's number.
    pub fn number(&self) -> u64
        ensures { result ≡ (answer_pair self.now).number }
    {
        self.number
    }

    /// How many documents the job's reader knew of when the job was made.
    pub fn told(&self) -> u64
        ensures { result ≡ (answer_pair self.now).told }
    {
        self.told
    }

    /// The length of the prefix of the history to whose end the search went.
    pub fn seen(&self) -> u64
        ensures seen { result ≡ known_to (answerer self.now) }
        ensures told { (answer_pair self.now).told ≤ result }
    {
        self.seen
    }

    /// The frame, with the query and the ids.
    pub fn frame(&self) -> &Frame
        ensures { result.now ≡ answering self.now }
    {
        &self.frame
    }

    /// The frame and the reader: its ids are those of the newest `k` matches among the documents of
    /// the generations that the reader holds, as far as it knows them. It knows of at least as many
    /// documents as the job's reader did.
    pub fn finish(self) -> (Frame, FeedReader)
        ensures frame { result.0 ≡ answering self }
        ensures reader { result.1 ≡ answerer self }
        ensures ids { ids_of result.0 ≡ answer (query_of result.0) (k_of result.0) (stretch_of result.1.held result.1.log result.1.docs) }
        ensures told { (answer_pair self).told ≤ known_to result.1 }
    {
        let Answer {
            number: _,
            told: _,
            seen: _,
            frame,
            reader,
        } = self;
        (frame, reader)
    }
}
