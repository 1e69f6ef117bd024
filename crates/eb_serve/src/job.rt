//! Jobs and answers.
ghost use Rattle.std.specs.Prelude.{◌≡◌, ◌≤◌, ◌<◌, length};
ghost use mathlib.Core.List.{IsPrefix};
ghost use Rattle.eb_base.specs.Match.{answer};
ghost use Rattle.eb_cursor.specs.Frames.{query_of, k_of, ids_of};

use eb_base::Gate;
use eb_cursor::Frame;
use eb_engine::{Index, Reader};

/// A query that waits for its answer: a number, a frame with the query, and a reader of its own. It
/// keeps how many documents its reader had seen when it was made.
#[derive(Drop)]
pub struct Job {
    number: u64,
    told: u64,
    frame: Frame,
    reader: Reader,
    ghost knows: { told ≡ length reader.docs },
}

/// A query with its answer: the frame holds the ids of the newest `k` matches among the documents
/// that the reader knows, and these are at least as many as the job's reader had seen.
#[derive(Drop)]
pub struct Answer {
    number: u64,
    told: u64,
    frame: Frame,
    reader: Reader,
    ghost knows: { told ≤ length reader.docs },
    ghost found: { ids_of frame ≡ answer (query_of frame) (k_of frame) reader.docs },
}

impl Job {
    ghost use Rattle.eb_serve.specs.Jobs.{pair, pair_of, asking, asker};

    /// A job of this number. It keeps how many documents the reader has seen, as its `told`. Takes
    /// no memory.
    pub fn new(number: u64, frame: Frame, reader: Reader) -> Job
        ensures pair { pair_of result ≡ pair number (length reader.docs) frame }
        ensures frame { asking result ≡ frame }
        ensures reader { asker result ≡ reader }
    {
        let told = reader.seen();
        Job {
            number,
            told,
            frame,
            reader,
        }
    }
}

impl eb_desk::Job for Job {
    type Answer = Answer;

    type Place = Index;

    type With = Index;

    ghost use Rattle.eb_serve.specs.Jobs.{pair_of, answer_pair, key_of, index_of};
    ghost use Rattle.eb_serve.specs.Rule.{IsMadeJob, IsMadeAnswer};

    ghost pair = { pair_of };

    ghost answer_pair = { answer_pair };

    ghost made = { IsMadeJob };

    ghost answer_made = { IsMadeAnswer };

    ghost serves = { λ with home. index_of home ≡ with };

    ghost key = { key_of };

    fn answered<G: Gate>(self, with: &Index, gate: &G) -> Answer {
        let Job {
            number,
            told,
            mut frame,
            mut reader,
        } = self;
        reader.search_unmetered(with, &mut frame, gate);
        Answer {
            number,
            told,
            frame,
            reader,
        }
    }
}

impl Answer {
    ghost use Rattle.eb_serve.specs.Jobs.{answer_pair, answering, answerer};

    /// The job's number.
    pub fn number(&self) -> u64
        ensures { result ≡ (answer_pair self.now).number }
    {
        self.number
    }

    /// How many documents the job's reader had seen when the job was made.
    pub fn told(&self) -> u64
        ensures { result ≡ (answer_pair self.now).told }
    {
        self.told
    }

    /// The frame, with the query and the ids.
    pub fn frame(&self) -> &Frame
        ensures { result.now ≡ answering self.now }
    {
        &self.frame
    }

    /// The frame and the reader: its ids are those of the newest `k` matches among the documents
    /// that the reader knows, which are at least as many as the job's reader had seen.
    pub fn finish(self) -> (Frame, Reader)
        ensures frame { result.0 ≡ answering self }
        ensures reader { result.1 ≡ answerer self }
        ensures ids { ids_of result.0 ≡ answer (query_of result.0) (k_of result.0) result.1.docs }
        ensures told { (answer_pair self).told ≤ length result.1.docs }
    {
        let Answer {
            number: _,
            told: _,
            frame,
            reader,
        } = self;
        (frame, reader)
    }
}
