//! The program over the lines of an input that wait a little.

use crate::ahead::Ahead;
use crate::lines::HeldLine;
use eb_base::{Gate, NoMemory};
use eb_lines::LineProgram;
use run_store::Store;
use std::alloc::Global;

// A run, with its allocator, and with what processes the lines that wait: a closure, since what is
// sent to other threads needs the bounds of a function.
#[derive(Drop)]
pub(crate) struct AheadProgram<'a, G, S, W> {
    pub(crate) alloc: Global,
    pub(crate) worker: W,
    pub(crate) ahead: Ahead<'a, G, S>,
}

impl<
    'a,
    G: Gate,
    S: Store,
    W: Fn(&mut Ahead<'a, G, S>, &mut Vec<u8>) -> Result<(), NoMemory>,
> LineProgram for AheadProgram<'a, G, S, W> {
    ghost use Rattle.run_ahead.specs.Ahead.{HasHeldBy, HoldsNone, held_first};
    ghost use Rattle.run_store.specs.Answering.{body_first};
    ghost use Rattle.run_store.specs.Rules.{Rules, HasRefusal, HasNoRefusal};
    ghost use Rattle.run_store.specs.Sees.{exactly};
    ghost use Rattle.run_store.specs.Text.{IsBody, IsText};

    ghost Asked = { Rules S.Watches };

    ghost has_run = { λ p. HasHeldBy S.other S.holds W.pre W.post p.worker p.ahead };

    ghost prints = { IsBody S.other exactly };

    ghost ends_with = { IsText S.other exactly };

    ghost refuses = { HasRefusal S.other };

    ghost accepts = { HasNoRefusal S.other };

    ghost settled = { λ p. HoldsNone p.ahead };

    ghost number = { λ p. p.ahead.number };

    fn take_line(&mut self, bytes: &[u8], text: &mut Vec<u8>) -> Result<(), NoMemory> {
        let line = HeldLine::Line(bytes);
        let asks = bytes.first() == Some(&b'?') || bytes.first() == Some(&b'#');
        self.ahead.hold(line, asks, &self.worker, text)
    }

    fn take_long(&mut self, text: &mut Vec<u8>) -> Result<(), NoMemory> {
        self.ahead.hold(HeldLine::Long, false, &self.worker, text)
    }

    // A query that waits is answered.
    fn settle(&mut self, text: &mut Vec<u8>) -> Result<(), NoMemory> {
        self.ahead.answer_held(&self.worker, text)
    }

    fn settle_all(&mut self, text: &mut Vec<u8>) -> Result<(), NoMemory> {
        self.ahead.work_off(&self.worker, text)
    }

    fn finish(&mut self, text: &mut Vec<u8>) -> Result<u64, NoMemory> {
        self.ahead.answering.finish(text)
    }

    ghost printed_first = { λ p a given so_far h. held_first S.other S.holds p.ahead a given so_far h.1 };

    ghost whole = { body_first S.other exactly };

    ghost counts = { λ p a given so_far h. h.1.number };
}
