//! The program over the lines of an input: what `run` with `--overlap` does with each line, and at
//! the end.

use crate::running::Running;
use eb_base::NoMemory;
use eb_lines::LineProgram;
use run_index::put_end;
use std::alloc::Global;

// A run, with its allocator, and with what processes the lines that it holds: a closure, since what
// is sent to other threads needs the bounds of a function.
#[derive(Drop)]
pub(crate) struct RunProgram<'a, W: Fn(&mut Running<'a>, &mut Vec<u8>) -> Result<(), NoMemory>> {
    pub(crate) alloc: Global,
    pub(crate) worker: W,
    pub(crate) running: Running<'a>,
}

impl<'a, W: Fn(&mut Running<'a>, &mut Vec<u8>) -> Result<(), NoMemory>> LineProgram
    for RunProgram<'a, W> {
    ghost use Rattle.run_store.specs.Answering.{body_first};
    ghost use Rattle.run_store.specs.Rules.{is_bad, HasRefusal, HasNoRefusal};
    ghost use Rattle.run_store.specs.Sees.{between};
    ghost use Rattle.run_store.specs.Text.{IsBody, IsText};
    ghost use Rattle.eb_run.specs.Running.{Asked as AskedRun, rules_of, HasRunBy, HoldsNone, run_first};

    ghost Asked = { AskedRun };

    ghost has_run = { λ p. HasRunBy W.pre W.post p.worker p.running };

    ghost prints = { λ a. IsBody is_bad between (rules_of a) };

    ghost ends_with = { λ a. IsText is_bad between (rules_of a) };

    ghost refuses = { λ a. HasRefusal is_bad (rules_of a) };

    ghost accepts = { λ a. HasNoRefusal is_bad (rules_of a) };

    ghost settled = { λ p. HoldsNone p.running };

    ghost number = { λ p. p.running.number };

    fn take_line(&mut self, bytes: &[u8], text: &mut Vec<u8>) -> Result<(), NoMemory> {
        self.running.take_line(bytes, &self.worker, text)
    }

    fn take_long(&mut self, text: &mut Vec<u8>) -> Result<(), NoMemory> {
        self.running.take_long(&self.worker, text)
    }

    // A query that is held is answered.
    fn settle(&mut self, text: &mut Vec<u8>) -> Result<(), NoMemory> {
        self.running.answer_held(&self.worker, text)
    }

    fn settle_all(&mut self, text: &mut Vec<u8>) -> Result<(), NoMemory> {
        (self.worker)(&mut self.running, text)
    }

    fn finish(&mut self, text: &mut Vec<u8>) -> Result<u64, NoMemory> {
        let form = self.running.form;
        let counts = self.running.counts();
        let segments = self.running.finish();
        put_end(text, form, counts, segments)?;
        Ok(counts.refused)
    }

    ghost printed_first = { λ p a given so_far h. run_first p.running a given so_far h.1 };

    ghost whole = { λ a. body_first is_bad between (rules_of a) };

    ghost counts = { λ p a given so_far h. h.1.number };
}
