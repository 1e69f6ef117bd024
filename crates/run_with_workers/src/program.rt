//! The program over the lines of an input: what a run with workers does with each line, and at the
//! end.

use crate::office::Office;
use crate::serving::Serving;
use eb_base::{Gate, NoMemory};
use eb_lines::LineProgram;
use std::alloc::Global;
use std::sync::Wait;

// A run, with the runtime, the allocator and the gate that it works by.
#[derive(Drop)]
pub(crate) struct WorkersProgram<'a, R: Wait, G: Gate, O: Office> {
    pub(crate) rt: &'a R,
    pub(crate) alloc: Global,
    pub(crate) gate: &'a G,
    pub(crate) serving: Serving<'a, O>,
}

impl<R: Wait, G: Gate, O: Office> LineProgram for WorkersProgram<'_, R, G, O> {
    ghost use Rattle.std.specs.Prelude.{◌≡◌, []};
    ghost use Rattle.run_store.specs.Answering.{body_first};
    ghost use Rattle.run_store.specs.Rules.{Rules, is_bad, HasRefusal, HasNoRefusal};
    ghost use Rattle.run_store.specs.Sees.{at_least};
    ghost use Rattle.run_store.specs.Text.{IsBody, IsText};
    ghost use Rattle.run_with_workers.specs.Serving.{HasServed};
    ghost use Rattle.run_with_workers.specs.ServingLaws.{served_first};

    ghost Asked = { Rules (Unit {0}) };

    ghost has_run = { λ p. HasServed O.holds O.asked p.serving };

    ghost prints = { IsBody is_bad at_least };

    ghost ends_with = { IsText is_bad at_least };

    ghost refuses = { HasRefusal is_bad };

    ghost accepts = { HasNoRefusal is_bad };

    ghost settled = { λ p. p.serving.waiting.items ≡ [] };

    ghost number = { λ p. p.serving.number };

    fn take_line(&mut self, bytes: &[u8], text: &mut Vec<u8>) -> Result<(), NoMemory> {
        self.serving
            .take_line(self.rt, self.alloc, bytes, self.gate, text)
    }

    fn take_long(&mut self, text: &mut Vec<u8>) -> Result<(), NoMemory> {
        self.serving.take_long(self.rt, self.gate, text)
    }

    fn settle(&mut self, text: &mut Vec<u8>) -> Result<(), NoMemory> {
        self.serving.settle_all(self.rt, self.gate, text)
    }

    fn settle_all(&mut self, text: &mut Vec<u8>) -> Result<(), NoMemory> {
        self.serving.settle_all(self.rt, self.gate, text)
    }

    fn finish(&mut self, text: &mut Vec<u8>) -> Result<u64, NoMemory> {
        self.serving.finish(text)
    }

    ghost printed_first = { λ p. served_first O.holds O.asked p.serving };

    ghost whole = { body_first is_bad at_least };

    ghost counts = { λ p rules given so_far h. h.number };
}
