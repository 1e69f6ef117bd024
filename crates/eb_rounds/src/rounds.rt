//! Rounds of lines: documents are added while queries are answered.
//!
//! A round is query lines and then document lines. None of its queries comes after one of its
//! documents, so each query needs to see only documents of earlier rounds, and all queries of the
//! round can be answered while its documents are added. A query may see some of these documents too
//! (`Sees` of `run_index` says which prefixes). Two rounds are held at most: one that is full, and
//! one that is open.
//!
//! A round takes the memory of its whole text before its first add: room for each line, and for
//! each id that a query may find. So where memory runs out, nothing of the round is done.
//!
//! A second thread costs some 26 microseconds. It is started only where a round has both documents
//! to add and queries to answer once its lines are read; it is started for however few, so that a
//! tiny round of a test shows that both go on at once. The new thread answers. The calling thread
//! adds, since its caches hold the index. Document lines are read in pieces of at least 128 lines,
//! one thread a piece: by `rayon`'s own least piece of 1,024, a round of fewer than 2,048 lines was
//! read on one thread.
ghost use Rattle.std.specs.Prelude.{◌≡◌, ◌+◌, ◌<◌, ◌≤◌, ◌^◌, ◌++◌, true, ℕ, List, []};
ghost use Rattle.std.specs.Prelude.{length, vec_len, vec_capacity, IfOk, OnErr, OnOk, IsTrue, ◌↔◌};
ghost use Rattle.std.specs.List.{AllZip};
ghost use mathlib.Core.List.{IsPrefix};
ghost use Rattle.eb_fields.specs.Dialect.{dialect_of};
ghost use Rattle.run_index.specs.Conversions.{AreConverted};
ghost use Rattle.eb_rounds.specs.Inputs.{ReadsLine, document_line, query_line, refused_line};
ghost use Rattle.eb_rounds.specs.Passed.{input_of, input_kind};
ghost use Rattle.eb_rounds.specs.Takes.{takes_kind};
ghost use Rattle.eb_rounds.specs.Shown.{WorkedOffBoth};
ghost use Rattle.eb_rounds.specs.Standing.{Standing, documents_held, queries_held, no_counts, with_held, with_round};
ghost use Rattle.eb_rounds.specs.Works.{entries_of, need_of_tasks, HasRoomForRefusals};

use crate::held::{FirstInput, FirstLine, Held, ThenInput, ThenLine};
use crate::input::{Input, Kind};
use crate::reading::read_rounds;
use crate::setup::Setup;
use crate::tasks::Tasks;
use crate::working::{needs_of, work_tasks};
use eb_base::{Gate, NoMemory};
use eb_engine::{Converter, Index, Reader, Writer};
use eb_fields::Dialect;
use eb_lines::{Form, Refusal};
use run_index::Counts;
use std::alloc::Global;
use std::marker::Model;
use std::mem;
use std::thread::Threads;

/// The lines that are held, of a round that is open and of one before it that isn't, and the counts
/// of what was processed. In a round no query line is after a document line, and at most 4,096
/// document lines, 512 query lines and 4,096 refused lines are held of it (this project's profile,
/// docs/FORMATS.md).
#[derive(Drop)]
pub struct Rounds {
    alloc: Global,
    // the round before, and the one that is open
    ahead: Held,
    held: Held,
    greatest: u64,
    counts: Counts,
}

impl Model for Rounds {
    ghost use Rattle.std.specs.Prelude.{◌+◌};
    ghost use Rattle.eb_rounds.specs.Standing.{Standing};
    ghost use Rattle.eb_rounds.specs.Works.{lines_of_round};

    ghost Value = { Standing };

    ghost view = { λ r. record {
      ahead = lines_of_round r.ahead;
      held = lines_of_round r.held;
      counts = record { documents = r.counts.documents; queries = r.counts.queries; refused = r.counts.refused };
      greatest = r.greatest;
    } };

    ghost use Rattle.eb_rounds.specs.Kept.{AreKept};

    ghost invariant = { λ r. AreKept r.ahead r.held r.greatest (r.counts.documents + (r.counts.queries + r.counts.refused)) };
}

impl Rounds {
    /// No line is held, nothing is counted, and no number was put. Takes no memory.
    pub fn new(alloc: Global) -> Rounds
        ensures { result ≡ record { ahead = []; held = []; counts = no_counts; greatest = 0 } }
    {
        Rounds {
            alloc,
            ahead: Held::new(alloc),
            held: Held::new(alloc),
            greatest: 0,
            counts: Counts {
                documents: 0,
                queries: 0,
                refused: 0,
            },
        }
    }

    /// What was processed so far. Takes no memory.
    pub fn counts(&self) -> Counts
        ensures { (result.documents ≡ self.now.counts.documents) × (result.queries ≡ self.now.counts.queries) × (result.refused ≡ self.now.counts.refused) }
    {
        self.counts
    }

    /// Whether a line of this kind may be held of the open round: a document line where fewer than
    /// 4,096 are, a query line where fewer than 512 and no document line are, a refused line where
    /// fewer than 4,096 are. Takes no memory.
    pub fn takes(&self, kind: Kind) -> bool
        ensures { result ≡ takes_kind self.now.held kind }
    {
        match kind {
            Kind::DocumentLine => self.held.documents < 4096,
            Kind::QueryLine => self.held.queries < 512 && self.held.documents == 0,
            Kind::RefusedLine => self.held.refused < 4096,
        }
    }

    /// Whether a query line is held. Takes no memory.
    pub fn has_query(&self) -> bool
        ensures { IsTrue result ↔ (0 < queries_held self.now.ahead + queries_held self.now.held) }
    {
        self.ahead.queries > 0 || self.held.queries > 0
    }

    /// Whether lines of a round before the open one are held. Takes no memory.
    pub fn has_round_ahead(&self) -> bool
        ensures { IsTrue result ↔ (0 < length self.now.ahead) }
    {
        self.ahead.first.len() + self.ahead.last.len() > 0
    }

    /// Opens a round after the held lines. Both are read together, and processed one after the
    /// other. Takes no memory.
    pub fn open_round(&mut self)
        requires { self.old.ahead ≡ [] }
        ensures { self.new ≡ with_round self.old }
    {
        mem::swap(&mut self.ahead, &mut self.held);
    }

    // Whether a document line is held.
    fn has_document(&self) -> bool
        ensures { IsTrue result ↔ (0 < documents_held self.now.held) }
    {
        self.held.documents > 0
    }

    /// Holds a line of the input, whose number is above those that were put before. Where memory
    /// runs out, no further line is held.
    pub fn put(&mut self, number: u64, line: Input<'_>) -> Result<(), NoMemory>
        requires takes { takes_kind self.old.held (input_kind line) ≡ true }
        requires number { self.old.greatest < number }
        ensures ok { OnOk result (self.new ≡ with_held self.old number (input_of line.entry)) }
        ensures err { OnErr result (self.new ≡ self.old) }
    {
        match line {
            Input::DocumentLine(bytes) => self.put_document(number, bytes),
            Input::QueryLine(text) => self.put_query(number, text),
            Input::RefusedLine(refusal) => self.put_refused(number, refusal),
        }
    }

    // Holds a document line.
    fn put_document(&mut self, number: u64, line: &[u8]) -> Result<(), NoMemory>
        requires takes { takes_kind self.old.held Kind.DocumentLine ≡ true }
        requires number { self.old.greatest < number }
        ensures ok { OnOk result (self.new ≡ with_held self.old number (document_line line.now)) }
        ensures err { OnErr result (self.new ≡ self.old) }
    {
        let line = Vec::from_slice(self.alloc, line)?;
        self.held.last.push(ThenLine {
            number,
            input: ThenInput::Document(line),
        })?;
        self.held.documents += 1;
        self.greatest = number;
        Ok(())
    }

    // Holds a query line.
    fn put_query(&mut self, number: u64, line: &str) -> Result<(), NoMemory>
        requires takes { takes_kind self.old.held Kind.QueryLine ≡ true }
        requires number { self.old.greatest < number }
        ensures ok { OnOk result (self.new ≡ with_held self.old number (query_line line.now)) }
        ensures err { OnErr result (self.new ≡ self.old) }
    {
        let line = String::from_str(self.alloc, line)?;
        self.held.first.push(FirstLine {
            number,
            input: FirstInput::Query(line),
        })?;
        self.held.queries += 1;
        self.greatest = number;
        Ok(())
    }

    // Holds a refused line before all document lines.
    fn put_first(&mut self, number: u64, refusal: Refusal) -> Result<(), NoMemory>
        requires takes { takes_kind self.old.held Kind.RefusedLine ≡ true }
        requires documents { documents_held self.old.held ≡ 0 }
        requires number { self.old.greatest < number }
        ensures ok { OnOk result (self.new ≡ with_held self.old number (refused_line refusal)) }
        ensures err { OnErr result (self.new ≡ self.old) }
    {
        self.held.first.push(FirstLine {
            number,
            input: FirstInput::Refused(refusal),
        })?;
        self.held.refused += 1;
        self.greatest = number;
        Ok(())
    }

    // Holds a refused line after a document line.
    fn put_last(&mut self, number: u64, refusal: Refusal) -> Result<(), NoMemory>
        requires takes { takes_kind self.old.held Kind.RefusedLine ≡ true }
        requires documents { 0 < documents_held self.old.held }
        requires number { self.old.greatest < number }
        ensures ok { OnOk result (self.new ≡ with_held self.old number (refused_line refusal)) }
        ensures err { OnErr result (self.new ≡ self.old) }
    {
        self.held.last.push(ThenLine {
            number,
            input: ThenInput::Refused(refusal),
        })?;
        self.held.refused += 1;
        self.greatest = number;
        Ok(())
    }

    // Holds a refused line.
    fn put_refused(&mut self, number: u64, refusal: Refusal) -> Result<(), NoMemory>
        requires takes { takes_kind self.old.held Kind.RefusedLine ≡ true }
        requires number { self.old.greatest < number }
        ensures ok { OnOk result (self.new ≡ with_held self.old number (refused_line refusal)) }
        ensures err { OnErr result (self.new ≡ self.old) }
    {
        if self.has_document() {
            self.put_last(number, refusal)
        } else {
            self.put_first(number, refusal)
        }
    }

    // Reads the held lines by this dialect, and takes all memory that processing them needs.
    fn prepare<R: Threads + Sync>(
        &self,
        rt: &R,
        alloc: Global,
        dialect: Dialect<'_>,
        text: &mut Vec<u8>,
    ) -> Result<(Tasks, Tasks), NoMemory>
        ensures few { (length self.now.ahead ≤ 2 ^ 14) × (length self.now.held ≤ 2 ^ 14) }
        ensures ahead { IfOk result (λ r. AllZip (ReadsLine (dialect_of dialect.entry)) self.now.ahead (entries_of r.0)) }
        ensures held { IfOk result (λ r. AllZip (ReadsLine (dialect_of dialect.entry)) self.now.held (entries_of r.1)) }
        ensures text { text.new.items ≡ text.old.items }
        ensures room { IfOk result (λ r. vec_len text.new + (need_of_tasks r.0 + need_of_tasks r.1) ≤ vec_capacity text.new) }
        ensures refusals { IfOk result (λ r. HasRoomForRefusals r.0 × HasRoomForRefusals r.1) }
    {
        let (ahead, held) = read_rounds(rt, alloc, dialect, &self.ahead, &self.held)?;
        text.reserve(needs_of(&ahead) + needs_of(&held))?;
        Ok((ahead, held))
    }

    // Counts what was processed, and no longer holds a line.
    fn close(&mut self, counts: Counts)
        requires { counts.documents + (counts.queries + counts.refused) ≤ length self.old.ahead + length self.old.held }
        ensures { self.new ≡ record {
          ahead = [];
          held = [];
          counts = record {
            documents = self.old.counts.documents + counts.documents;
            queries = self.old.counts.queries + counts.queries;
            refused = self.old.counts.refused + counts.refused;
          };
          greatest = self.old.greatest;
        } }
    {
        self.ahead.clear();
        self.held.clear();
        self.counts.documents += counts.documents;
        self.counts.queries += counts.queries;
        self.counts.refused += counts.refused;
    }

    /// Processes the held lines. Several threads read them by this dialect where there are many.
    /// Then, round after round, documents are added, while one reader answers the queries in order,
    /// and while the converter converts each segment that was closed before. The result is what
    /// they print, line for line. Afterwards no line is held, and reader and converter know the
    /// writer's history. Where memory runs out, which shows before the first document is added,
    /// nothing is done. The tokens must have been made with this index.
    pub fn step<R: Threads + Sync, G: Gate + Sync>(
        &mut self,
        rt: &R,
        alloc: Global,
        index: &Index,
        writer: &mut Writer,
        reader: &mut Reader,
        converter: &mut Converter,
        gate: &G,
        dialect: Dialect<'_>,
        form: Form,
    ) -> Result<Vec<u8>, NoMemory>
        requires writer { writer.old.index ≡ index.now }
        requires reader { reader.old.index ≡ index.now }
        requires converter { converter.old.index ≡ index.now }
        ensures writer { writer.new.index ≡ writer.old.index }
        ensures reader { reader.new.index ≡ reader.old.index }
        ensures converter { converter.new.index ≡ converter.old.index }
        ensures ok { IfOk result
            (λ text. WorkedOffBoth (dialect_of dialect.entry) form index.now.setting self.old.ahead self.old.held writer.old.docs writer.new.docs
            self.old.counts self.new.counts text.items) }
        ensures held { OnOk result ((self.new.ahead ≡ []) × (self.new.held ≡ []) × (self.new.greatest ≡ self.old.greatest)) }
        ensures told { OnOk result (IsPrefix writer.new.docs converter.new.docs × IsPrefix writer.new.docs reader.new.docs) }
        ensures converted { OnOk result (AreConverted index.now.setting writer.old.docs converter.new.converted) }
        ensures grown { converter.old.converted ≤ converter.new.converted }
        ensures err { OnErr result ((self.new ≡ self.old) × (writer.new ≡ writer.old) × (reader.new ≡ reader.old) × (converter.new ≡ converter.old)) }
    {
        let mut text = Vec::new(alloc);
        let setup = Setup {
            index,
            gate,
            dialect,
            form,
        };
        self.step_behind(rt, alloc, &setup, writer, converter, &mut text)?;
        reader.meet(index, writer.reader(index));
        Ok(text)
    }

    /// As `step`, with what the lines print after the text, and over a reader of its own, which the
    /// writer then meets. Where memory runs out, the text is as before, too.
    pub fn step_behind<R: Threads + Sync, G: Gate + Sync>(
        &mut self,
        rt: &R,
        alloc: Global,
        setup: &Setup<'_, G>,
        writer: &mut Writer,
        converter: &mut Converter,
        text: &mut Vec<u8>,
    ) -> Result<(), NoMemory>
        requires writer { writer.old.index ≡ setup.now.index.now }
        requires converter { converter.old.index ≡ setup.now.index.now }
        ensures writer { writer.new.index ≡ writer.old.index }
        ensures converter { converter.new.index ≡ converter.old.index }
        ensures ok { OnOk result ((printed : List ℕ)
            × WorkedOffBoth (dialect_of setup.now.dialect) setup.now.form setup.now.index.now.setting self.old.ahead self.old.held
            writer.old.docs writer.new.docs self.old.counts self.new.counts printed
            × (text.new.items ≡ text.old.items ++ printed)) }
        ensures held { OnOk result ((self.new.ahead ≡ []) × (self.new.held ≡ []) × (self.new.greatest ≡ self.old.greatest)) }
        ensures told { OnOk result (IsPrefix writer.new.docs converter.new.docs) }
        ensures converted { OnOk result (AreConverted setup.now.index.now.setting writer.old.docs converter.new.converted) }
        ensures grown { converter.old.converted ≤ converter.new.converted }
        ensures err { OnErr result ((self.new ≡ self.old) × (writer.new ≡ writer.old) × (converter.new ≡ converter.old) × (text.new.items ≡ text.old.items)) }
    {
        let (mut ahead, mut held) = self.prepare(rt, alloc, setup.dialect, text)?;
        let first = work_tasks(rt, setup, writer, converter, &mut ahead, text);
        let then = work_tasks(rt, setup, writer, converter, &mut held, text);
        converter.meet(setup.index, writer.reader(setup.index));
        self.close(Counts {
            documents: first.documents + then.documents,
            queries: first.queries + then.queries,
            refused: first.refused + then.refused,
        });
        Ok(())
    }
}
