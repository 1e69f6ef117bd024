ghost use Rattle.std.specs.Prelude.{◌≡◌, ◌+◌, ◌≤◌, ◌^◌, ℕ, List, true, [], OnErr, OnOk};
ghost use Rattle.run_store.specs.Answering.{HasAnswered, TakesLine};
ghost use Rattle.run_store.specs.Questions.{MayAsk};
ghost use Rattle.run_store.specs.Rules.{Rules};
ghost use Rattle.eb_base.specs.Query.{tree};
ghost use Rattle.eb_fields.specs.Dialect.{dialect_of};
ghost use Rattle.eb_query.specs.Head.{begins_query};
ghost use Rattle.eb_io.specs.Lines.{line};
ghost use Rattle.eb_lines.specs.Kinds.{document_line, query_line, bad_line, kind_of};
ghost use Rattle.eb_lines.specs.Programs.{IsRunning, WorksOn, WorksOnGiven};
ghost use Rattle.eb_lines.specs.Reading.{Reading, blank, document as reads_document, query as reads_query, refused as is_refused};
ghost use Rattle.eb_lines.specs.Reads.{ReadsByKind};

use crate::question::read_question;
use crate::store::Store;
use eb_base::{Document, Gate, NoMemory, Query};
use eb_doc::DocumentReader;
use eb_fields::Dialect;
use eb_lines::{
    LineKind, LineProgram, Refusal, line_kind, line_room, put_refusal, put_summary, put_watches,
    read_document_line_by,
};
use eb_query::Ask;
use std::alloc::Global;

/// A run over a store between two lines.
#[derive(Drop)]
pub struct Answering<'a, G, S> {
    alloc: Global,
    /// The gate, which observes what the store does.
    pub gate: &'a G,
    /// What the lines fill and query.
    pub store: S,
    /// How lines are read.
    pub dialect: Dialect<'a>,
    // What reads document lines, with its room.
    documents: DocumentReader,
    /// The number of the last line.
    pub number: u64,
    // How many queries were answered.
    queries: u64,
    /// How many lines were refused.
    pub refused: u64,
}

impl<'a, G: Gate, S: Store> Answering<'a, G, S> {
    /// A run before the first line, over this store, which reads lines by this dialect. The gate
    /// observes what the store does.
    pub fn new(alloc: Global, gate: &'a G, store: S, dialect: Dialect<'a>) -> Answering<'a, G, S>
        ensures { (rules : Rules S.Watches) → dialect_of dialect.entry ≡ rules.dialect → S.holds store rules rules.start rules.watches
            → HasAnswered S.other S.holds result rules [] [] }
    {
        Answering {
            alloc,
            gate,
            store,
            dialect,
            documents: DocumentReader::new(alloc),
            number: 0,
            queries: 0,
            refused: 0,
        }
    }

    /// Skips a blank line.
    pub fn pass(&mut self)
        requires state { IsRunning (HasAnswered S.other S.holds) self.old }
        requires number { self.old.number ≤ 2 ^ 40 }
        ensures { (text : List ℕ) → TakesLine S.other S.holds self.old self.new text text blank }
    {
        self.number += 1;
    }

    /// Refuses a line for this cause, and puts the refusal after the text. Where memory runs out,
    /// nothing is done.
    pub fn refuse(&mut self, refusal: Refusal, text: &mut Vec<u8>) -> Result<(), NoMemory>
        requires state { IsRunning (HasAnswered S.other S.holds) self.old }
        requires number { self.old.number ≤ 2 ^ 40 }
        ensures ok { OnOk result (TakesLine S.other S.holds self.old self.new text.old.items text.new.items (is_refused refusal)) }
        ensures err { OnErr result ((self.new ≡ self.old) × (text.new.items ≡ text.old.items)) }
    {
        let form = self.store.form();
        text.reserve(line_room(0))?;
        self.number += 1;
        self.refused += 1;
        put_refusal(text, form, self.number, refusal);
        Ok(())
    }

    /// Adds a document, and puts the watches that it matches after the text; where it isn't
    /// accepted, its line is refused. Where memory runs out, nothing is done.
    pub fn add(&mut self, document: &Document, text: &mut Vec<u8>) -> Result<(), NoMemory>
        requires state { IsRunning (HasAnswered S.other S.holds) self.old }
        requires number { self.old.number ≤ 2 ^ 40 }
        ensures ok { OnOk result (TakesLine S.other S.holds self.old self.new text.old.items text.new.items (reads_document document.now)) }
        ensures err { OnErr result ((self.new ≡ self.old) × (text.new.items ≡ text.old.items)) }
    {
        let form = self.store.form();
        let told = self.store.told(self.alloc, document)?;
        text.reserve(line_room(told.len()))?;
        self.number += 1;
        if let Some(refusal) = self.store.place(document, self.gate) {
            self.refused += 1;
            put_refusal(text, form, self.number, refusal);
            return Ok(());
        }
        put_watches(text, form, self.number, told.as_slice());
        Ok(())
    }

    /// Puts what is asked of a query after the text: the ids of its newest matches, or its counts.
    /// Where memory runs out, nothing is done.
    pub fn answer(&mut self, ask: Ask, query: Query, text: &mut Vec<u8>) -> Result<(), NoMemory>
        requires state { IsRunning (HasAnswered S.other S.holds) self.old }
        requires number { self.old.number ≤ 2 ^ 40 }
        requires asked { MayAsk ask query }
        ensures ok { OnOk result (TakesLine S.other S.holds self.old self.new text.old.items text.new.items (reads_query ask (tree query))) }
        ensures err { OnErr result ((self.new ≡ self.old) × (text.new.items ≡ text.old.items)) }
    {
        let number = self.number + 1;
        self.store
            .answer(self.alloc, number, ask, query, self.gate, text)?;
        self.number = number;
        self.queries += 1;
        Ok(())
    }

    /// Takes a line that is neither blank, nor a document or query line, nor long. Where memory
    /// runs out, it isn't taken.
    pub fn take_other(&mut self, bytes: &[u8], text: &mut Vec<u8>) -> Result<(), NoMemory>
        requires state { IsRunning (HasAnswered S.other S.holds) self.old }
        requires number { self.old.number ≤ 2 ^ 40 }
        requires kind { kind_of (dialect_of self.old.dialect) bytes.now ≡ bad_line }
        ensures ok { OnOk result (WorksOnGiven (HasAnswered S.other S.holds) self.old self.new text.old.items text.new.items (line bytes.now)) }
        ensures err { OnErr result (WorksOn (HasAnswered S.other S.holds) self.old self.new text.old.items text.new.items) }
    {
        let form = self.store.form();
        text.reserve(line_room(0))?;
        match self.store.take_other(self.alloc, self.dialect, bytes)? {
            None => self.number += 1,
            Some(refusal) => {
                self.number += 1;
                self.refused += 1;
                put_refusal(text, form, self.number, refusal);
            }
        }
        Ok(())
    }

    // Takes a document line.
    fn take_document(&mut self, bytes: &[u8], text: &mut Vec<u8>) -> Result<(), NoMemory>
        requires state { IsRunning (HasAnswered S.other S.holds) self.old }
        requires number { self.old.number ≤ 2 ^ 40 }
        requires document { kind_of (dialect_of self.old.dialect) bytes.now ≡ document_line }
        ensures ok { OnOk result (WorksOnGiven (HasAnswered S.other S.holds) self.old self.new text.old.items text.new.items (line bytes.now)) }
        ensures err { OnErr result (WorksOn (HasAnswered S.other S.holds) self.old self.new text.old.items text.new.items) }
    {
        match read_document_line_by(&mut self.documents, self.dialect, bytes)? {
            Ok(document) => self.add(&document, text),
            Err(refusal) => self.refuse(refusal, text),
        }
    }

    // Takes a query line.
    fn take_query(&mut self, query: &str, text: &mut Vec<u8>) -> Result<(), NoMemory>
        requires state { IsRunning (HasAnswered S.other S.holds) self.old }
        requires number { self.old.number ≤ 2 ^ 40 }
        requires mark { begins_query (dialect_of self.old.dialect) query.now ≡ true }
        ensures ok { OnOk result ((r : Reading) × ReadsByKind (dialect_of self.old.dialect) query_line query.now r
            × TakesLine S.other S.holds self.old self.new text.old.items text.new.items r) }
        ensures err { OnErr result ((self.new ≡ self.old) × (text.new.items ≡ text.old.items)) }
    {
        match read_question(self.alloc, &self.dialect, query)? {
            Ok((ask, query)) => self.answer(ask, query, text),
            Err(refusal) => self.refuse(refusal, text),
        }
    }
}

impl<G: Gate, S: Store> LineProgram for Answering<'_, G, S> {
    ghost use Rattle.run_store.specs.Answering.{HasAnswered, answered_first, body_first};
    ghost use Rattle.run_store.specs.Rules.{Rules, HasRefusal, HasNoRefusal};
    ghost use Rattle.run_store.specs.Sees.{exactly};
    ghost use Rattle.run_store.specs.Text.{IsBody, IsText};

    ghost Asked = { Rules S.Watches };

    ghost has_run = { HasAnswered S.other S.holds };

    ghost prints = { IsBody S.other exactly };

    ghost ends_with = { IsText S.other exactly };

    ghost refuses = { HasRefusal S.other };

    ghost accepts = { HasNoRefusal S.other };

    // no line waits
    ghost settled = { λ _. Unit {0} };

    ghost number = { λ p. p.number };

    fn take_line(&mut self, bytes: &[u8], text: &mut Vec<u8>) -> Result<(), NoMemory> {
        match line_kind(self.dialect, bytes) {
            LineKind::Blank => {
                self.pass();
                Ok(())
            }
            LineKind::Document => self.take_document(bytes, text),
            LineKind::Query(query) => self.take_query(query, text),
            LineKind::Bad => self.take_other(bytes, text),
        }
    }

    fn take_long(&mut self, text: &mut Vec<u8>) -> Result<(), NoMemory> {
        self.refuse(Refusal::LongLine, text)
    }

    fn settle(&mut self, _text: &mut Vec<u8>) -> Result<(), NoMemory> {
        Ok(())
    }

    fn settle_all(&mut self, _text: &mut Vec<u8>) -> Result<(), NoMemory> {
        Ok(())
    }

    fn finish(&mut self, text: &mut Vec<u8>) -> Result<u64, NoMemory> {
        let form = self.store.form();
        let documents = self.store.documents();
        let tail = self.store.close(self.alloc)?;
        put_summary(text, form, documents, self.queries, self.refused, tail)?;
        Ok(self.refused)
    }

    ghost printed_first = { answered_first S.other S.holds };

    ghost whole = { body_first S.other exactly };

    ghost counts = { λ p a given so_far h. h.number };
}
