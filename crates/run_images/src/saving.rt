//! What `save` does with each line, and at the end.
ghost use Rattle.std.specs.Prelude.{◌≡◌, ◌+◌, ◌≤◌, ◌^◌, ◌++◌, ℕ, List, [], length, vec_len, vec_capacity, IfOk, OnErr, OnOk};
ghost use Rattle.eb_fields.specs.Dialect.{dialect_of};
ghost use Rattle.eb_image.specs.Image.{head_of};
ghost use Rattle.eb_io.specs.Lines.{line};
ghost use Rattle.eb_lines.specs.Kinds.{document_line, kind_of};
ghost use Rattle.eb_lines.specs.Programs.{IsRunning, WorksOnGiven};
ghost use Rattle.eb_lines.specs.Reading.{blank, document as reads_document, refused as is_refused};
ghost use Rattle.run_images.specs.Saved.{asked};
ghost use Rattle.run_images.specs.Saving.{HasSaved, TakesLine};

use eb_base::{Config, Document, Gate, NoMemory};
use eb_engine::{Index, Writer};
use eb_fields::Dialect;
use eb_image::write_part;
use eb_lines::{LineKind, LineProgram, Refusal, line_kind, read_document_line};
use eb_writer::Full;
use std::alloc::Global;

// An index of the documents that the lines added so far, with its writer, and how many lines were
// given and refused.
#[derive(Drop)]
pub(crate) struct Saving<'a, G> {
    alloc: Global,
    // The gate, which observes what the writer does.
    gate: &'a G,
    // How lines are read.
    dialect: Dialect<'a>,
    index: Index,
    writer: Writer,
    number: u64,
    refused: u64,
}

// Puts the bytes after the text, which has room for them. Takes no memory.
fn put(text: &mut Vec<u8>, bytes: &[u8])
    requires { vec_len text.old + length bytes.now ≤ vec_capacity text.old }
    ensures { text.new.items ≡ text.old.items ++ bytes.now }
{
    text.extend_from_slice(bytes).unwrap();
}

impl<'a, G: Gate> Saving<'a, G> {
    // Before the first line. Takes all the memory of the index.
    pub(crate) fn new(
        alloc: Global,
        gate: &'a G,
        dialect: Dialect<'a>,
        config: Config,
    ) -> Result<Saving<'a, G>, NoMemory>
        ensures { IfOk result (λ saving. HasSaved saving (asked (dialect_of dialect.entry) config) [] (head_of config)) }
    {
        let (index, writer, _converter) = Index::open(alloc, config)?;
        Ok(Saving {
            alloc,
            gate,
            dialect,
            index,
            writer,
            number: 0,
            refused: 0,
        })
    }

    // Skips a blank line.
    fn pass(&mut self)
        requires state { IsRunning HasSaved self.old }
        requires number { self.old.number ≤ 2 ^ 40 }
        ensures { (text : List ℕ) → TakesLine self.old self.new text text blank }
    {
        self.number += 1;
    }

    // Refuses a line.
    fn refuse(&mut self, refusal: Refusal)
        requires state { IsRunning HasSaved self.old }
        requires number { self.old.number ≤ 2 ^ 40 }
        ensures { (text : List ℕ) → TakesLine self.old self.new text text (is_refused refusal) }
    {
        self.number += 1;
        self.refused += 1;
    }

    // Adds a document, with its part after the text; where there is no room for it, the line is
    // refused. Where memory runs out, nothing is done.
    fn save(&mut self, document: &Document, text: &mut Vec<u8>) -> Result<(), NoMemory>
        requires state { IsRunning HasSaved self.old }
        requires number { self.old.number ≤ 2 ^ 40 }
        ensures ok { OnOk result (TakesLine self.old self.new text.old.items text.new.items (reads_document document.now)) }
        ensures err { OnErr result ((self.new ≡ self.old) × (text.new.items ≡ text.old.items)) }
    {
        let part = write_part(self.alloc, document)?;
        text.reserve(part.len())?;
        match self.writer.add(&self.index, document, self.gate) {
            Ok(_) => {
                self.number += 1;
                put(text, &part);
            }
            Err(Full) => {
                self.number += 1;
                self.refused += 1;
            }
        }
        Ok(())
    }

    // Takes a document line.
    fn take_document(&mut self, bytes: &[u8], text: &mut Vec<u8>) -> Result<(), NoMemory>
        requires state { IsRunning HasSaved self.old }
        requires number { self.old.number ≤ 2 ^ 40 }
        requires document { kind_of (dialect_of self.old.dialect) bytes.now ≡ document_line }
        ensures ok { OnOk result (WorksOnGiven HasSaved self.old self.new text.old.items text.new.items (line bytes.now)) }
        ensures err { OnErr result ((self.new ≡ self.old) × (text.new.items ≡ text.old.items)) }
    {
        match read_document_line(self.alloc, self.dialect, bytes)? {
            Ok(document) => self.save(&document, text),
            Err(refusal) => {
                self.refuse(refusal);
                Ok(())
            }
        }
    }
}

impl<G: Gate> LineProgram for Saving<'_, G> {
    ghost use Rattle.std.specs.Prelude.{◌≡◌, []};
    ghost use Rattle.run_images.specs.Saved.{Asked as ToSave, AreParts, IsSaved, HasUnsaved, HasNoUnsaved};
    ghost use Rattle.run_images.specs.Saving.{HasSaved};
    ghost use Rattle.run_images.specs.SavingLaws.{saved_first, parts_first};

    ghost Asked = { ToSave };

    ghost has_run = { HasSaved };

    ghost prints = { AreParts };

    ghost ends_with = { IsSaved };

    ghost refuses = { HasUnsaved };

    ghost accepts = { HasNoUnsaved };

    // no line waits
    ghost settled = { λ _. Unit {0} };

    ghost number = { λ p. p.number };

    fn take_line(&mut self, bytes: &[u8], text: &mut Vec<u8>) -> Result<(), NoMemory> {
        match line_kind(self.dialect, bytes) {
            LineKind::Blank => self.pass(),
            LineKind::Document => return self.take_document(bytes, text),
            LineKind::Query(_) => self.refuse(Refusal::BadLine),
            LineKind::Bad => self.refuse(Refusal::BadLine),
        }
        Ok(())
    }

    fn take_long(&mut self, _text: &mut Vec<u8>) -> Result<(), NoMemory> {
        self.refuse(Refusal::LongLine);
        Ok(())
    }

    fn settle(&mut self, _text: &mut Vec<u8>) -> Result<(), NoMemory> {
        Ok(())
    }

    fn settle_all(&mut self, _text: &mut Vec<u8>) -> Result<(), NoMemory> {
        Ok(())
    }

    fn finish(&mut self, text: &mut Vec<u8>) -> Result<u64, NoMemory> {
        text.push(0)?;
        Ok(self.refused)
    }

    ghost printed_first = { saved_first };

    ghost whole = { parts_first };

    ghost counts = { λ p a given so_far h. h.number };
}
