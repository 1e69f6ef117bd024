//! `bench`: processes a made input and prints its line of figures.
ghost use Rattle.std.specs.Prelude.{◌≡◌, ◌+◌, ◌*◌, ◌<◌, ◌≤◌, ◌++◌, ◌∷◌, ◌^◌, List, [], length, sum, IfOk, OnOk};
ghost use Rattle.eb_cursor.specs.Frames.{query_of, k_of};
ghost use Rattle.eb_gen.specs.Made.{made};
ghost use Rattle.eb_io.specs.Faults.{HasRisen};
ghost use Rattle.eb_io.specs.Lines.{Line, line, lines_of};
ghost use Rattle.eb_query.specs.declared.ask.Ask.TheVariants.{Newest};
ghost use Rattle.eb_lines.specs.Reading.{document as reads_document, query, refused};
ghost use Rattle.eb_run.specs.Bench.{Closes, HasCounted, Takes, lines_until, bench_line, PrintsFigures};

use crate::figures::put_figures;
use crate::last_line::print_last;
use eb_base::{Config, Document, Gate, NoMemory};
use eb_cursor::Frame;
use eb_fields::Dialect;
use eb_gen::{line_of, query_of};
use eb_io::Sink;
use eb_lines::{Form, Refusal, Status, Work, read_line};
use run_index::Indexed;
use std::alloc::Global;

// A run over a made input: its index, how many queries were answered and lines refused, and the
// number of ids in all answers and their sum.
#[derive(Drop)]
pub(crate) struct Bench {
    indexed: Indexed,
    queries: u64,
    refused: u64,
    ids: u64,
    sum: u128,
}

impl Bench {
    // Before the first line.
    fn new(alloc: Global) -> Result<Bench, NoMemory>
        ensures { IfOk result (λ bench. HasCounted bench []) }
    {
        let indexed = Indexed::new(
            alloc,
            Form {
                json: false,
                stats: false,
            },
            Config::usual(),
        )?;
        Ok(Bench {
            indexed,
            queries: 0,
            refused: 0,
            ids: 0,
            sum: 0,
        })
    }

    // Adds a document, or counts its line as refused.
    fn add<G: Gate>(&mut self, document: &Document, gate: &G)
        requires { (lines : List Line) × HasCounted self.old lines × (length lines < 2 ^ 17) }
        ensures { Takes self.old self.new (reads_document document.now) }
    {
        if self.indexed.add(document, gate) {
            return;
        }
        self.refused += 1;
    }

    // Answers a query, and counts the ids of its answer.
    fn answer<G: Gate>(&mut self, frame: Frame, gate: &G)
        requires { (lines : List Line) × HasCounted self.old lines × (length lines < 2 ^ 17) }
        ensures { Takes self.old self.new (query (Newest (k_of frame)) (query_of frame)) }
    {
        let mut frame = frame;
        self.indexed.search(&mut frame, gate);
        let ids = frame.ids();
        self.queries += 1;
        self.ids += ids.len() as u64;
        self.sum += sum_of(ids);
    }

    // Counts a refused line.
    fn refuse(&mut self, refusal: Refusal)
        requires { (lines : List Line) × HasCounted self.old lines × (length lines < 2 ^ 17) }
        ensures { Takes self.old self.new (refused refusal) }
    {
        self.refused += 1;
    }

    // Processes one line.
    fn work_line<G: Gate>(&mut self, alloc: Global, bytes: &[u8], gate: &G) -> Result<(), NoMemory>
        requires { (lines : List Line) × HasCounted self.old lines × (length lines < 2 ^ 17) }
        ensures { OnOk result ((lines : List Line) → HasCounted self.old lines → length lines < 2 ^ 17 → HasCounted self.new (lines ++ line bytes.now ∷ [])) }
    {
        match read_line(alloc, Dialect::plain(), bytes)? {
            Work::Nothing => Ok(()),
            Work::Add(document) => {
                self.add(&document, gate);
                Ok(())
            }
            Work::Answer(frame) => {
                self.answer(frame, gate);
                Ok(())
            }
            Work::Refuse(refusal) => {
                self.refuse(refusal);
                Ok(())
            }
        }
    }

    // Processes the lines of one document of a made input of `docs` documents.
    fn work_document<G: Gate>(
        &mut self,
        alloc: Global,
        start: u64,
        docs: u32,
        number: u32,
        gate: &G,
    ) -> Result<(), NoMemory>
        requires small { (number < docs) × (docs ≤ 40000) }
        requires before { HasCounted self.old (lines_until start docs number) }
        ensures { OnOk result (HasCounted self.new (lines_until start docs (number + 1))) }
    {
        let document = line_of(alloc, start, number)?;
        self.work_line(alloc, document.as_slice(), gate)?;
        if (number + 1) % 1000 != 0 && number + 1 != docs {
            return Ok(());
        }
        let query = query_of(alloc, start, number)?;
        self.work_line(alloc, query.as_slice(), gate)?;
        Ok(())
    }

    // Prints the line of figures.
    fn print<K: Sink>(&self, text: &mut String, out: &mut K) -> Status
        ensures printed { (lines : List Line) → HasCounted self.now lines → PrintsFigures result lines (K.taken out.old) (K.taken out.new) }
        ensures fault { result ≡ Status.WriteFault → HasRisen (K.faults out.old) (K.faults out.new) }
    {
        let documents = self.indexed.accepted();
        print_figures(
            documents,
            self.queries,
            self.ids,
            self.sum,
            self.refused,
            text,
            out,
        )
    }
}

// Prints the line of figures of these numbers.
fn print_figures<K: Sink>(
    documents: u64,
    queries: u64,
    ids: u64,
    sum: u128,
    refused: u64,
    text: &mut String,
    out: &mut K,
) -> Status
    ensures printed { Closes result refused (bench_line documents queries ids sum) (K.taken out.old) (K.taken out.new) }
    ensures fault { result ≡ Status.WriteFault → HasRisen (K.faults out.old) (K.faults out.new) }
{
    text.clear();
    if put_figures(text, documents, queries, ids, sum).is_err() {
        return Status::NoMemory;
    }
    print_last(refused, text, out)
}

// The sum of the ids.
fn sum_of(ids: &[u64]) -> u128
    requires { length ids.now ≤ 2 ^ 17 }
    ensures sum { result ≡ sum ids.now }
    ensures small { result ≤ 2 ^ 64 * length ids.now }
{
    let mut total = 0u128;
    for id in ids {
        total += u128::from(*id);
    }
    total
}

// Processes the whole made input.
fn count_made<G: Gate>(alloc: Global, start: u64, docs: u32, gate: &G) -> Result<Bench, NoMemory>
    requires { docs ≤ 40000 }
    ensures { IfOk result (λ bench. HasCounted bench (lines_until start docs docs)) }
{
    let mut bench = Bench::new(alloc)?;
    for number in 0..docs {
        bench.work_document(alloc, start, docs, number, gate)?;
    }
    Ok(bench)
}

// Processes the made input of `docs` documents, and prints its line of figures.
pub(crate) fn run_bench<K: Sink, G: Gate>(
    alloc: Global,
    start: u64,
    docs: u32,
    out: &mut K,
    gate: &G,
) -> Status
    requires { docs ≤ 40000 }
    ensures printed { PrintsFigures result (lines_of (made start docs)) (K.taken out.old) (K.taken out.new) }
    ensures fault { result ≡ Status.WriteFault → HasRisen (K.faults out.old) (K.faults out.new) }
{
    let Ok(bench) = count_made(alloc, start, docs, gate) else {
        return Status::NoMemory;
    };
    let mut text = String::new(alloc);
    bench.print(&mut text, out)
}
