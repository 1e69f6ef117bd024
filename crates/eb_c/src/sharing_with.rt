//! The calls on the handles of a shared index where a caller says how lines and texts are read.
ghost use Rattle.std.specs.Prelude.{◌≡◌, ◌≢◌, ◌⊎◌, Err, Result};
ghost use mathlib.Core.List.{IsPrefix};
ghost use Rattle.eb_base.specs.Document.{Doc};
ghost use Rattle.eb_engine.specs.Tokens.{HistoryToken};
ghost use Rattle.eb_c.specs.Adding.{document_in_as, document_as, number_after, docs_after};
ghost use Rattle.eb_c.specs.Asking.{nothing_told, LineAsksAs, TextAsksAs, Answers};
ghost use Rattle.eb_c.specs.Counting.{nothing_counted, Counts};
ghost use Rattle.eb_c.specs.Sharing.{kind_of, LeadsToWriter, LeadsToReader};

use crate::counting::{Axis, Count, prepare};
use crate::counts::count_by_reader;
use crate::dialects::Reading;
use crate::handle::Handle;
use crate::index::Answer;
use crate::reading::{document_as, document_in_line_as, question_in_line_as, question_in_text_as};
use crate::refusal::Refusal;
use crate::sharing::{add_by, ask_by};
use std::alloc::Global;

/// Adds the document of an id and a text as `eb_writer_add_text` does, where texts are cut so:
/// `BadReading` (17) where that isn't in the grammar of the options.
#[unsafe(no_mangle)]
pub extern "C" fn eb_writer_add_text_with(
    alloc: Global,
    writer: &mut Handle,
    how: &Reading<'_>,
    id: u64,
    text: &[u8],
) -> u32
    ensures added { (w : HistoryToken) → LeadsToWriter writer.old.seal.held w
        → (r : Result Doc Refusal) × ((r ≡ Err Refusal.NoMemory) ⊎ (r ≡ document_as how.now id text.now))
        × (result ≡ number_after w.index.setting w.docs r)
        × LeadsToWriter writer.new.seal.held (record { index = w.index; docs = docs_after w.index.setting w.docs r; converted = w.converted }) }
    ensures bad { kind_of writer.old.seal.held ≢ 1 → (result ≡ 16) × (writer.new.seal.held ≡ writer.old.seal.held) }
{
    add_by(alloc, writer, document_as(alloc, how, id, text))
}

/// Adds the document of a document line as `eb_writer_add_line` does, where lines are read so.
#[unsafe(no_mangle)]
pub extern "C" fn eb_writer_add_line_with(
    alloc: Global,
    writer: &mut Handle,
    how: &Reading<'_>,
    line: &[u8],
) -> u32
    ensures added { (w : HistoryToken) → LeadsToWriter writer.old.seal.held w
        → (r : Result Doc Refusal) × ((r ≡ Err Refusal.NoMemory) ⊎ (r ≡ document_in_as how.now line.now))
        × (result ≡ number_after w.index.setting w.docs r)
        × LeadsToWriter writer.new.seal.held (record { index = w.index; docs = docs_after w.index.setting w.docs r; converted = w.converted }) }
    ensures bad { kind_of writer.old.seal.held ≢ 1 → (result ≡ 16) × (writer.new.seal.held ≡ writer.old.seal.held) }
{
    add_by(alloc, writer, document_in_line_as(alloc, how, line))
}

/// Answers a query text as `eb_reader_ask_text` does, where texts are read so.
#[unsafe(no_mangle)]
pub extern "C" fn eb_reader_ask_text_with(
    alloc: Global,
    reader: &mut Handle,
    how: &Reading<'_>,
    k: u32,
    text: &[u8],
    ids: &mut [u64],
    answer: &mut Answer,
) -> u32
    ensures told { (r : HistoryToken) → LeadsToReader reader.old.seal.held r
        → (s : HistoryToken) × LeadsToReader reader.new.seal.held s × (s.index ≡ r.index) × IsPrefix r.docs s.docs
        × Answers (TextAsksAs how.now k text.now) s.docs result answer.new ids.old ids.new }
    ensures bad { kind_of reader.old.seal.held ≢ 2
        → (result ≡ 16) × (answer.new ≡ nothing_told 0) × (ids.new ≡ ids.old) × (reader.new.seal.held ≡ reader.old.seal.held) }
{
    let asked = question_in_text_as(alloc, how, k, text);
    ask_by(alloc, reader, asked, ids, answer)
}

/// Answers a query line as `eb_reader_ask_line` does, where lines are read so.
#[unsafe(no_mangle)]
pub extern "C" fn eb_reader_ask_line_with(
    alloc: Global,
    reader: &mut Handle,
    how: &Reading<'_>,
    line: &[u8],
    ids: &mut [u64],
    answer: &mut Answer,
) -> u32
    ensures told { (r : HistoryToken) → LeadsToReader reader.old.seal.held r
        → (s : HistoryToken) × LeadsToReader reader.new.seal.held s × (s.index ≡ r.index) × IsPrefix r.docs s.docs
        × Answers (LineAsksAs how.now line.now) s.docs result answer.new ids.old ids.new }
    ensures bad { kind_of reader.old.seal.held ≢ 2
        → (result ≡ 16) × (answer.new ≡ nothing_told 0) × (ids.new ≡ ids.old) × (reader.new.seal.held ≡ reader.old.seal.held) }
{
    let asked = question_in_line_as(alloc, how, line);
    ask_by(alloc, reader, asked, ids, answer)
}

/// Counts as `eb_reader_count_text` does, where texts are read so.
#[unsafe(no_mangle)]
pub extern "C" fn eb_reader_count_text_with(
    alloc: Global,
    reader: &mut Handle,
    how: &Reading<'_>,
    text: &[u8],
    start: u64,
    width: u64,
    buckets: &mut [u64],
    count: &mut Count,
) -> u32
    ensures told { (r : HistoryToken) → LeadsToReader reader.old.seal.held r
        → (s : HistoryToken) × LeadsToReader reader.new.seal.held s × (s.index ≡ r.index) × IsPrefix r.docs s.docs
        × Counts (TextAsksAs how.now 1 text.now) s.docs (record { start = start; width = width }) result count.new buckets.old buckets.new }
    ensures bad { kind_of reader.old.seal.held ≢ 2
        → (result ≡ 16) × (count.new ≡ nothing_counted 0) × (buckets.new ≡ buckets.old) × (reader.new.seal.held ≡ reader.old.seal.held) }
{
    let axis = Axis { start, width };
    let question = question_in_text_as(alloc, how, 1, text);
    let asked = prepare(alloc, question, axis, buckets.len());
    count_by_reader(alloc, reader, asked, axis, buckets, count)
}
