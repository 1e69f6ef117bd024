//! The index that threads share, for C: one writer, one converter, and any number of readers, each
//! behind a handle. A handle is a value that the caller keeps and only these calls write. It has
//! its own share of the index, so handles are closed in any order, and the last one gives the
//! memory back.
//!
//! A call tests what its handles lead to. The result is 16 where one is closed, of another kind,
//! or, where one is to be made, not closed. Calls on different handles may run at the same time, on
//! any threads.
ghost use Rattle.std.specs.Prelude.{◌≡◌, ◌≢◌, ◌⊎◌, Some, None, Err, Result, List, [], length, IfOk, IfSome};
ghost use mathlib.Core.List.{IsPrefix};
ghost use Rattle.eb_base.specs.Document.{Doc};
ghost use Rattle.eb_base.specs.Setting.{Setting, IsSetting};
ghost use Rattle.eb_engine.specs.Tokens.{HistoryToken, ConverterToken, Converts};
ghost use Rattle.eb_convert.specs.declared.conversion.Converted.{Converted};
ghost use Rattle.eb_table.specs.Known.{Words};
ghost use Rattle.eb_c.specs.Adding.{document_in, document_with, number_after, docs_after};
ghost use Rattle.eb_c.specs.Asking.{asked_of, nothing_told, LineAsks, TextAsks, Answers, Tells};
ghost use Rattle.eb_c.specs.Sharing.{kind_of, LeadsNowhere, LeadsToWriter, LeadsToReader, IsConverter, LeadsToConverter};

use crate::asking::{put_ids, refused};
use crate::handle::{BAD_HANDLE, Handle, crosses, handle_of};
use crate::held::{Held, HeldConverter, HeldReader, HeldWriter};
use crate::index::{Answer, setting};
use crate::reading::{
    Question, document_in_line, document_with, question_in_line, question_in_text,
};
use crate::refusal::Refusal;
use eb_base::{Config, Document, NoMemory};
use eb_engine::Index as Shared;
use std::alloc::Global;
use std::sync::Arc;

/// Opens an index of this setting without a document, with its writer and its converter, whose
/// handles are closed before: 0; else `BadSetting` (13), `NoMemory` (12), or 16 where one of the
/// handles isn't closed, and both are as before. Takes all memory that the index will ever take.
#[unsafe(no_mangle)]
pub extern "C" fn eb_open(
    alloc: Global,
    writer: &mut Handle,
    converter: &mut Handle,
    segments: u32,
    docs: u32,
    terms: u32,
) -> u32
    ensures opened { let σ : Setting = record { segments = segments; docs = docs; terms = terms } in
        result ≡ 0 → (i : Words) × (i.setting ≡ σ) × LeadsToWriter writer.new.seal.held (record { index = i; docs = []; converted = 0 })
        × LeadsToConverter converter.new.seal.held (record { index = i; docs = []; placing = None; converted = 0 }) }
    ensures setting { let σ : Setting = record { segments = segments; docs = docs; terms = terms } in
        LeadsNowhere writer.old.seal.held → LeadsNowhere converter.old.seal.held → (IsSetting σ → ⊥) → result ≡ 13 }
    ensures unchanged { (result ≡ 0 → ⊥) → (writer.new ≡ writer.old) × (converter.new ≡ converter.old) }
    ensures bad { (kind_of writer.old.seal.held ≢ 0) ⊎ (kind_of converter.old.seal.held ≢ 0) → result ≡ 16 }
    ensures memory { let σ : Setting = record { segments = segments; docs = docs; terms = terms } in
        kind_of writer.old.seal.held ≡ 0 → kind_of converter.old.seal.held ≡ 0 → IsSetting σ → (result ≡ 0) ⊎ (result ≡ 12) }
{
    crosses(writer);
    if writer.kind != 0 || converter.kind != 0 {
        return BAD_HANDLE;
    }
    let Some(config) = setting(segments, docs, terms) else {
        return Refusal::BadSetting.number();
    };
    match open(alloc, config) {
        Ok((writes, converts)) => {
            *writer = writes;
            *converter = converts;
            0
        }
        Err(NoMemory) => Refusal::NoMemory.number(),
    }
}

// An empty index, as the handles of its writer and its converter.
fn open(alloc: Global, config: Config) -> Result<(Handle, Handle), NoMemory>
    ensures { IfOk result (λ h. (i : Words) × (i.setting ≡ config) × LeadsToWriter h.0.seal.held (record { index = i; docs = []; converted = 0 })
        × LeadsToConverter h.1.seal.held (record { index = i; docs = []; placing = None; converted = 0 })) }
{
    let Ok((index, writer, converter)) = Shared::open(alloc, config) else {
        return Err(NoMemory);
    };
    let Ok(index) = Arc::new(alloc, index) else {
        return Err(NoMemory);
    };
    let Ok(again) = Arc::try_clone(&index) else {
        return Err(NoMemory);
    };
    let Ok(writer) = Box::new(alloc, writer) else {
        return Err(NoMemory);
    };
    // A seal that is dropped keeps what it owns, so both boxes are made before the handles.
    let Ok(writes) = Box::new(alloc, Held::Writer(HeldWriter::new(index, writer))) else {
        return Err(NoMemory);
    };
    let Ok(converts) = Box::new(alloc, Held::Converter(HeldConverter::new(again, converter))) else {
        return Err(NoMemory);
    };
    Ok((Handle::of(writes), Handle::of(converts)))
}

/// Adds the document of an id and a text, which is UTF-8, after those that this writer added: 0
/// where there is room for it, else the number of its refusal, and the history is as before; 16
/// where the handle isn't that of a writer. Takes memory while it reads, which is given back.
#[unsafe(no_mangle)]
pub extern "C" fn eb_writer_add_text(
    alloc: Global,
    writer: &mut Handle,
    id: u64,
    text: &[u8],
) -> u32
    ensures added { (w : HistoryToken) → LeadsToWriter writer.old.seal.held w
        → (r : Result Doc Refusal) × ((r ≡ Err Refusal.NoMemory) ⊎ (r ≡ document_with id text.now))
        × (result ≡ number_after w.index.setting w.docs r)
        × LeadsToWriter writer.new.seal.held (record { index = w.index; docs = docs_after w.index.setting w.docs r; converted = w.converted }) }
    ensures bad { kind_of writer.old.seal.held ≢ 1 → (result ≡ 16) × (writer.new.seal.held ≡ writer.old.seal.held) }
{
    add_by(alloc, writer, document_with(alloc, id, text))
}

/// Adds the document of a document line, the bytes of one line without its end, as
/// `eb_writer_add_text` does.
#[unsafe(no_mangle)]
pub extern "C" fn eb_writer_add_line(alloc: Global, writer: &mut Handle, line: &[u8]) -> u32
    ensures added { (w : HistoryToken) → LeadsToWriter writer.old.seal.held w
        → (r : Result Doc Refusal) × ((r ≡ Err Refusal.NoMemory) ⊎ (r ≡ document_in line.now))
        × (result ≡ number_after w.index.setting w.docs r)
        × LeadsToWriter writer.new.seal.held (record { index = w.index; docs = docs_after w.index.setting w.docs r; converted = w.converted }) }
    ensures bad { kind_of writer.old.seal.held ≢ 1 → (result ≡ 16) × (writer.new.seal.held ≡ writer.old.seal.held) }
{
    add_by(alloc, writer, document_in_line(alloc, line))
}

// Adds what was read of a document: 0, or the number of the refusal; 16 where the handle isn't that
// of a writer.
pub(crate) fn add_by(alloc: Global, writer: &mut Handle, read: Result<Document, Refusal>) -> u32
    ensures added { (w : HistoryToken) → LeadsToWriter writer.old.seal.held w → (result ≡ number_after w.index.setting w.docs read)
        × LeadsToWriter writer.new.seal.held (record { index = w.index; docs = docs_after w.index.setting w.docs read; converted = w.converted }) }
    ensures bad { kind_of writer.old.seal.held ≢ 1 → (result ≡ 16) × (writer.new.seal.held ≡ writer.old.seal.held) }
{
    let Some(held) = writer.take(alloc) else {
        return BAD_HANDLE;
    };
    let mut held = held;
    let number = add_read(&mut held, read);
    *writer = Handle::of(held);
    number
}

// Adds what was read of a document: 0, or the number of the refusal.
pub(crate) fn add_read(held: &mut Held, read: Result<Document, Refusal>) -> u32
    ensures added { (w : HistoryToken) → held.old ≡ Held.Writer w → (result ≡ number_after w.index.setting w.docs read)
        × (held.new ≡ Held.Writer (record { index = w.index; docs = docs_after w.index.setting w.docs read; converted = w.converted })) }
    ensures bad { kind_of (Some held.old) ≢ 1 → (result ≡ 16) × (held.new ≡ held.old) }
{
    let Held::Writer(writer) = held else {
        return BAD_HANDLE;
    };
    match read {
        Ok(document) => {
            if writer.add(&document) {
                0
            } else {
                Refusal::Full.number()
            }
        }
        Err(refusal) => refusal.number(),
    }
}

/// Makes a reader that knows all that this writer added, or all that this reader knows: 0; else
/// `NoMemory` (12), or 16 where the one handle leads to neither, or the other isn't closed, and
/// both are as before.
#[unsafe(no_mangle)]
pub extern "C" fn eb_reader(alloc: Global, from: &mut Handle, reader: &mut Handle) -> u32
    ensures made { (w : HistoryToken) → (LeadsToWriter from.old.seal.held w ⊎ LeadsToReader from.old.seal.held w)
        → result ≡ 0 → LeadsToReader reader.new.seal.held w }
    ensures from { from.new.seal.held ≡ from.old.seal.held }
    ensures unchanged { (result ≡ 0 → ⊥) → reader.new ≡ reader.old }
    ensures bad { (kind_of reader.old.seal.held ≢ 0) ⊎ ((kind_of from.old.seal.held ≢ 1) × (kind_of from.old.seal.held ≢ 2)) → result ≡ 16 }
    ensures memory { kind_of reader.old.seal.held ≡ 0 → (kind_of from.old.seal.held ≡ 1) ⊎ (kind_of from.old.seal.held ≡ 2)
        → (result ≡ 0) ⊎ (result ≡ 12) }
{
    if reader.kind != 0 || (from.kind != 1 && from.kind != 2) {
        return BAD_HANDLE;
    }
    let Some(held) = from.take(alloc) else {
        return BAD_HANDLE;
    };
    let mut held = held;
    let made = reader_of(&mut held);
    *from = Handle::of(held);
    let Some(made) = made else {
        return Refusal::NoMemory.number();
    };
    match handle_of(alloc, Held::Reader(made)) {
        Ok(handle) => {
            *reader = handle;
            0
        }
        Err(NoMemory) => Refusal::NoMemory.number(),
    }
}

// A reader that knows what this writer or reader knows.
fn reader_of(held: &mut Held) -> Option<HeldReader>
    ensures held { held.new ≡ held.old }
    ensures made { (w : HistoryToken) → ((held.old ≡ Held.Writer w) ⊎ (held.old ≡ Held.Reader w)) → IfSome result (λ r. r ≡ w) }
{
    match held {
        Held::Writer(writer) => writer.reader(),
        Held::Reader(reader) => reader.again(),
        _ => None,
    }
}

/// Answers a query text, which is UTF-8, of which the newest `k` matches are wanted, over all
/// documents that are accepted when the call counts them. All that this reader knew are a prefix of
/// them, and it knows them from then on. 0, and the ids of the newest that match, newest first, as
/// many as there is room for; `answer` reports over how many documents, and how many ids there are.
/// Else the number of the refusal, no id is written, and `answer` reports the column of a bad
/// query; 16 where the handle isn't that of a reader. Takes memory for the query and its search,
/// which is given back.
#[unsafe(no_mangle)]
pub extern "C" fn eb_reader_ask_text(
    alloc: Global,
    reader: &mut Handle,
    k: u32,
    text: &[u8],
    ids: &mut [u64],
    answer: &mut Answer,
) -> u32
    ensures told { (r : HistoryToken) → LeadsToReader reader.old.seal.held r
        → (s : HistoryToken) × LeadsToReader reader.new.seal.held s × (s.index ≡ r.index) × IsPrefix r.docs s.docs
        × Answers (TextAsks k text.now) s.docs result answer.new ids.old ids.new }
    ensures bad { kind_of reader.old.seal.held ≢ 2
        → (result ≡ 16) × (answer.new ≡ nothing_told 0) × (ids.new ≡ ids.old) × (reader.new.seal.held ≡ reader.old.seal.held) }
{
    ask_by(alloc, reader, question_in_text(alloc, k, text), ids, answer)
}

/// Answers a query line, the bytes of one line without its end, as `eb_reader_ask_text` does.
#[unsafe(no_mangle)]
pub extern "C" fn eb_reader_ask_line(
    alloc: Global,
    reader: &mut Handle,
    line: &[u8],
    ids: &mut [u64],
    answer: &mut Answer,
) -> u32
    ensures told { (r : HistoryToken) → LeadsToReader reader.old.seal.held r
        → (s : HistoryToken) × LeadsToReader reader.new.seal.held s × (s.index ≡ r.index) × IsPrefix r.docs s.docs
        × Answers (LineAsks line.now) s.docs result answer.new ids.old ids.new }
    ensures bad { kind_of reader.old.seal.held ≢ 2
        → (result ≡ 16) × (answer.new ≡ nothing_told 0) × (ids.new ≡ ids.old) × (reader.new.seal.held ≡ reader.old.seal.held) }
{
    ask_by(alloc, reader, question_in_line(alloc, line), ids, answer)
}

// Answers what was read of a question: 0, or the number of the refusal; 16 where the handle isn't
// that of a reader.
pub(crate) fn ask_by(
    alloc: Global,
    reader: &mut Handle,
    read: Question,
    ids: &mut [u64],
    answer: &mut Answer,
) -> u32
    ensures told { (r : HistoryToken) → LeadsToReader reader.old.seal.held r
        → (s : HistoryToken) × LeadsToReader reader.new.seal.held s × (s.index ≡ r.index) × IsPrefix r.docs s.docs
        × Tells s.docs (asked_of read) result answer.new ids.old ids.new }
    ensures bad { kind_of reader.old.seal.held ≢ 2
        → (result ≡ 16) × (answer.new ≡ nothing_told 0) × (ids.new ≡ ids.old) × (reader.new.seal.held ≡ reader.old.seal.held) }
{
    let Some(held) = reader.take(alloc) else {
        *answer = refused(0);
        return BAD_HANDLE;
    };
    let mut held = held;
    let number = ask_held(&mut held, read, ids, answer);
    *reader = Handle::of(held);
    number
}

// Answers what was read of a question, by what the handle leads to.
fn ask_held(held: &mut Held, read: Question, ids: &mut [u64], answer: &mut Answer) -> u32
    ensures told { (r : HistoryToken) → held.old ≡ Held.Reader r
        → (s : HistoryToken) × (held.new ≡ Held.Reader s) × (s.index ≡ r.index) × IsPrefix r.docs s.docs
        × Tells s.docs (asked_of read) result answer.new ids.old ids.new }
    ensures bad { kind_of (Some held.old) ≢ 2 → (result ≡ 16) × (answer.new ≡ nothing_told 0) × (ids.new ≡ ids.old) × (held.new ≡ held.old) }
{
    let Held::Reader(reader) = held else {
        *answer = refused(0);
        return BAD_HANDLE;
    };
    match read {
        Question::Asks(frame) => {
            let mut frame = frame;
            let seen = reader.search(&mut frame);
            put_ids(frame.ids(), seen, ids, answer);
            0
        }
        Question::Refused(refusal, column) => {
            *answer = refused(column);
            refusal.number()
        }
    }
}

/// Reports how many documents this reader knows: 0; or 16 where the handle isn't that of a reader,
/// and nothing is reported. Takes no memory.
#[unsafe(no_mangle)]
pub extern "C" fn eb_reader_seen(alloc: Global, reader: &mut Handle, seen: &mut u64) -> u32
    ensures told { (r : HistoryToken) → LeadsToReader reader.old.seal.held r → (result ≡ 0) × (seen.new ≡ length r.docs) }
    ensures reader { reader.new.seal.held ≡ reader.old.seal.held }
    ensures bad { kind_of reader.old.seal.held ≢ 2 → (result ≡ 16) × (seen.new ≡ seen.old) }
{
    let Some(held) = reader.take(alloc) else {
        return BAD_HANDLE;
    };
    let mut held = held;
    let number = seen_by(&mut held, seen);
    *reader = Handle::of(held);
    number
}

// How many documents a reader knows: 0, or 16 where it isn't a reader.
fn seen_by(held: &mut Held, seen: &mut u64) -> u32
    ensures held { held.new ≡ held.old }
    ensures told { (r : HistoryToken) → held.old ≡ Held.Reader r → (result ≡ 0) × (seen.new ≡ length r.docs) }
    ensures bad { kind_of (Some held.old) ≢ 2 → (result ≡ 16) × (seen.new ≡ seen.old) }
{
    let Held::Reader(reader) = held else {
        return BAD_HANDLE;
    };
    *seen = reader.seen();
    0
}

/// Closes a handle, whatever it leads to; a closed one stays closed. The memory of an index is
/// given back with its last handle.
#[unsafe(no_mangle)]
pub extern "C" fn eb_close(alloc: Global, handle: &mut Handle)
    ensures { LeadsNowhere handle.new.seal.held }
{
    let _held = handle.take(alloc);
}

/// Converts the next segment, if it is closed, and reports how many are converted then: 0; or 16
/// where the handle isn't that of a converter, and all is as before. Takes no memory.
#[unsafe(no_mangle)]
pub extern "C" fn eb_converter_convert(
    alloc: Global,
    converter: &mut Handle,
    converted: &mut u32,
) -> u32
    ensures converts { (c : ConverterToken) → LeadsToConverter converter.old.seal.held c
        → (d : ConverterToken) × LeadsToConverter converter.new.seal.held d × (d.index ≡ c.index) × IsPrefix c.docs d.docs
        × ((x : Converted) × Converts c.index.setting c d x) × (result ≡ 0) × (converted.new ≡ d.converted) }
    ensures bad { kind_of converter.old.seal.held ≢ 3
        → (result ≡ 16) × (converted.new ≡ converted.old) × (converter.new.seal.held ≡ converter.old.seal.held) }
{
    let Some(held) = converter.take(alloc) else {
        return BAD_HANDLE;
    };
    let mut held = held;
    let number = convert_held(&mut held, converted);
    *converter = Handle::of(held);
    number
}

// Converts the next segment, by what the handle leads to.
fn convert_held(held: &mut Held, converted: &mut u32) -> u32
    ensures converts { (c : ConverterToken) → IsConverter held.old c
        → (d : ConverterToken) × IsConverter held.new d × (d.index ≡ c.index) × IsPrefix c.docs d.docs
        × ((x : Converted) × Converts c.index.setting c d x) × (result ≡ 0) × (converted.new ≡ d.converted) }
    ensures bad { kind_of (Some held.old) ≢ 3 → (result ≡ 16) × (converted.new ≡ converted.old) × (held.new ≡ held.old) }
{
    match held {
        Held::Converter(converter) => *converted = converter.convert(),
        Held::FeedConverter(converter) => {
            let _done = converter.convert();
            *converted = converter.converted();
        }
        _ => return BAD_HANDLE,
    }
    0
}
