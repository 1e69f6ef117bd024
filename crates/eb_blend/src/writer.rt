ghost use Rattle.std.specs.Prelude.{◌≡◌, ◌%◌, ◌≤◌, ◌<◌, [], length, get_or, replicate, None, Some, IfOk, IfErr, IfSome, OnErr, OnOk, ℕ};
ghost use Rattle.eb_place.specs.Room.{HasRoom};
ghost use Rattle.eb_blend.specs.Parts.{WriterTokens, indexes_of, histories_of, converter_indexes_of, converter_histories_of, converted_of, lengths_of, counted};
ghost use Rattle.eb_blend.specs.Parts.{few_counted, segments_of, history, part_of, with_document, IsAbove, AreFronts, AllClosed, AllConverted, IsCaughtUp};
ghost use Rattle.eb_base.specs.Setting.{Setting};
ghost use Rattle.std.specs.List.{All};
ghost use Rattle.eb_blend.specs.Refused.{Refuses};
ghost use Rattle.eb_blend.specs.Adding.{outcomes_of, with_items};

use crate::adding::{Space, add_with, count_all};
use crate::blend::Blend;
use crate::catching_up::{catch_up_at, catch_up_each};
use crate::converter::BlendConverter;
use crate::reader::BlendReader;
use crate::refusal::BlendRefusal;
use eb_base::{Document, Gate, NoMemory};
use eb_engine::{Converter, Index, Reader, Writer};
use eb_writer::Full;
use std::alloc::Global;
use std::marker::Model;
use std::thread::Threads;

/// The one writer of a blend. It may go to a thread of its own. Contracts see the history of each
/// part, and the id of the document that it added last.
#[derive(Drop)]
pub struct BlendWriter {
    pub(crate) writers: Vec<Writer>,
    last: Option<u64>,
    accepted: u64,
}

impl Model for BlendWriter {
    ghost use Rattle.std.specs.Prelude.{◌≡◌};
    ghost use Rattle.eb_blend.specs.Parts.{WriterTokens, indexes_of, histories_of, lengths_of, counted};

    ghost Value = { WriterTokens };

    ghost view = { λ w. record { indexes = indexes_of w.writers.items; histories = histories_of w.writers.items; last = w.last } };

    ghost invariant = { λ w. w.accepted ≡ counted (lengths_of (histories_of w.writers.items)) };
}

impl BlendWriter {
    pub(crate) fn new(writers: Vec<Writer>) -> BlendWriter
        requires { (n : ℕ) × (histories_of writers.items ≡ replicate n []) }
        ensures { result ≡ record { indexes = indexes_of writers.items; histories = histories_of writers.items; last = None } }
    {
        BlendWriter {
            writers,
            last: None,
            accepted: 0,
        }
    }

    /// Adds a document after the history of its part, which is its id modulo the number of parts,
    /// and returns the sum of all lengths then. `NotRising` exactly where a document was accepted
    /// and its id isn't below this one's; else `Full` exactly where the part has no room for it.
    /// After a refusal nothing is stored, and all histories and the last id are as before. The
    /// writer must have been made with this blend. Takes no memory.
    pub fn add<G: Gate>(
        &mut self,
        blend: &Blend,
        document: &Document,
        gate: &G,
    ) -> Result<u64, BlendRefusal>
        requires { self.old.indexes ≡ blend.now.indexes }
        ensures ok { IfOk result (λ n. IsAbove self.old.last document.now.id
            × HasRoom blend.now.setting (history self.old.histories (part_of self.old.histories document.now)) document.now
            × (self.new ≡ record { indexes = self.old.indexes; histories = with_document self.old.histories document.now; last = Some document.now.id })
            × (n ≡ counted (lengths_of self.new.histories))) }
        ensures refused { IfErr result (Refuses blend.now.setting self.old document.now) }
        ensures unchanged { OnErr result (self.new ≡ self.old) }
    {
        let id = document.id();
        if let Some(last) = not_below(self.last, id) {
            return Err(BlendRefusal::NotRising { last });
        }
        let part = (id % blend.parts.len() as u64) as usize;
        match self.writers[part].add(&blend.parts[part], document, gate) {
            Ok(_count) => {}
            Err(Full) => return Err(BlendRefusal::Full { part: part as u32 }),
        }
        self.last = Some(id);
        self.accepted = self.accepted.saturating_add(1);
        Ok(self.accepted)
    }

    /// Adds the documents among some items, one after the other, each exactly as `add` does, and
    /// returns why each document was refused, if it was. Where ids rise the parts add concurrently,
    /// each on a thread of its own; few documents, and documents of one part, start no thread.
    /// Where memory runs out, which shows before the first is added, nothing is done. The writer
    /// must have been made with this blend.
    pub fn add_all<R: Threads + Sync, E: Sync, G: Gate + Sync>(
        &mut self,
        rt: &R,
        alloc: Global,
        blend: &Blend,
        items: &[Result<Document, E>],
        gate: &G,
    ) -> Result<Vec<Option<BlendRefusal>>, NoMemory>
        requires { self.old.indexes ≡ blend.now.indexes }
        ensures outcomes { IfOk result (λ r. r.items ≡ outcomes_of blend.now.setting self.old items.now) }
        ensures added { OnOk result (self.new ≡ with_items blend.now.setting self.old items.now) }
        ensures unchanged { OnErr result (self.new ≡ self.old) }
    {
        let mut space = Space::new(alloc, blend.parts.len(), items.len())?;
        self.last = add_with(
            rt,
            blend.parts.as_slice(),
            &mut space,
            &mut self.writers,
            self.last,
            items,
            gate,
        );
        self.accepted = count_all(self.writers.as_slice());
        Ok(space.outcomes)
    }

    /// The sum of the lengths of the histories.
    pub fn accepted(&self) -> u64
        ensures { result ≡ counted (lengths_of self.now.histories) }
    {
        self.accepted
    }

    /// The sum of the parts' numbers of segments.
    pub fn segments(&self) -> u32
        ensures { result ≡ few_counted (segments_of self.now.indexes self.now.histories) }
    {
        let mut segments = 0u32;
        for writer in &self.writers {
            segments = segments.saturating_add(writer.segments());
        }
        segments
    }

    /// A reader that knows all histories. The writer must have been made with this blend. Takes
    /// memory for the list of the parts' readers.
    pub fn reader(&mut self, alloc: Global, blend: &Blend) -> Result<BlendReader, NoMemory>
        requires { self.old.indexes ≡ blend.now.indexes }
        ensures this { self.new ≡ self.old }
        ensures reader { IfOk result (λ r. r ≡ record { indexes = self.old.indexes; histories = self.old.histories }) }
    {
        let readers = readers_of(alloc, self.writers.as_mut_slice(), blend.parts.as_slice())?;
        Ok(BlendReader::new(readers))
    }

    /// Meets a reader, which is used up: what it knew of each part is a prefix of that part's
    /// history. Both must have been made with this blend. Takes no memory.
    pub fn meet(&mut self, blend: &Blend, reader: BlendReader)
        requires this { self.old.indexes ≡ blend.now.indexes }
        requires reader { reader.indexes ≡ blend.now.indexes }
        ensures this { self.new ≡ self.old }
        ensures reader { AreFronts reader.histories self.new.histories }
    {
        meet_each(
            self.writers.as_mut_slice(),
            blend.parts.as_slice(),
            reader.into_readers(),
        );
    }

    /// Takes over what the converter knows: of each part it is a prefix of that part's history, in
    /// which each segment that it converted is closed. Both must have been made with this blend.
    /// Takes no memory.
    pub fn hear(&mut self, blend: &Blend, converter: &mut BlendConverter)
        requires this { self.old.indexes ≡ blend.now.indexes }
        requires converter { converter.old.indexes ≡ blend.now.indexes }
        ensures this { self.new ≡ self.old }
        ensures converter { converter.new ≡ converter.old }
        ensures told { AreFronts converter.old.histories self.new.histories }
        ensures closed { AllClosed blend.now.setting self.new.histories converter.old.converted }
    {
        hear_each(
            self.writers.as_mut_slice(),
            blend.parts.as_slice(),
            converter.converters.as_mut_slice(),
        );
    }

    /// Catches up with the part of the last document, where there is one: the converter learns the
    /// part's history. Where a segment of it waits, it converts until there is nothing to convert,
    /// and the writer learns that. Both must have been made with this blend. Takes no memory.
    pub fn catch_up(&mut self, blend: &Blend, converter: &mut BlendConverter)
        requires this { self.old.indexes ≡ blend.now.indexes }
        requires converter { converter.old.indexes ≡ blend.now.indexes }
        ensures this { self.new ≡ self.old }
        ensures indexes { converter.new.indexes ≡ converter.old.indexes }
        ensures parts { length converter.new.converted ≡ length converter.old.converted }
        ensures known { AreFronts converter.old.histories converter.new.histories }
        ensures rising { (p : ℕ) → get_or converter.old.converted p 0 ≤ get_or converter.new.converted p 0 }
        ensures last { (id : ℕ) → self.old.last ≡ Some id
            → IsCaughtUp blend.now.setting self.old.histories (id % length self.old.histories) converter.old converter.new }
        ensures none { self.old.last ≡ None → converter.new ≡ converter.old }
    {
        let Some(id) = self.last else {
            return;
        };
        let at = (id % blend.parts.len() as u64) as usize;
        catch_up_at(
            at,
            blend.parts.as_slice(),
            self.writers.as_mut_slice(),
            converter.converters.as_mut_slice(),
        );
    }

    /// Catches up with all parts: the converter learns their histories. Where a segment waits in
    /// some part, it converts in all parts, concurrently, until there is nothing to convert, and
    /// the writer learns that. Both must have been made with this blend. Takes no memory.
    pub fn catch_up_all<R: Threads + Sync>(
        &mut self,
        rt: &R,
        blend: &Blend,
        converter: &mut BlendConverter,
    )
        requires this { self.old.indexes ≡ blend.now.indexes }
        requires converter { converter.old.indexes ≡ blend.now.indexes }
        ensures this { self.new ≡ self.old }
        ensures indexes { converter.new.indexes ≡ converter.old.indexes }
        ensures parts { length converter.new.converted ≡ length converter.old.converted }
        ensures known { AreFronts converter.old.histories converter.new.histories }
        ensures told { AreFronts self.old.histories converter.new.histories }
        ensures rising { (p : ℕ) → get_or converter.old.converted p 0 ≤ get_or converter.new.converted p 0 }
        ensures converted { AllConverted blend.now.setting self.old.histories converter.new.converted }
    {
        catch_up_each(
            rt,
            blend.parts.as_slice(),
            self.writers.as_mut_slice(),
            converter.converters.as_mut_slice(),
        );
        hear_each(
            self.writers.as_mut_slice(),
            blend.parts.as_slice(),
            converter.converters.as_mut_slice(),
        );
    }
}

// The last id, where it isn't below this one.
fn not_below(last: Option<u64>, id: u64) -> Option<u64>
    ensures some { IfSome result (λ found. (last ≡ Some found) × (id ≤ found)) }
    ensures none { result ≡ None → IsAbove last id }
{
    match last {
        Some(found) if id <= found => Some(found),
        _ => None,
    }
}

// A reader of each part, each of which knows the whole history of its part.
fn readers_of(
    alloc: Global,
    writers: &mut [Writer],
    indexes: &[Index],
) -> Result<Vec<Reader>, NoMemory>
    requires made { indexes_of writers.old ≡ indexes.now }
    ensures same { writers.new ≡ writers.old }
    ensures readers { IfOk result (λ readers. readers.items ≡ writers.old) }
{
    let mut readers = Vec::with_capacity(alloc, writers.len())?;
    for at in 0..writers.len() {
        let reader = writers[at].reader(&indexes[at]);
        readers.push(reader)?;
    }
    Ok(readers)
}

// Each writer meets the reader of its part.
fn meet_each(writers: &mut [Writer], indexes: &[Index], mut readers: Vec<Reader>)
    requires made { indexes_of writers.old ≡ indexes.now }
    requires readers { indexes_of readers.items ≡ indexes.now }
    ensures same { writers.new ≡ writers.old }
    ensures fronts { AreFronts (histories_of readers.items) (histories_of writers.new) }
{
    while let Some(reader) = readers.pop() {
        let at = readers.len();
        writers[at].meet(&indexes[at], reader);
    }
}

// Each writer takes over what the converter of its part knows.
fn hear_each(writers: &mut [Writer], indexes: &[Index], converters: &mut [Converter])
    requires made { indexes_of writers.old ≡ indexes.now }
    requires converters { converter_indexes_of converters.old ≡ indexes.now }
    ensures indexes { indexes_of writers.new ≡ indexes_of writers.old }
    ensures histories { histories_of writers.new ≡ histories_of writers.old }
    ensures converters { converters.new ≡ converters.old }
    ensures fronts { AreFronts (converter_histories_of converters.old) (histories_of writers.new) }
    ensures closed { (σ : Setting) → All (λ w. w.setting ≡ σ) indexes.now → AllClosed σ (histories_of writers.new) (converted_of converters.old) }
{
    for at in 0..writers.len() {
        writers[at].hear(&indexes[at], &mut converters[at]);
    }
}
