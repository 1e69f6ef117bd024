//! Images for C: the head of a setting, and the parts of documents, as the program `earlybird` saves
//! and loads them. `eb_image` says what an image is.
ghost use Rattle.std.specs.Prelude.{◌≡◌, ◌≢◌, ◌⊎◌, ℕ, List, length, Err, Result};
ghost use Rattle.eb_base.specs.Document.{Doc};
ghost use Rattle.eb_base.specs.Setting.{Setting, IsSetting};
ghost use Rattle.eb_engine.specs.Tokens.{HistoryToken};
ghost use Rattle.eb_image.specs.declared.first.FirstHead.{FirstHead as Head};
ghost use Rattle.eb_image.specs.First.{IsFirstHead};
ghost use Rattle.eb_image.specs.Image.{head_of};
ghost use Rattle.eb_c.specs.Holding.{setting_of, IsBegunIndex, Holds, IsIndex};
ghost use Rattle.eb_c.specs.Adding.{document_in_as, document_as, number_after, docs_after};
ghost use Rattle.eb_c.specs.Sharing.{kind_of, LeadsToWriter};
ghost use Rattle.eb_c.specs.Images.{Puts, PutsPart, TellsHead, IsReadOfPart, taken_by, AddsPart};

use crate::adding::add_read;
use crate::dialects::Reading;
use crate::handle::Handle;
use crate::index::{Index, setting};
use crate::reading::{document_as, document_in_line_as};
use crate::refusal::Refusal;
use crate::sharing::add_by;
use eb_base::{Document, NoMemory};
use eb_image::{FirstHead, FirstPart, first_head, first_part, write_head, write_part};
use std::alloc::Global;

/// Writes the head of an image of this setting, 20 bytes, into the first of the caller's: 0; else
/// `BadSetting` (13), or `ShortRoom` (23) where the caller has fewer, and no byte is written. Takes
/// no memory.
#[unsafe(no_mangle)]
pub extern "C" fn eb_image_head(segments: u32, docs: u32, terms: u32, head: &mut [u8]) -> u32
    ensures head { let σ : Setting = record { segments = segments; docs = docs; terms = terms } in
        IsSetting σ → Puts (head_of σ) result head.old head.new }
    ensures setting { let σ : Setting = record { segments = segments; docs = docs; terms = terms } in
        (IsSetting σ → ⊥) → (result ≡ 13) × (head.new ≡ head.old) }
{
    match setting(segments, docs, terms) {
        Some(config) => put(&write_head(config), head),
        None => Refusal::BadSetting.number(),
    }
}

/// Reads the setting of the head that some bytes begin with: 0; else `MoreBytes` (22) where they
/// are the first bytes of a head and not all of it, or `BadImage` (21) where they begin none, and
/// the three numbers are as before. Takes no memory.
#[unsafe(no_mangle)]
pub extern "C" fn eb_image_setting(
    bytes: &[u8],
    segments: &mut u32,
    docs: &mut u32,
    terms: &mut u32,
) -> u32
    ensures { (first : Head) × IsFirstHead bytes.now first
        × TellsHead first result (record { segments = segments.old; docs = docs.old; terms = terms.old })
        (record { segments = segments.new; docs = docs.new; terms = terms.new }) }
{
    match first_head(bytes) {
        FirstHead::Head(config) => {
            *segments = config.segments();
            *docs = config.docs();
            *terms = config.terms();
            0
        }
        FirstHead::More => Refusal::MoreBytes.number(),
        FirstHead::Bad => Refusal::BadImage.number(),
    }
}

/// Writes the part of the document of a document line, the bytes of one line without its end, by
/// the dialect that the caller gives, into the first bytes of the caller's: 0, and `len` is how many
/// bytes it has; 18,443 are always enough. `ShortRoom` (23) where the caller has fewer; `len` says
/// how many it needs. Else the number of its refusal, and `len` is 0. Where it isn't 0, no byte is
/// written. Takes memory for the document and its part, which is given back.
#[unsafe(no_mangle)]
pub extern "C" fn eb_part_of_line(
    alloc: Global,
    how: &Reading<'_>,
    line: &[u8],
    part: &mut [u8],
    len: &mut u64,
) -> u32
    ensures { (r : Result Doc Refusal) × ((r ≡ Err Refusal.NoMemory) ⊎ (r ≡ document_in_as how.now line.now))
        × PutsPart r result len.new part.old part.new }
{
    put_part(alloc, document_in_line_as(alloc, how, line), part, len)
}

/// Writes the part of the document of an id and a text, which is UTF-8, by the dialect that the
/// caller gives, as `eb_part_of_line` does.
#[unsafe(no_mangle)]
pub extern "C" fn eb_part_of_text(
    alloc: Global,
    how: &Reading<'_>,
    id: u64,
    text: &[u8],
    part: &mut [u8],
    len: &mut u64,
) -> u32
    ensures { (r : Result Doc Refusal) × ((r ≡ Err Refusal.NoMemory) ⊎ (r ≡ document_as how.now id text.now))
        × PutsPart r result len.new part.old part.new }
{
    put_part(alloc, document_as(alloc, how, id, text), part, len)
}

// Writes the part of the document that was read.
fn put_part(alloc: Global, read: Result<Document, Refusal>, part: &mut [u8], len: &mut u64) -> u32
    ensures { PutsPart read result len.new part.old part.new }
{
    *len = 0;
    match read {
        Ok(document) => match write_part(alloc, &document) {
            Ok(bytes) => {
                *len = bytes.len() as u64;
                put(&bytes, part)
            }
            Err(NoMemory) => Refusal::NoMemory.number(),
        },
        Err(refusal) => refusal.number(),
    }
}

// Writes the bytes into the first of the caller's, if there are as many: 0, else `ShortRoom`.
fn put(bytes: &[u8], room: &mut [u8]) -> u32
    ensures { Puts bytes.now result room.old room.new }
{
    if room.len() < bytes.len() {
        return Refusal::ShortRoom.number();
    }
    room[..bytes.len()].copy_from_slice(bytes);
    0
}

// What was read of the part that some bytes begin with: its document, and how many bytes it has; 0
// where there is none.
struct ReadPart {
    document: Result<Document, Refusal>,
    len: usize,
}

// Reads the part that the bytes begin with.
fn read_part(alloc: Global, bytes: &[u8]) -> ReadPart
    ensures { IsReadOfPart bytes.now result.document result.len }
{
    match first_part(alloc, bytes) {
        Ok(FirstPart::Part(document, len)) => ReadPart {
            document: Ok(document),
            len,
        },
        Ok(FirstPart::Last) => ReadPart {
            document: Err(Refusal::ImageEnd),
            len: 0,
        },
        Ok(FirstPart::More) => ReadPart {
            document: Err(Refusal::MoreBytes),
            len: 0,
        },
        Ok(FirstPart::Bad) => ReadPart {
            document: Err(Refusal::BadImage),
            len: 0,
        },
        Err(NoMemory) => ReadPart {
            document: Err(Refusal::NoMemory),
            len: 0,
        },
    }
}

// How many bytes an add took that answered this number: those of the part, where it isn't refused.
fn taken_of(number: u32, len: usize) -> u64
    ensures { result ≡ taken_by number len }
{
    if number == 0 { len as u64 } else { 0 }
}

/// Adds the document of the part that some bytes begin with, as `eb_add_text` adds that of a text:
/// 0, and `taken` is how many bytes the part has. Else nothing is changed, and `taken` is 0:
/// `ImageEnd` (24) where the bytes begin with the byte 0, after which the image is over; `MoreBytes`
/// (22) where there are none, or they are the first bytes of a part and not all of it; `BadImage`
/// (21) where they begin no part of a document within the limits and no byte 0; `Full` exactly where
/// there is no room for the document. Takes memory for the document, which is given back.
#[unsafe(no_mangle)]
pub extern "C" fn eb_add_part(
    alloc: Global,
    words: &mut [u64],
    index: &mut Index,
    bytes: &[u8],
    taken: &mut u64,
) -> u32
    requires { IsBegunIndex index.old (length words.old) → IsIndex index.old words.old }
    ensures not_begun { (IsBegunIndex index.old (length words.old) → ⊥) → result ≡ 15 }
    ensures added { (docs : List Doc) → Holds index.old words.old docs
        → AddsPart bytes.now docs (setting_of index.old) result taken.new index.new words.new }
    ensures unchanged { (result ≡ 0 → ⊥) → (words.new ≡ words.old) × (index.new ≡ index.old) × (taken.new ≡ 0) }
{
    let ReadPart { document, len } = read_part(alloc, bytes);
    let number = add_read(words, index, document);
    *taken = taken_of(number, len);
    number
}

/// Adds the document of the part that some bytes begin with, after those that this writer added, as
/// `eb_add_part` does; 16 where the handle isn't that of a writer.
#[unsafe(no_mangle)]
pub extern "C" fn eb_writer_add_part(
    alloc: Global,
    writer: &mut Handle,
    bytes: &[u8],
    taken: &mut u64,
) -> u32
    ensures added { (w : HistoryToken) → LeadsToWriter writer.old.seal.held w
        → (r : Result Doc Refusal) × (n : ℕ) × IsReadOfPart bytes.now r n × (result ≡ number_after w.index.setting w.docs r) × (taken.new ≡ taken_by result n)
        × LeadsToWriter writer.new.seal.held (record { index = w.index; docs = docs_after w.index.setting w.docs r; converted = w.converted }) }
    ensures bad { kind_of writer.old.seal.held ≢ 1 → (result ≡ 16) × (taken.new ≡ 0) × (writer.new.seal.held ≡ writer.old.seal.held) }
{
    let ReadPart { document, len } = read_part(alloc, bytes);
    let number = add_by(alloc, writer, document);
    *taken = taken_of(number, len);
    number
}
