ghost use Rattle.std.specs.Prelude.{◌≡◌, ℕ, List, [], length};
ghost use Rattle.eb_base.specs.Document.{Doc};
ghost use Rattle.eb_base.specs.Setting.{Setting, IsSetting, words_of};
ghost use Rattle.eb_place.specs.Postings.{terms_of};
ghost use Rattle.eb_place.specs.Room.{cut, last_of};
ghost use Rattle.eb_writer.specs.Counting.{IsUsedBy};
ghost use Rattle.eb_c.specs.Holding.{setting_of, used_of, IsBegunIndex, Holds, IsIndex};
ghost use Rattle.eb_c.specs.Adding.{document_in, document_with, Adds};
ghost use Rattle.eb_c.specs.Asking.{nothing_told, LineAsks, TextAsks, Answers};

use crate::adding::add_read;
use crate::asking::ask_read;
use crate::index::{Answer, Index, Segment, index_of, setting};
use crate::reading::{document_in_line, document_with, question_in_line, question_in_text};
use crate::refusal::Refusal;
use eb_writer::Placer;
use std::alloc::Global;

/// How many words an index of this setting has; 0 where the numbers aren't a setting. Takes no
/// memory.
#[unsafe(no_mangle)]
pub extern "C" fn eb_words(segments: u32, docs: u32, terms: u32) -> u64
    ensures words { let σ : Setting = record { segments = segments; docs = docs; terms = terms } in IsSetting σ → result ≡ words_of σ }
    ensures none { let σ : Setting = record { segments = segments; docs = docs; terms = terms } in (IsSetting σ → ⊥) → result ≡ 0 }
{
    match setting(segments, docs, terms) {
        Some(config) => config.words(),
        None => 0,
    }
}

/// Begins an index of this setting without a document, in exactly as many words as it has, whatever
/// the words and the numbers were. Else the result is `BadSetting` or `BadSize`, and all is as
/// before. Takes no memory.
#[unsafe(no_mangle)]
pub extern "C" fn eb_begin(
    words: &mut [u64],
    index: &mut Index,
    segments: u32,
    docs: u32,
    terms: u32,
) -> u32
    ensures begun { let σ : Setting = record { segments = segments; docs = docs; terms = terms } in
        IsSetting σ → length words.old ≡ words_of σ → result ≡ 0 }
    ensures index { let σ : Setting = record { segments = segments; docs = docs; terms = terms } in
        result ≡ 0 → (setting_of index.new ≡ σ) × Holds index.new words.new [] }
    ensures size { let σ : Setting = record { segments = segments; docs = docs; terms = terms } in
        IsSetting σ → (length words.old ≡ words_of σ → ⊥) → result ≡ 14 }
    ensures setting { let σ : Setting = record { segments = segments; docs = docs; terms = terms } in (IsSetting σ → ⊥) → result ≡ 13 }
    ensures unchanged { (result ≡ 0 → ⊥) → (words.new ≡ words.old) × (index.new ≡ index.old) }
{
    let Some(config) = setting(segments, docs, terms) else {
        return Refusal::BadSetting.number();
    };
    if words.len() as u64 != config.words() {
        return Refusal::BadSize.number();
    }
    words.fill(0);
    *index = index_of(&Placer::new(config));
    0
}

/// Adds the document of a document line, the bytes of one line without its end: 0 where it is
/// accepted, after those before it, else the number of its refusal, and all is as before. `Full`
/// comes exactly where there is no room for the document. Takes memory while it reads, which is
/// given back.
#[unsafe(no_mangle)]
pub extern "C" fn eb_add_line(
    alloc: Global,
    words: &mut [u64],
    index: &mut Index,
    line: &[u8],
) -> u32
    requires { IsBegunIndex index.old (length words.old) → IsIndex index.old words.old }
    ensures not_begun { (IsBegunIndex index.old (length words.old) → ⊥) → result ≡ 15 }
    ensures added { (docs : List Doc) → Holds index.old words.old docs
        → Adds (document_in line.now) docs (setting_of index.old) result index.new words.new }
    ensures unchanged { (result ≡ 0 → ⊥) → (words.new ≡ words.old) × (index.new ≡ index.old) }
{
    add_read(words, index, document_in_line(alloc, line))
}

/// Adds the document of an id and a text, which is UTF-8, as `eb_add_line` does.
#[unsafe(no_mangle)]
pub extern "C" fn eb_add_text(
    alloc: Global,
    words: &mut [u64],
    index: &mut Index,
    id: u64,
    text: &[u8],
) -> u32
    requires { IsBegunIndex index.old (length words.old) → IsIndex index.old words.old }
    ensures not_begun { (IsBegunIndex index.old (length words.old) → ⊥) → result ≡ 15 }
    ensures added { (docs : List Doc) → Holds index.old words.old docs
        → Adds (document_with id text.now) docs (setting_of index.old) result index.new words.new }
    ensures unchanged { (result ≡ 0 → ⊥) → (words.new ≡ words.old) × (index.new ≡ index.old) }
{
    add_read(words, index, document_with(alloc, id, text))
}

/// Answers a query line, the bytes of one line without its end, over all accepted documents: 0, and
/// the ids of the newest that match, newest first, as many as there is room for; `answer` reports
/// how many there are. Else the result is the number of the refusal, no id is written, and `answer`
/// reports the column of a bad query. Takes memory for the query and its search, which is given
/// back.
#[unsafe(no_mangle)]
pub extern "C" fn eb_ask_line(
    alloc: Global,
    words: &[u64],
    index: &Index,
    line: &[u8],
    ids: &mut [u64],
    answer: &mut Answer,
) -> u32
    requires { IsBegunIndex index.now (length words.now) → IsIndex index.now words.now }
    ensures not_begun { (IsBegunIndex index.now (length words.now) → ⊥) → (result ≡ 15) × (answer.new ≡ nothing_told 0) × (ids.new ≡ ids.old) }
    ensures told { (docs : List Doc) → Holds index.now words.now docs → Answers (LineAsks line.now) docs result answer.new ids.old ids.new }
{
    ask_read(words, index, question_in_line(alloc, line), ids, answer)
}

/// Answers a query text, which is UTF-8, of which the newest `k` matches are wanted, as
/// `eb_ask_line` does. The column of a bad query is counted in the text.
#[unsafe(no_mangle)]
pub extern "C" fn eb_ask_text(
    alloc: Global,
    words: &[u64],
    index: &Index,
    k: u32,
    text: &[u8],
    ids: &mut [u64],
    answer: &mut Answer,
) -> u32
    requires { IsBegunIndex index.now (length words.now) → IsIndex index.now words.now }
    ensures not_begun { (IsBegunIndex index.now (length words.now) → ⊥) → (result ≡ 15) × (answer.new ≡ nothing_told 0) × (ids.new ≡ ids.old) }
    ensures told { (docs : List Doc) → Holds index.now words.now docs → Answers (TextAsks k text.now) docs result answer.new ids.old ids.new }
{
    ask_read(words, index, question_in_text(alloc, k, text), ids, answer)
}

/// How many documents are accepted.
#[unsafe(no_mangle)]
pub extern "C" fn eb_documents(index: &Index) -> u64
    ensures { (words : List ℕ) (docs : List Doc) → Holds index.now words docs → result ≡ length docs }
{
    index.documents
}

/// How many segments are begun.
#[unsafe(no_mangle)]
pub extern "C" fn eb_segments(index: &Index) -> u32
    ensures { (words : List ℕ) (docs : List Doc) → Holds index.now words docs → result ≡ length (cut (setting_of index.now) docs) }
{
    index.begun
}

/// How full the last segment is; all 0 where none is begun.
#[unsafe(no_mangle)]
pub extern "C" fn eb_last_segment(index: &Index, last: &mut Segment)
    ensures documents { (words : List ℕ) (docs : List Doc) → Holds index.now words docs
        → last.new.documents ≡ length (last_of (cut (setting_of index.now) docs)) }
    ensures used { (words : List ℕ) (docs : List Doc) → Holds index.now words docs
        → IsUsedBy (used_of last.new) (terms_of (last_of (cut (setting_of index.now) docs))) }
{
    *last = index.last;
}
