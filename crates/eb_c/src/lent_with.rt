//! The calls on lent memory where a caller says how lines and texts are read.
ghost use Rattle.std.specs.Prelude.{◌≡◌, List, length, MatchOption};
ghost use Rattle.eb_base.specs.Document.{Doc};
ghost use Rattle.eb_c.specs.Holding.{setting_of, IsBegunIndex, Holds, IsIndex};
ghost use Rattle.eb_c.specs.Adding.{document_in_as, document_as, Adds};
ghost use Rattle.eb_c.specs.Asking.{nothing_told, LineAsksAs, TextAsksAs, Answers};
ghost use Rattle.eb_c.specs.Counting.{nothing_counted, Counts};
ghost use Rattle.eb_c.specs.Dialects.{dialect_by};

use crate::adding::add_read;
use crate::asking::ask_read;
use crate::counting::{Axis, Count, count_read, prepare};
use crate::dialects::{Reading, read_dialect};
use crate::index::{Answer, Index};
use crate::reading::{document_as, document_in_line_as, question_in_line_as, question_in_text_as};
use crate::refusal::Refusal;
use std::alloc::Global;

/// Tests how lines and texts are to be read: 0, or `BadReading` (17) where it isn't in the grammar
/// of the options, and each call that is given it is refused. Takes no memory.
#[unsafe(no_mangle)]
pub extern "C" fn eb_check_reading(how: &Reading<'_>) -> u32
    ensures { MatchOption (dialect_by how.now) (result ≡ 17) (λ _. result ≡ 0) }
{
    match read_dialect(how) {
        Some(_dialect) => 0,
        None => Refusal::BadReading.number(),
    }
}

/// Adds the document of a document line as `eb_add_line` does, where lines are read so:
/// `BadReading` (17) where that isn't in the grammar of the options.
#[unsafe(no_mangle)]
pub extern "C" fn eb_add_line_with(
    alloc: Global,
    words: &mut [u64],
    index: &mut Index,
    how: &Reading<'_>,
    line: &[u8],
) -> u32
    requires { IsBegunIndex index.old (length words.old) → IsIndex index.old words.old }
    ensures not_begun { (IsBegunIndex index.old (length words.old) → ⊥) → result ≡ 15 }
    ensures added { (docs : List Doc) → Holds index.old words.old docs
        → Adds (document_in_as how.now line.now) docs (setting_of index.old) result index.new words.new }
    ensures unchanged { (result ≡ 0 → ⊥) → (words.new ≡ words.old) × (index.new ≡ index.old) }
{
    add_read(words, index, document_in_line_as(alloc, how, line))
}

/// Adds the document of an id and a text as `eb_add_text` does, where texts are cut so.
#[unsafe(no_mangle)]
pub extern "C" fn eb_add_text_with(
    alloc: Global,
    words: &mut [u64],
    index: &mut Index,
    how: &Reading<'_>,
    id: u64,
    text: &[u8],
) -> u32
    requires { IsBegunIndex index.old (length words.old) → IsIndex index.old words.old }
    ensures not_begun { (IsBegunIndex index.old (length words.old) → ⊥) → result ≡ 15 }
    ensures added { (docs : List Doc) → Holds index.old words.old docs
        → Adds (document_as how.now id text.now) docs (setting_of index.old) result index.new words.new }
    ensures unchanged { (result ≡ 0 → ⊥) → (words.new ≡ words.old) × (index.new ≡ index.old) }
{
    add_read(words, index, document_as(alloc, how, id, text))
}

/// Answers a query line as `eb_ask_line` does, where lines are read so.
#[unsafe(no_mangle)]
pub extern "C" fn eb_ask_line_with(
    alloc: Global,
    words: &[u64],
    index: &Index,
    how: &Reading<'_>,
    line: &[u8],
    ids: &mut [u64],
    answer: &mut Answer,
) -> u32
    requires { IsBegunIndex index.now (length words.now) → IsIndex index.now words.now }
    ensures not_begun { (IsBegunIndex index.now (length words.now) → ⊥) → (result ≡ 15) × (answer.new ≡ nothing_told 0) × (ids.new ≡ ids.old) }
    ensures told { (docs : List Doc) → Holds index.now words.now docs
        → Answers (LineAsksAs how.now line.now) docs result answer.new ids.old ids.new }
{
    ask_read(
        words,
        index,
        question_in_line_as(alloc, how, line),
        ids,
        answer,
    )
}

/// Answers a query text as `eb_ask_text` does, where texts are read so.
#[unsafe(no_mangle)]
pub extern "C" fn eb_ask_text_with(
    alloc: Global,
    words: &[u64],
    index: &Index,
    how: &Reading<'_>,
    k: u32,
    text: &[u8],
    ids: &mut [u64],
    answer: &mut Answer,
) -> u32
    requires { IsBegunIndex index.now (length words.now) → IsIndex index.now words.now }
    ensures not_begun { (IsBegunIndex index.now (length words.now) → ⊥) → (result ≡ 15) × (answer.new ≡ nothing_told 0) × (ids.new ≡ ids.old) }
    ensures told { (docs : List Doc) → Holds index.now words.now docs
        → Answers (TextAsksAs how.now k text.now) docs result answer.new ids.old ids.new }
{
    ask_read(
        words,
        index,
        question_in_text_as(alloc, how, k, text),
        ids,
        answer,
    )
}

/// Counts as `eb_count_text` does, where texts are read so.
#[unsafe(no_mangle)]
pub extern "C" fn eb_count_text_with(
    alloc: Global,
    words: &[u64],
    index: &Index,
    how: &Reading<'_>,
    text: &[u8],
    start: u64,
    width: u64,
    buckets: &mut [u64],
    count: &mut Count,
) -> u32
    requires { IsBegunIndex index.now (length words.now) → IsIndex index.now words.now }
    ensures not_begun { (IsBegunIndex index.now (length words.now) → ⊥) → (result ≡ 15) × (count.new ≡ nothing_counted 0) × (buckets.new ≡ buckets.old) }
    ensures told { (docs : List Doc) → Holds index.now words.now docs
        → Counts (TextAsksAs how.now 1 text.now) docs (record { start = start; width = width }) result count.new buckets.old buckets.new }
{
    let axis = Axis { start, width };
    let question = question_in_text_as(alloc, how, 1, text);
    let asked = prepare(alloc, question, axis, buckets.len());
    count_read(words, index, asked, axis, buckets, count)
}
