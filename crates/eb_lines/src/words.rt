//! The lines in words.
ghost use Rattle.std.specs.Prelude.{◌≡◌, ◌+◌, ◌*◌, ◌≤◌, ◌++◌, length, vec_len, vec_capacity};
ghost use Rattle.eb_lines.specs.Words.{answer_words, count_words, watch_words, refusal_words, refusal_name, summary_words, segments_words, tail_words};

use crate::form::Tail;
use crate::pieces::{put, put_ids, put_number, put_numbers};
use crate::refusal::Refusal;

// The answer to a query in line `number`, in words.
pub(crate) fn put_answer_words(text: &mut Vec<u8>, number: u64, seen: u64, ids: &[u64])
    requires { vec_len text.old + (96 + 21 * length ids.now) ≤ vec_capacity text.old }
    ensures text { text.new.items ≡ text.old.items ++ answer_words number seen ids.now }
    ensures len { vec_len text.new ≤ vec_len text.old + (96 + 21 * length ids.now) }
    ensures room { vec_capacity text.old ≤ vec_capacity text.new }
{
    put_number(text, number);
    put(text, b" seen ");
    put_number(text, seen);
    put(text, b":");
    put_ids(text, b' ', ids);
    put(text, b"\n");
}

// The count of a query in line `number`, in words.
pub(crate) fn put_count_words(
    text: &mut Vec<u8>,
    number: u64,
    seen: u64,
    total: u64,
    buckets: &[u64],
)
    requires { vec_len text.old + (117 + 21 * length buckets.now) ≤ vec_capacity text.old }
    ensures text { text.new.items ≡ text.old.items ++ count_words number seen total buckets.now }
    ensures len { vec_len text.new ≤ vec_len text.old + (117 + 21 * length buckets.now) }
    ensures room { vec_capacity text.old ≤ vec_capacity text.new }
{
    put_number(text, number);
    put(text, b" count ");
    put_number(text, seen);
    put(text, b": ");
    put_number(text, total);
    put_ids(text, b' ', buckets);
    put(text, b"\n");
}

// The numbers of the watches that the document in line `number` matches, in words.
pub(crate) fn put_watch_words(text: &mut Vec<u8>, number: u64, watches: &[u32])
    requires { vec_len text.old + (96 + 21 * length watches.now) ≤ vec_capacity text.old }
    ensures text { text.new.items ≡ text.old.items ++ watch_words number watches.now }
    ensures len { vec_len text.new ≤ vec_len text.old + (96 + 21 * length watches.now) }
    ensures room { vec_capacity text.old ≤ vec_capacity text.new }
{
    put_number(text, number);
    put(text, b" watch:");
    put_numbers(text, b' ', watches);
    put(text, b"\n");
}

// The name of a refusal, and the number that it gives.
fn put_name(text: &mut Vec<u8>, refusal: Refusal)
    requires { vec_len text.old + 37 ≤ vec_capacity text.old }
    ensures text { text.new.items ≡ text.old.items ++ refusal_name refusal }
    ensures len { vec_len text.new ≤ vec_len text.old + 37 }
    ensures room { vec_capacity text.old ≤ vec_capacity text.new }
{
    let row = refusal.row();
    put(text, row.name.as_bytes());
    if let Some(told) = row.told {
        put(text, told.before.as_bytes());
        put_number(text, told.number);
    }
}

// The refusal of line `number`, in words.
pub(crate) fn put_refusal_words(text: &mut Vec<u8>, number: u64, refusal: Refusal)
    requires { vec_len text.old + 96 ≤ vec_capacity text.old }
    ensures text { text.new.items ≡ text.old.items ++ refusal_words number refusal }
    ensures len { vec_len text.new ≤ vec_len text.old + 96 }
    ensures room { vec_capacity text.old ≤ vec_capacity text.new }
{
    put_number(text, number);
    put(text, b" refused: ");
    put_name(text, refusal);
    put(text, b"\n");
}

// The segments, in a line of their own.
fn put_segments(text: &mut Vec<u8>, begun: u64, converted: u64)
    requires { vec_len text.old + 64 ≤ vec_capacity text.old }
    ensures text { text.new.items ≡ text.old.items ++ segments_words begun converted }
    ensures len { vec_len text.new ≤ vec_len text.old + 64 }
    ensures room { vec_capacity text.old ≤ vec_capacity text.new }
{
    put(text, b"\nsegments ");
    put_number(text, begun);
    put(text, b", converted ");
    put_number(text, converted);
}

// What is printed beside the counts, in words.
fn put_tail(text: &mut Vec<u8>, tail: Tail)
    requires { vec_len text.old + 128 ≤ vec_capacity text.old }
    ensures text { text.new.items ≡ text.old.items ++ tail_words tail }
    ensures len { vec_len text.new ≤ vec_len text.old + 128 }
    ensures room { vec_capacity text.old ≤ vec_capacity text.new }
{
    match tail {
        Tail::Nothing => {}
        Tail::Kept(kept) => {
            put(text, b", kept ");
            put_number(text, kept);
        }
        Tail::Segments { begun, converted } => put_segments(text, begun, converted),
        Tail::Generations {
            kept,
            segments,
            converted,
            begun,
        } => {
            put(text, b", kept ");
            put_number(text, kept);
            put_segments(text, segments, converted);
            put(text, b", generations ");
            put_number(text, begun);
        }
    }
}

// The counts, and what is printed beside them, in words.
pub(crate) fn put_summary_words(
    text: &mut Vec<u8>,
    documents: u64,
    queries: u64,
    refused: u64,
    tail: Tail,
)
    requires { vec_len text.old + 256 ≤ vec_capacity text.old }
    ensures { text.new.items ≡ text.old.items ++ summary_words documents queries refused tail }
{
    put(text, b"end: documents ");
    put_number(text, documents);
    put(text, b", queries ");
    put_number(text, queries);
    put(text, b", refused ");
    put_number(text, refused);
    put_tail(text, tail);
    put(text, b"\n");
}
