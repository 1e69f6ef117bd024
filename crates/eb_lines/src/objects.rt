//! The lines as JSON.
ghost use Rattle.std.specs.Prelude.{◌≡◌, ◌+◌, ◌*◌, ◌≤◌, ◌++◌, length, vec_len, vec_capacity};
ghost use Rattle.eb_lines.specs.JsonTexts.{answer_text, buckets_text, count_text, watch_text, cause_text, refusal_text, summary_text, segments_text, tail_text};

use crate::form::Tail;
use crate::pieces::{put, put_id_list, put_number, put_number_list};
use crate::refusal::Refusal;

// The answer to a query in line `number`, as an object.
pub(crate) fn put_answer_json(text: &mut Vec<u8>, number: u64, seen: u64, ids: &[u64])
    requires { vec_len text.old + (96 + 21 * length ids.now) ≤ vec_capacity text.old }
    ensures text { text.new.items ≡ text.old.items ++ answer_text number seen ids.now }
    ensures len { vec_len text.new ≤ vec_len text.old + (96 + 21 * length ids.now) }
    ensures room { vec_capacity text.old ≤ vec_capacity text.new }
{
    put(text, b"{\"line\":");
    put_number(text, number);
    put(text, b",\"seen\":");
    put_number(text, seen);
    put(text, b",\"ids\":[");
    put_id_list(text, ids);
    put(text, b"]}\n");
}

// The buckets, where there are any, and the end of the object.
fn put_buckets(text: &mut Vec<u8>, buckets: &[u64])
    requires { vec_len text.old + (15 + 21 * length buckets.now) ≤ vec_capacity text.old }
    ensures text { text.new.items ≡ text.old.items ++ buckets_text buckets.now }
    ensures len { vec_len text.new ≤ vec_len text.old + (15 + 21 * length buckets.now) }
    ensures room { vec_capacity text.old ≤ vec_capacity text.new }
{
    if buckets.is_empty() {
        put(text, b"}\n");
        return;
    }
    put(text, b",\"buckets\":[");
    put_id_list(text, buckets);
    put(text, b"]}\n");
}

// The count of a query in line `number`, as an object.
pub(crate) fn put_count_json(
    text: &mut Vec<u8>,
    number: u64,
    seen: u64,
    total: u64,
    buckets: &[u64],
)
    requires { vec_len text.old + (117 + 21 * length buckets.now) ≤ vec_capacity text.old }
    ensures text { text.new.items ≡ text.old.items ++ count_text number seen total buckets.now }
    ensures len { vec_len text.new ≤ vec_len text.old + (117 + 21 * length buckets.now) }
    ensures room { vec_capacity text.old ≤ vec_capacity text.new }
{
    put(text, b"{\"line\":");
    put_number(text, number);
    put(text, b",\"seen\":");
    put_number(text, seen);
    put(text, b",\"count\":");
    put_number(text, total);
    put_buckets(text, buckets);
}

// The numbers of the watches that the document in line `number` matches, as an object.
pub(crate) fn put_watch_json(text: &mut Vec<u8>, number: u64, watches: &[u32])
    requires { vec_len text.old + (96 + 21 * length watches.now) ≤ vec_capacity text.old }
    ensures text { text.new.items ≡ text.old.items ++ watch_text number watches.now }
    ensures len { vec_len text.new ≤ vec_len text.old + (96 + 21 * length watches.now) }
    ensures room { vec_capacity text.old ≤ vec_capacity text.new }
{
    put(text, b"{\"line\":");
    put_number(text, number);
    put(text, b",\"watches\":[");
    put_number_list(text, watches);
    put(text, b"]}\n");
}

// Why a line is refused, and the end of the object.
fn put_cause(text: &mut Vec<u8>, refusal: Refusal)
    requires { vec_len text.old + 48 ≤ vec_capacity text.old }
    ensures text { text.new.items ≡ text.old.items ++ cause_text refusal }
    ensures len { vec_len text.new ≤ vec_len text.old + 48 }
    ensures room { vec_capacity text.old ≤ vec_capacity text.new }
{
    let row = refusal.row();
    put(text, b"\"");
    put(text, row.name.as_bytes());
    put(text, b"\"");
    if let Some(told) = row.told {
        put(text, b",\"");
        put(text, told.key.as_bytes());
        put(text, b"\":");
        put_number(text, told.number);
    }
    put(text, b"}\n");
}

// The refusal of line `number`, as an object.
pub(crate) fn put_refusal_json(text: &mut Vec<u8>, number: u64, refusal: Refusal)
    requires { vec_len text.old + 96 ≤ vec_capacity text.old }
    ensures text { text.new.items ≡ text.old.items ++ refusal_text number refusal }
    ensures len { vec_len text.new ≤ vec_len text.old + 96 }
    ensures room { vec_capacity text.old ≤ vec_capacity text.new }
{
    put(text, b"{\"line\":");
    put_number(text, number);
    put(text, b",\"refused\":");
    put_cause(text, refusal);
}

// The end of the object of the counts, and the segments, from the object of their own on.
fn put_segments(text: &mut Vec<u8>, begun: u64, converted: u64)
    requires { vec_len text.old + 72 ≤ vec_capacity text.old }
    ensures text { text.new.items ≡ text.old.items ++ segments_text begun converted }
    ensures len { vec_len text.new ≤ vec_len text.old + 72 }
    ensures room { vec_capacity text.old ≤ vec_capacity text.new }
{
    put(text, b"}}\n{\"segments\":");
    put_number(text, begun);
    put(text, b",\"converted\":");
    put_number(text, converted);
}

// What is printed beside the counts, from the end of the object of the counts on.
fn put_tail(text: &mut Vec<u8>, tail: Tail)
    requires { vec_len text.old + 144 ≤ vec_capacity text.old }
    ensures { text.new.items ≡ text.old.items ++ tail_text tail }
{
    match tail {
        Tail::Nothing => put(text, b"}}\n"),
        Tail::Kept(kept) => {
            put(text, b",\"kept\":");
            put_number(text, kept);
            put(text, b"}}\n");
        }
        Tail::Segments { begun, converted } => {
            put_segments(text, begun, converted);
            put(text, b"}\n");
        }
        Tail::Generations {
            kept,
            segments,
            converted,
            begun,
        } => {
            put(text, b",\"kept\":");
            put_number(text, kept);
            put_segments(text, segments, converted);
            put(text, b",\"generations\":");
            put_number(text, begun);
            put(text, b"}\n");
        }
    }
}

// The counts, and what is printed beside them, as objects.
pub(crate) fn put_summary_json(
    text: &mut Vec<u8>,
    documents: u64,
    queries: u64,
    refused: u64,
    tail: Tail,
)
    requires { vec_len text.old + 256 ≤ vec_capacity text.old }
    ensures { text.new.items ≡ text.old.items ++ summary_text documents queries refused tail }
{
    put(text, b"{\"end\":{\"documents\":");
    put_number(text, documents);
    put(text, b",\"queries\":");
    put_number(text, queries);
    put(text, b",\"refused\":");
    put_number(text, refused);
    put_tail(text, tail);
}
