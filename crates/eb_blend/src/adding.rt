//! Documents are added one after the other, and all parts add concurrently.
//!
//! Where the ids of documents rise, none is refused as not rising, even if its part refuses some as
//! full. So no part waits for another: each looks at all of them on a thread of its own, adds those
//! that go to it, and notes for which it had no room. A document whose id doesn't rise begins the
//! next run, where the last id is known.
ghost use Rattle.std.specs.Prelude.{◌≡◌, ◌+◌, ◌≤◌, ◌<◌, ◌++◌, ℕ, [], length, get_or, take, vec_len, vec_capacity};
ghost use Rattle.std.specs.Prelude.{Some, None, Result, Ok, IfSome, IfOk, All};
ghost use Rattle.eb_base.specs.Document.{Doc};
ghost use Rattle.eb_base.specs.Setting.{Setting};
ghost use Rattle.eb_table.specs.Known.{Words};
ghost use Rattle.eb_blend.specs.Parts.{indexes_of, histories_of, lengths_of, counted};
ghost use Rattle.eb_blend.specs.Adding.{outcomes_of, with_items, IsRising, AreRising, newest, HasTurned};
ghost use Rattle.eb_blend.specs.Adding.{part_with_document, is_without_room, part_with, is_full};
ghost use Rattle.eb_blend.specs.Adding.{writers_of, fulls_of, blend_writer, turns_writer, IsFor, told_item, told_from, last_after as is_last_after, last_from};

use crate::refusal::BlendRefusal;
use eb_base::{Document, Gate, NoMemory};
use eb_beside::each_place;
use eb_engine::{Index, Writer};
use std::alloc::Global;
use std::mem;
use std::thread::Threads;

// A part's writer while documents are added, and for which of them it had no room.
#[derive(Drop)]
pub(crate) struct Turn {
    writer: Writer,
    full: Vec<bool>,
}

// How few items are worth threads: a thread costs some 26 microseconds, as much as ten documents.
const LEAST_ITEMS: usize = 32;

// ---- one part

// Adds a document that goes to this part, and returns whether there is no room for it.
fn add_document<G: Gate>(
    parts: usize,
    part: usize,
    index: &Index,
    writer: &mut Writer,
    document: &Document,
    gate: &G,
) -> bool
    requires parts { 0 < parts }
    requires made { writer.old.index ≡ index.now }
    ensures index { writer.new.index ≡ writer.old.index }
    ensures docs { writer.new.docs ≡ part_with_document index.now.setting parts part writer.old.docs document.now }
    ensures full { result ≡ is_without_room index.now.setting parts part writer.old.docs document.now }
{
    if document.id() % parts as u64 != part as u64 {
        return false;
    }
    writer.add(index, document, gate).is_err()
}

// Adds an item that is a document of this part, and returns whether there is no room for it.
fn add_item<E, G: Gate>(
    parts: usize,
    part: usize,
    index: &Index,
    writer: &mut Writer,
    item: &Result<Document, E>,
    gate: &G,
) -> bool
    requires parts { 0 < parts }
    requires made { writer.old.index ≡ index.now }
    ensures index { writer.new.index ≡ writer.old.index }
    ensures docs { writer.new.docs ≡ part_with index.now.setting parts part writer.old.docs item.now }
    ensures full { result ≡ is_full index.now.setting parts part writer.old.docs item.now }
{
    match item {
        Ok(document) => add_document(parts, part, index, writer, document, gate),
        Err(_) => false,
    }
}

// Adds the items that are documents of this part, one after the other.
fn take_turn<E, G: Gate>(
    parts: usize,
    part: usize,
    index: &Index,
    turn: &mut Turn,
    items: &[Result<Document, E>],
    gate: &G,
)
    requires parts { 0 < parts }
    requires made { turn.old.writer.index ≡ index.now }
    requires room { length items.now ≤ length turn.old.full.items }
    ensures { HasTurned index.now.setting parts part items.now turn.old turn.new }
{
    for at in 0..items.len() {
        turn.full[at] = add_item(parts, part, index, &mut turn.writer, &items[at], gate);
    }
}

// ---- all parts

// Each part takes its turn: all at once, on threads of their own, where there are some items.
fn take_turns<R: Threads + Sync, E: Sync, G: Gate + Sync>(
    rt: &R,
    indexes: &[Index],
    turns: &mut [Turn],
    items: &[Result<Document, E>],
    gate: &G,
)
    requires some { 0 < length turns.old }
    requires made { indexes_of (writers_of turns.old) ≡ indexes.now }
    requires room { All (λ t. length items.now ≤ length t.full.items) turns.old }
    ensures turned { (p : ℕ) (w : Words) (t : Turn) → p < length turns.old → w ≡ get_or indexes.now p w
        → HasTurned w.setting (length indexes.now) p items.now (get_or turns.old p t) (get_or turns.new p t) }
{
    let parts = indexes.len();
    each_place(
        rt,
        turns,
        items.len() >= LEAST_ITEMS,
        &|part: usize, turn: &mut Turn|
            requires place { part < length indexes.now }
            requires parts { parts ≡ length indexes.now }
            requires made { (w : Words) → w ≡ get_or indexes.now part w → turn.now.writer.index ≡ w }
            requires room { length items.now ≤ length turn.now.full.items }
            ensures { (w : Words) → w ≡ get_or indexes.entry.now part w → HasTurned w.setting parts part items.entry.now turn.entry.now turn.exit.now }
        { take_turn(parts, part, &indexes[part], turn, items, gate) },
    );
}

// ---- ids that rise

// The last id, where the item is a document whose id isn't above it.
fn low_id<E>(last: Option<u64>, item: &Result<Document, E>) -> Option<u64>
    ensures some { IfSome result (λ found. (last ≡ Some found) × ((d : Doc) × (item.now ≡ Ok d) × (d.id ≤ found))) }
    ensures none { result ≡ None → IsRising last item.now }
{
    match (last, item) {
        (Some(found), Ok(document)) if document.id() <= found => Some(found),
        _ => None,
    }
}

// The last id, or that of the item where it is a document.
fn newest_id<E>(last: Option<u64>, item: &Result<Document, E>) -> Option<u64>
    ensures { result ≡ newest last item.now }
{
    match item {
        Ok(document) => Some(document.id()),
        Err(_) => last,
    }
}

// How many items from the first on have ids that rise; the first has.
fn rising_front<E>(last: Option<u64>, items: &[Result<Document, E>]) -> usize
    requires some { 0 < length items.now }
    requires first { (x : Result Doc E) → x ≡ get_or items.now 0 x → IsRising last x }
    ensures some { 0 < result }
    ensures most { result ≤ length items.now }
    ensures rising { AreRising last (take result items.now) }
{
    let mut last = newest_id(last, &items[0]);
    for at in 1..items.len() {
        if low_id(last, &items[at]).is_some() {
            return at;
        }
        last = newest_id(last, &items[at]);
    }
    items.len()
}

// ---- what the parts say

// What the parts say of an item.
fn told_of<E>(turns: &[Turn], at: usize, item: &Result<Document, E>) -> Option<BlendRefusal>
    requires some { 0 < length turns.now }
    requires few { length turns.now ≤ 16 }
    requires long { All (λ t. at < length t.full.items) turns.now }
    ensures { result ≡ told_item (fulls_of turns.now) at item.now }
{
    let Ok(document) = item else {
        return None;
    };
    let part = (document.id() % turns.len() as u64) as usize;
    if turns[part].full[at] {
        return Some(BlendRefusal::Full { part: part as u32 });
    }
    None
}

// The last id after an item of which this came.
fn last_id<E>(
    outcome: Option<BlendRefusal>,
    last: Option<u64>,
    item: &Result<Document, E>,
) -> Option<u64>
    ensures { result ≡ is_last_after outcome last item.now }
{
    match (outcome, item) {
        (None, Ok(document)) => Some(document.id()),
        _ => last,
    }
}

// Puts what the parts say of each item after the outcomes, and returns the last id.
fn gather<E>(
    turns: &[Turn],
    items: &[Result<Document, E>],
    last: Option<u64>,
    outcomes: &mut Vec<Option<BlendRefusal>>,
) -> Option<u64>
    requires some { 0 < length turns.now }
    requires few { length turns.now ≤ 16 }
    requires long { All (λ t. length items.now ≤ length t.full.items) turns.now }
    requires room { vec_len outcomes.old + length items.now ≤ vec_capacity outcomes.old }
    ensures outcomes { outcomes.new.items ≡ outcomes.old.items ++ told_from (fulls_of turns.now) 0 items.now }
    ensures len { vec_len outcomes.new ≡ vec_len outcomes.old + length items.now }
    ensures capacity { vec_capacity outcomes.old ≤ vec_capacity outcomes.new }
    ensures last { result ≡ last_from (fulls_of turns.now) 0 last items.now }
{
    let mut last = last;
    for at in 0..items.len() {
        let outcome = told_of(turns, at, &items[at]);
        last = last_id(outcome, last, &items[at]);
        outcomes.push_reserved(outcome);
    }
    last
}

// Adds items whose ids rise, all parts concurrently; puts what came of each after the outcomes, and
// returns the last id.
fn add_run<R: Threads + Sync, E: Sync, G: Gate + Sync>(
    rt: &R,
    indexes: &[Index],
    turns: &mut [Turn],
    last: Option<u64>,
    items: &[Result<Document, E>],
    gate: &G,
    outcomes: &mut Vec<Option<BlendRefusal>>,
) -> Option<u64>
    requires some { 0 < length turns.old }
    requires few { length turns.old ≤ 16 }
    requires made { indexes_of (writers_of turns.old) ≡ indexes.now }
    requires long { All (λ t. length items.now ≤ length t.full.items) turns.old }
    requires room { vec_len outcomes.old + length items.now ≤ vec_capacity outcomes.old }
    requires rising { AreRising last items.now }
    ensures writers { (σ : Setting) → All (λ w. w.setting ≡ σ) indexes.now
        → turns_writer turns.new result ≡ with_items σ (turns_writer turns.old last) items.now }
    ensures outcomes { (σ : Setting) → All (λ w. w.setting ≡ σ) indexes.now
        → outcomes.new.items ≡ outcomes.old.items ++ outcomes_of σ (turns_writer turns.old last) items.now }
    ensures made { indexes_of (writers_of turns.new) ≡ indexes.now }
    ensures number { length turns.new ≡ length turns.old }
    ensures long { (n : ℕ) → All (λ t. n ≤ length t.full.items) turns.old → All (λ t. n ≤ length t.full.items) turns.new }
    ensures len { vec_len outcomes.new ≡ vec_len outcomes.old + length items.now }
    ensures capacity { vec_capacity outcomes.old ≤ vec_capacity outcomes.new }
{
    take_turns(rt, indexes, turns, items, gate);
    gather(turns, items, last, outcomes)
}

// Adds items, run after run of ids that rise; puts what came of each after the outcomes, and
// returns the last id.
fn add_items<R: Threads + Sync, E: Sync, G: Gate + Sync>(
    rt: &R,
    indexes: &[Index],
    turns: &mut [Turn],
    last: Option<u64>,
    items: &[Result<Document, E>],
    gate: &G,
    outcomes: &mut Vec<Option<BlendRefusal>>,
) -> Option<u64>
    requires some { 0 < length turns.old }
    requires few { length turns.old ≤ 16 }
    requires made { indexes_of (writers_of turns.old) ≡ indexes.now }
    requires long { All (λ t. length items.now ≤ length t.full.items) turns.old }
    requires room { vec_len outcomes.old + length items.now ≤ vec_capacity outcomes.old }
    ensures writers { (σ : Setting) → All (λ w. w.setting ≡ σ) indexes.now
        → turns_writer turns.new result ≡ with_items σ (turns_writer turns.old last) items.now }
    ensures outcomes { (σ : Setting) → All (λ w. w.setting ≡ σ) indexes.now
        → outcomes.new.items ≡ outcomes.old.items ++ outcomes_of σ (turns_writer turns.old last) items.now }
    ensures made { indexes_of (writers_of turns.new) ≡ indexes.now }
    ensures number { length turns.new ≡ length turns.old }
{
    let mut last = last;
    let mut rest = items;
    'runs: while !rest.is_empty() {
        if let Some(found) = low_id(last, &rest[0]) {
            outcomes.push_reserved(Some(BlendRefusal::NotRising { last: found }));
            let (_, behind) = rest.split_at(1);
            rest = behind;
        } else {
            let (run, behind) = rest.split_at(rising_front(last, rest));
            last = add_run(rt, indexes, turns, last, run, gate, outcomes);
            rest = behind;
        }
    }
    last
}

// ---- the writers' turns

// Room for each of `parts` parts to note for which of `items` items it has no room.
fn rooms(alloc: Global, parts: usize, items: usize) -> Result<Vec<Vec<bool>>, NoMemory>
    ensures number { IfOk result (λ r. vec_len r ≡ parts) }
    ensures long { IfOk result (λ r. All (λ full. length full.items ≡ items) r.items) }
{
    let mut rooms = Vec::with_capacity(alloc, parts)?;
    for _part in 0..parts {
        rooms.push(vec![in alloc; false; items]?)?;
    }
    Ok(rooms)
}

// Takes the writers, in order, each with its room.
fn begin_turns(writers: &mut Vec<Writer>, rooms: &mut Vec<Vec<bool>>, turns: &mut Vec<Turn>)
    requires rooms { vec_len rooms.old ≡ vec_len writers.old }
    requires none { turns.old.items ≡ [] }
    requires empty { vec_len turns.old ≡ 0 }
    requires room { vec_len writers.old ≤ vec_capacity turns.old }
    ensures writers { writers_of turns.new.items ≡ writers.old.items }
    ensures long { (n : ℕ) → All (λ full. length full.items ≡ n) rooms.old.items → All (λ t. n ≤ length t.full.items) turns.new.items }
{
    while let Some(full) = rooms.pop() {
        let writer = writers.remove(0);
        turns.push_reserved(Turn { writer, full });
    }
}

// Puts the writers back, in order.
fn end_turns(turns: &mut Vec<Turn>, writers: &mut Vec<Writer>)
    requires none { writers.old.items ≡ [] }
    requires empty { vec_len writers.old ≡ 0 }
    requires room { vec_len turns.old ≤ vec_capacity writers.old }
    ensures { writers.new.items ≡ writers_of turns.old.items }
{
    while !turns.is_empty() {
        let turn = turns.remove(0);
        writers.push_reserved(turn.writer);
    }
}

// The memory of documents that are added: the writers' turns, with room for what they note, the
// writers afterwards, and what came of each item.
#[derive(Drop)]
pub(crate) struct Space {
    turns: Vec<Turn>,
    rooms: Vec<Vec<bool>>,
    writers: Vec<Writer>,
    pub(crate) outcomes: Vec<Option<BlendRefusal>>,
}

impl Space {
    // For this many parts and items.
    pub(crate) fn new(alloc: Global, parts: usize, items: usize) -> Result<Space, NoMemory>
        ensures { IfOk result (IsFor parts items) }
    {
        let outcomes = Vec::with_capacity(alloc, items)?;
        let writers = Vec::with_capacity(alloc, parts)?;
        let turns = Vec::with_capacity(alloc, parts)?;
        let rooms = rooms(alloc, parts, items)?;
        Ok(Space {
            turns,
            rooms,
            writers,
            outcomes,
        })
    }
}

// Adds items, and returns the last id; what came of each is in the space afterwards. Takes no
// memory.
pub(crate) fn add_with<R: Threads + Sync, E: Sync, G: Gate + Sync>(
    rt: &R,
    indexes: &[Index],
    space: &mut Space,
    writers: &mut Vec<Writer>,
    last: Option<u64>,
    items: &[Result<Document, E>],
    gate: &G,
) -> Option<u64>
    requires some { 0 < length indexes.now }
    requires few { length indexes.now ≤ 16 }
    requires made { indexes_of writers.old.items ≡ indexes.now }
    requires space { IsFor (length indexes.now) (length items.now) space.old }
    ensures writers { (σ : Setting) → All (λ w. w.setting ≡ σ) indexes.now
        → blend_writer writers.new.items result ≡ with_items σ (blend_writer writers.old.items last) items.now }
    ensures outcomes { (σ : Setting) → All (λ w. w.setting ≡ σ) indexes.now
        → space.new.outcomes.items ≡ outcomes_of σ (blend_writer writers.old.items last) items.now }
{
    begin_turns(writers, &mut space.rooms, &mut space.turns);
    let last = add_items(
        rt,
        indexes,
        space.turns.as_mut_slice(),
        last,
        items,
        gate,
        &mut space.outcomes,
    );
    end_turns(&mut space.turns, &mut space.writers);
    mem::swap(writers, &mut space.writers);
    last
}

// The sum of the lengths of the histories.
pub(crate) fn count_all(writers: &[Writer]) -> u64
    ensures { result ≡ counted (lengths_of (histories_of writers.now)) }
{
    let mut count = 0u64;
    for writer in writers {
        count = count.saturating_add(writer.accepted());
    }
    count
}
