//! Adds the documents of many texts in one call, one after the other.
ghost use Rattle.std.specs.Prelude.{◌≡◌, ◌≢◌};
ghost use Rattle.eb_engine.specs.Tokens.{HistoryToken};
ghost use Rattle.feed_shared.specs.Turns.{WriterToken};
ghost use Rattle.eb_c.specs.AddingMany.{AddsEach, WriterAddsText, LeaderAddsText};
ghost use Rattle.eb_c.specs.Sharing.{kind_of, LeadsToWriter};
ghost use Rattle.eb_c.specs.Streaming.{LeadsToLeader};

use crate::dialects::Reading;
use crate::handle::{BAD_HANDLE, Handle};
use crate::held::Held;
use crate::reading::document_as;
use crate::{sharing, streaming};
use std::alloc::Global;

/// The id and the text of a document.
#[repr(C)]
#[derive(Clone, Copy, Debug)]
pub struct Text<'a> {
    /// The id.
    pub id: u64,
    /// The text, which is UTF-8.
    pub text: &'a [u8],
}

/// Adds the documents of ids and texts, one after the other, each as `eb_writer_add_text_with`
/// does, until one is refused: 0 where all were added, else the number of that refusal. `added` is
/// how many were added before it, and these stay; 16 where the handle isn't that of a writer.
#[unsafe(no_mangle)]
pub extern "C" fn eb_writer_add_texts_with(
    alloc: Global,
    writer: &mut Handle,
    how: &Reading<'_>,
    texts: &[Text<'_>],
    added: &mut u64,
) -> u32
    ensures added { (w : HistoryToken) → LeadsToWriter writer.old.seal.held w
        → (v : HistoryToken) × LeadsToWriter writer.new.seal.held v × AddsEach (WriterAddsText how.now) texts.now w added.new result v }
    ensures bad { kind_of writer.old.seal.held ≢ 1 → (result ≡ 16) × (added.new ≡ 0) × (writer.new.seal.held ≡ writer.old.seal.held) }
{
    if writer.kind != 1 {
        *added = 0;
        return BAD_HANDLE;
    }
    add_each_by(alloc, writer, how, texts, added)
}

/// Adds the documents of ids and texts as `eb_writer_add_texts_with` does, each as
/// `eb_leader_add_text_with` does; 16 where the handle isn't that of a leader.
#[unsafe(no_mangle)]
pub extern "C" fn eb_leader_add_texts_with(
    alloc: Global,
    leader: &mut Handle,
    how: &Reading<'_>,
    texts: &[Text<'_>],
    added: &mut u64,
) -> u32
    ensures added { (w : WriterToken) → LeadsToLeader leader.old.seal.held w
        → (v : WriterToken) × LeadsToLeader leader.new.seal.held v × AddsEach (LeaderAddsText how.now) texts.now w added.new result v }
    ensures bad { kind_of leader.old.seal.held ≢ 4 → (result ≡ 16) × (added.new ≡ 0) × (leader.new.seal.held ≡ leader.old.seal.held) }
{
    if leader.kind != 4 {
        *added = 0;
        return BAD_HANDLE;
    }
    add_each_by(alloc, leader, how, texts, added)
}

// Adds texts to what the handle leads to, one after the other until one is refused.
fn add_each_by(
    alloc: Global,
    handle: &mut Handle,
    how: &Reading<'_>,
    texts: &[Text<'_>],
    added: &mut u64,
) -> u32
    ensures writer { (w : HistoryToken) → LeadsToWriter handle.old.seal.held w
        → (v : HistoryToken) × LeadsToWriter handle.new.seal.held v × AddsEach (WriterAddsText how.now) texts.now w added.new result v }
    ensures leader { (w : WriterToken) → LeadsToLeader handle.old.seal.held w
        → (v : WriterToken) × LeadsToLeader handle.new.seal.held v × AddsEach (LeaderAddsText how.now) texts.now w added.new result v }
{
    let Some(held) = handle.take(alloc) else {
        *added = 0;
        return BAD_HANDLE;
    };
    let mut held = held;
    let number = add_each(alloc, &mut held, how, texts, added);
    *handle = Handle::of(held);
    number
}

// Adds texts one after the other until one is refused.
fn add_each(
    alloc: Global,
    held: &mut Held,
    how: &Reading<'_>,
    texts: &[Text<'_>],
    added: &mut u64,
) -> u32
    ensures writer { (w : HistoryToken) → held.old ≡ Held.Writer w
        → (v : HistoryToken) × (held.new ≡ Held.Writer v) × AddsEach (WriterAddsText how.now) texts.now w added.new result v }
    ensures leader { (w : WriterToken) → held.old ≡ Held.Leader w
        → (v : WriterToken) × (held.new ≡ Held.Leader v) × AddsEach (LeaderAddsText how.now) texts.now w added.new result v }
{
    for (at, text) in texts.iter().enumerate() {
        let number = add_text(alloc, held, how, text);
        if number != 0 {
            *added = at as u64;
            return number;
        }
    }
    *added = texts.len() as u64;
    0
}

// Adds a text: 0, or the number of the refusal.
fn add_text(alloc: Global, held: &mut Held, how: &Reading<'_>, text: &Text<'_>) -> u32
    ensures writer { (w : HistoryToken) → held.old ≡ Held.Writer w
        → (v : HistoryToken) × (held.new ≡ Held.Writer v) × WriterAddsText how.now text.now w result v }
    ensures leader { (w : WriterToken) → held.old ≡ Held.Leader w
        → (v : WriterToken) × (held.new ≡ Held.Leader v) × LeaderAddsText how.now text.now w result v }
{
    let read = document_as(alloc, how, text.id, text.text);
    match held {
        Held::Writer(_) => sharing::add_read(held, read),
        Held::Leader(_) => streaming::add_read(held, read),
        _ => BAD_HANDLE,
    }
}
