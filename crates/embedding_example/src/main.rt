//! A program that embeds the index: one thread adds messages, and two threads search while it does.
//!
//! The index is shared by reference. Its writer and its readers are values: each goes to its thread
//! and comes back. Each call's contract requires that they were made with this index, and promises
//! what is written beside it here.
#![tactic(auto)]

ghost use Rattle.std.specs.Prelude.{◌≡◌, ◌<◌, length, IfOk};
ghost use mathlib.Core.List.{IsPrefix};
ghost use Rattle.eb_base.specs.Match.{answer};
ghost use Rattle.eb_cursor.specs.Frames.{query_of, k_of, ids_of};

use eb_base::{Config, Document, NoMemory, OpenGate, Query, Term};
use eb_cursor::Frame;
use eb_engine::{Index, Reader, Writer};
use eb_text::tokens;
use std::alloc::Global;
use std::thread::Threads;
use std::{io, thread};

#[derive(Debug, Drop)]
enum Trouble {
    NoMemory,
    BadSetting,
    LongMessage,
    NoOutput,
}

impl From<NoMemory> for Trouble {
    fn from(_: NoMemory) -> Trouble {
        Trouble::NoMemory
    }
}

impl From<io::Error> for Trouble {
    fn from(_: io::Error) -> Trouble {
        Trouble::NoOutput
    }
}

// The messages, each with its id.
fn messages(alloc: Global) -> Result<Vec<Document>, Trouble> {
    let mut messages = Vec::new(alloc);
    for (id, text) in [
        (11, "Rain in Berlin"),
        (12, "Sun over Rome"),
        (13, "Rain again, and the trams are late"),
        (14, "From Rome to Berlin by train"),
    ] {
        let Ok(message) = Document::new(id, tokens(alloc, text)?) else {
            return Err(Trouble::LongMessage);
        };
        let Ok(()) = messages.push(message) else {
            return Err(Trouble::NoMemory);
        };
    }
    Ok(messages)
}

// A frame takes all memory that the searches of its query need. This one keeps up to ten ids.
fn frame(alloc: Global, word: &[u8]) -> Result<Frame, NoMemory> {
    Frame::new(alloc, Query::Word(Term::new(alloc, word)?), 10)
}

// Adds the messages. `Writer::add` puts each after the history, or answers that there is no room
// for it, and takes no memory. Each document is reported to the gate; this one does nothing.
fn add_all(index: &Index, writer: Writer, messages: &[Document]) -> Writer
    requires { writer.index ≡ index.now }
    ensures { result.index ≡ index.now }
{
    let mut writer = writer;
    for message in messages {
        let Ok(_count) = writer.add(index, message, &OpenGate) else {
            return writer;
        };
        thread::yield_now();
    }
    writer
}

// Searches until it sees this many documents. Then the frame holds the answer over all that the
// reader knows.
fn search_until(index: &Index, reader: Reader, frame: Frame, documents: u64) -> (Reader, Frame)
    requires { reader.index ≡ index.now }
    ensures index { result.0.index ≡ index.now }
    ensures known { IsPrefix reader.docs result.0.docs }
{
    let mut reader = reader;
    let mut frame = frame;
    for _ in 0..u64::MAX {
        // Its result is how many documents it saw: the first ones of the history, all that the
        // reader knew among them. The ids are those of exactly the newest of these that match.
        let seen = reader.search_unmetered(index, &mut frame, &OpenGate);
        if seen >= documents {
            return (reader, frame);
        }
        thread::yield_now();
    }
    (reader, frame)
}

// The writer and two readers, each on a thread of its own.
fn run<R: Threads + Sync>(
    rt: &R,
    index: &Index,
    writer: Writer,
    readers: (Reader, Reader),
    frames: (Frame, Frame),
    messages: &[Document],
) -> (Writer, ((Reader, Frame), (Reader, Frame)))
    requires writer { writer.index ≡ index.now }
    requires readers { (readers.0.index ≡ index.now) × (readers.1.index ≡ index.now) }
    ensures writer { result.0.index ≡ index.now }
    ensures readers { (result.1.0.0.index ≡ index.now) × (result.1.1.0.index ≡ index.now) }
{
    let all = messages.len() as u64;
    thread::join(
        rt,
        move || -> Writer
            requires { writer.index ≡ index.now }
            ensures { result.index ≡ index.entry.now }
        { add_all(index, writer, messages) },
        move || -> ((Reader, Frame), (Reader, Frame))
            requires { (readers.0.index ≡ index.now) × (readers.1.index ≡ index.now) }
            ensures { (result.0.0.index ≡ index.entry.now) × (result.1.0.index ≡ index.entry.now) }
        { search_beside(rt, index, readers, frames, all) },
    )
}

// The two readers.
fn search_beside<R: Threads + Sync>(
    rt: &R,
    index: &Index,
    readers: (Reader, Reader),
    frames: (Frame, Frame),
    documents: u64,
) -> ((Reader, Frame), (Reader, Frame))
    requires { (readers.0.index ≡ index.now) × (readers.1.index ≡ index.now) }
    ensures { (result.0.0.index ≡ index.now) × (result.1.0.index ≡ index.now) }
{
    let (first, second) = readers;
    let (one, other) = frames;
    thread::join(
        rt,
        move || -> (Reader, Frame)
            requires { first.index ≡ index.now }
            ensures { result.0.index ≡ index.entry.now }
        { search_until(index, first, one, documents) },
        move || -> (Reader, Frame)
            requires { second.index ≡ index.now }
            ensures { result.0.index ≡ index.entry.now }
        { search_until(index, second, other, documents) },
    )
}

// An index of two segments of at most 100 messages and 1,024 terms each, and its writer. `open`
// takes all memory of the index.
fn opened(alloc: Global) -> Result<(Index, Writer), Trouble>
    ensures { IfOk result (λ made. made.1.index ≡ made.0) }
{
    let Ok(config) = Config::new(2, 100, 1024) else {
        return Err(Trouble::BadSetting);
    };
    match Index::open(alloc, config) {
        Ok((index, writer, _converter)) => Ok((index, writer)),
        Err(_) => Err(Trouble::NoMemory),
    }
}

// Prints what was found. A writer that meets a reader learns that what it knew is a prefix of the
// history.
fn report(
    rt: &impl Print,
    index: &Index,
    writer: Writer,
    rain: (Reader, Frame),
    berlin: (Reader, Frame),
) -> io::Result<()>
    requires writer { writer.index ≡ index.now }
    requires readers { (rain.0.index ≡ index.now) × (berlin.0.index ≡ index.now) }
{
    let mut writer = writer;
    let (first, rain) = rain;
    let (second, berlin) = berlin;
    writer.meet(index, first);
    writer.meet(index, second);
    println!(rt;
        "messages {}, segments {}",
        writer.accepted(),
        writer.segments()
    )?;
    println!(rt; "rain {:?}", rain.ids())?;
    println!(rt; "berlin {:?}", berlin.ids())
}

fn main(rt: HostRuntime) -> Result<(), Trouble> {
    let alloc = rt.alloc();
    let messages = messages(alloc)?;
    let frames = (frame(alloc, b"rain")?, frame(alloc, b"berlin")?);
    let (index, mut writer) = opened(alloc)?;
    // A reader of `Writer::reader` knows the whole history, which has no message yet.
    let readers = (writer.reader(&index), writer.reader(&index));
    let (writer, (rain, berlin)) = run(&rt, &index, writer, readers, frames, messages.as_slice());
    report(&rt, &index, writer, rain, berlin)?;
    Ok(())
}
