//! Shared words: a reader walks a dictionary and a chain on a second thread while the writer adds
//! documents, and seats meet.
ghost use Rattle.std.specs.Prelude.{◌≡◌, ◌<◌};
ghost use Rattle.eb_place.specs.declared.moment.Moment.{Moment};
ghost use Rattle.eb_table.specs.Known.{MadeWith};
ghost use Rattle.eb_writer.specs.Progress.{PlacerStands};

use super::chains::open;
use super::made::document;
use eb_base::{Config, Document, Term};
use eb_place::{PLACES, Port, Steps};
use eb_table::{
    ConverterPort, ConverterSeat, ReaderPort, ReaderSeat, SharedWords, WriterPort, WriterSeat,
};
use eb_writer::{Full, Placer};
use std::marker::Brand;
use std::sync::ledger::{Blank, Ledger};
use std::test::Fail;
use std::thread;
use std::thread::Threads;

// How many documents are added.
const DOCUMENTS: u32 = 200;

// Adds a document: the new count, or none where there is no room.
fn add_shared(
    placer: &mut Placer,
    seat: &mut WriterSeat,
    words: &SharedWords,
    document: &Document,
) -> Option<u64>
    requires made { MadeWith seat.old words.now }
    requires stands { PlacerStands placer.old seat.old.moment }
    ensures made { MadeWith seat.new words.now }
    ensures stands { PlacerStands placer.new seat.new.moment }
{
    let mut pen = WriterPort { seat, words };
    match placer.add(&mut pen, document) {
        Ok(count) => Some(count),
        Err(Full) => None,
    }
}

// Adds the document again and again: the last count.
fn add_beside(
    words: &SharedWords,
    seat: WriterSeat,
    placer: Placer,
    document: &Document,
) -> (WriterSeat, u64)
    requires made { MadeWith seat words.now }
    requires stands { PlacerStands placer seat.moment }
    ensures { MadeWith result.0 words.now }
{
    let mut seat = seat;
    let mut placer = placer;
    let mut last = 0;
    for _ in 0..DOCUMENTS {
        if let Some(count) = add_shared(&mut placer, &mut seat, words, document) {
            last = count;
        }
        thread::yield_now();
    }
    (seat, last)
}

// Walks the chain of a term to its end, where it is entered: how many postings it gave, if they are
// those of the first position of some first documents, newest first.
fn walked<P: Port, L: Ledger>(port: &mut P, term: &Term, steps: &mut Steps<L>) -> Option<u32>
    requires { (m : Moment) × P.stands port.old m }
{
    let Some(mut chain) = open(port, term, steps) else {
        return Some(0);
    };
    let mut count = 0u32;
    let mut left = 0u32;
    for _ in 0..DOCUMENTS + 1 {
        let Some(posting) = chain.next(port, steps) else {
            return if left == 0 { Some(count) } else { None };
        };
        if count == 0 {
            count = u32::try_from(posting / PLACES)
                .unwrap_or(0)
                .saturating_add(1);
            left = count;
        }
        if left == 0 || posting != u64::from(left - 1).saturating_mul(PLACES) {
            return None;
        }
        left -= 1;
    }
    None
}

// A walk by a reader's seat.
fn walk_shared<L: Ledger>(
    words: &SharedWords,
    seat: ReaderSeat,
    term: &Term,
    blank: Blank,
) -> Option<u32>
    requires blank { (blank.name ≡ L.name) × (blank.parts ≡ L.parts) × (0 < blank.parts) }
    requires made { MadeWith seat words.now }
{
    let mut seat = seat;
    let mut steps = Steps::<L>::new(blank);
    let mut port = ReaderPort {
        seat: &mut seat,
        words,
    };
    walked(&mut port, term, &mut steps)
}

// Walks until the postings of all documents are seen: whether each walk gave those of some first
// documents, and none of fewer than the walk before.
fn walk_beside(words: &SharedWords, seat: ReaderSeat, term: &Term) -> (ReaderSeat, bool)
    requires { MadeWith seat words.now }
    ensures { MadeWith result.0 words.now }
{
    let mut seat = seat;
    let mut last = 0;
    for _ in 0..u64::MAX {
        let other = seat.split(words);
        let Some(count) = walk_shared::<Brand>(words, other, term, Blank::new(1)) else {
            return (seat, false);
        };
        if count < last || count == DOCUMENTS {
            return (seat, count == DOCUMENTS);
        }
        last = count;
    }
    (seat, false)
}

// One thread adds documents, and the other walks.
fn beside<R: Threads + Sync>(
    rt: &R,
    words: &SharedWords,
    writer: WriterSeat,
    placer: Placer,
    document: &Document,
    reader: ReaderSeat,
    term: &Term,
) -> ((WriterSeat, u64), (ReaderSeat, bool))
    requires writer { MadeWith writer words.now }
    requires placer { PlacerStands placer writer.moment }
    requires reader { MadeWith reader words.now }
    ensures writer { MadeWith result.0.0 words.now }
    ensures reader { MadeWith result.1.0 words.now }
{
    thread::join(
        rt,
        move || -> (WriterSeat, u64)
            requires { MadeWith writer words.now × PlacerStands placer writer.moment }
            ensures { MadeWith result.0 words.entry.now }
        { add_beside(words, writer, placer, document) },
        move || -> (ReaderSeat, bool)
            requires { MadeWith reader words.now }
            ensures { MadeWith result.0 words.entry.now }
        { walk_beside(words, reader, term) },
    )
}

// The count of accepted documents, by a port.
fn count_by<P: Port, L: Ledger>(port: &mut P, blank: Blank) -> u64
    requires blank { (blank.name ≡ L.name) × (blank.parts ≡ L.parts) × (0 < blank.parts) }
    requires port { (m : Moment) × P.stands port.old m }
{
    let mut steps = Steps::<L>::new(blank);
    if port.config().words() == 0 {
        return 0;
    }
    port.load(0, &mut steps)
}

// The same, with a counter of its own.
fn count_of<P: Port>(port: &mut P) -> u64
    requires { (m : Moment) × P.stands port.old m }
{
    count_by::<P, Brand>(port, Blank::new(1))
}

// Each kind of seat takes in a reader's, and then still loads: the counts by a reader, the writer
// and the converter.
fn counts_met(
    words: &SharedWords,
    reader: &mut ReaderSeat,
    writer: &mut WriterSeat,
    converter: &mut ConverterSeat,
) -> [u64; 3]
    requires reader { MadeWith reader.old words.now }
    requires writer { MadeWith writer.old words.now }
    requires converter { MadeWith converter.old words.now }
{
    let told = writer.split(words);
    reader.meet(words, told);
    let told = reader.split(words);
    converter.meet(words, told);
    let told = converter.split(words);
    writer.meet(words, told);
    let by_reader = count_of(&mut ReaderPort {
        seat: reader,
        words,
    });
    let by_writer = count_of(&mut WriterPort {
        seat: writer,
        words,
    });
    let by_converter = count_of(&mut ConverterPort {
        seat: converter,
        words,
    });
    [by_reader, by_writer, by_converter]
}

#[test]
fn a_reader_walks_beside_the_writer(rt: HostRuntime) -> Result<(), Fail> {
    let config = Config::new(1, DOCUMENTS, 1024)?;
    let added = document(rt.alloc(), 1, b"a")?;
    let term = Term::new(rt.alloc(), b"a")?;
    let Ok((words, mut writer, mut converter)) = SharedWords::open(rt.alloc(), config) else {
        return Err(Fail::new("no memory"));
    };
    let reader = writer.split(&words);
    let ((mut writer, last), (mut reader, walked)) = beside(
        &rt,
        &words,
        writer,
        Placer::new(config),
        &added,
        reader,
        &term,
    );
    let counts = counts_met(&words, &mut reader, &mut writer, &mut converter);
    let count = u64::from(DOCUMENTS);
    assert_eq!(rt; (last, walked, counts), (count, true, [count; 3]));
    Ok(())
}
