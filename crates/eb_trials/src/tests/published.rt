//! A search after each store: nothing of a document or of a conversion is seen before its last
//! store.
ghost use Rattle.std.specs.Prelude.{IfOk};
ghost use Rattle.eb_place.specs.declared.moment.Moment.{Moment};
ghost use Rattle.eb_place.specs.Moments.{empty_moment};
ghost use Rattle.eb_trials.specs.Recorded.{IsRecord};
ghost use Rattle.eb_writer.specs.Progress.{PlacerStands};

use super::asking::query;
use super::cursors::made;
use super::made::{added, document};
use super::queries::small_queries;
use crate::{Answer, SearchingPen};
use eb_base::{Config, Document};
use eb_convert::{Converted, convert_next};
use eb_cursor::Frame;
use eb_place::Port;
use eb_plain::newest;
use eb_writer::Placer;
use std::alloc::Global;
use std::test::Fail;

// An index without a document, searched by the query of this text for the newest 10 after each
// store.
fn searched(alloc: Global, config: Config, text: &[u8]) -> Result<SearchingPen, Fail>
    ensures { IfOk result (λ pen. IsRecord pen.pen (empty_moment config)) }
{
    let query = query(alloc, text)?;
    if !query.is_well_formed() {
        return Err(Fail::new("no such query"));
    }
    let frame = Frame::new(alloc, query, 10)?;
    Ok(SearchingPen::new(alloc, config, frame)?)
}

// What the converter does with the next segment, if there is one.
fn convert(pen: &mut SearchingPen) -> Option<Converted>
    requires { (m : Moment) × IsRecord pen.old.pen m }
    ensures { (m : Moment) × IsRecord pen.new.pen m }
{
    let segment = pen.recorded().converted();
    if segment >= pen.config().segments() || !pen.recorded().is_whole() {
        return None;
    }
    Some(convert_next(pen, segment))
}

// Whether this is an answer after this many stores, of this many documents, with these ids.
fn is_answer(answer: Option<&Answer>, stores: u64, seen: usize, ids: &[u64]) -> bool {
    match answer {
        Some(answer) => {
            answer.stores == stores && answer.seen == seen as u64 && answer.ids.as_slice() == ids
        }
        None => false,
    }
}

#[test]
fn a_document_is_seen_with_its_last_store(rt: HostRuntime) -> Result<(), Fail> {
    let alloc = rt.alloc();
    let config = Config::new(2, 1, 1024)?;
    let first = document(alloc, 7, b"ab b ab")?;
    let second = document(alloc, 8, b"b")?;
    let mut pen = searched(alloc, config, b"b ab |2")?;
    let mut placer = Placer::new(config);
    let one = (added(&mut placer, &mut pen, &first), pen.stores());
    let two = (added(&mut placer, &mut pen, &second), pen.stores());
    assert_eq!(rt; (one, two), ((Some(1), 17), (Some(2), 26)));
    let converted = convert(&mut pen);
    assert_eq!(rt; (converted, pen.stores()), (Some(Converted::One(0)), 32));
    assert!(rt; pen.answers().len() == 2 && !pen.has_lost());
    assert!(rt; is_answer(pen.answers().get(0), 17, 1, &[7]));
    assert!(rt; is_answer(pen.answers().get(1), 26, 2, &[8, 7]));
    Ok(())
}

// Adds the documents: whether the answer changes with the last store of each, to that of a scan of
// all so far.
fn are_seen_whole(
    alloc: Global,
    placer: &mut Placer,
    pen: &mut SearchingPen,
    text: &[u8],
    documents: &[Document],
) -> Result<bool, Fail>
    requires { (m : Moment) × IsRecord pen.old.pen m × PlacerStands placer.old m }
    ensures { (m : Moment) × IsRecord pen.new.pen m }
{
    let query = query(alloc, text)?;
    for at in 0..documents.len() {
        if added(placer, pen, &documents[at]).is_none() {
            return Ok(false);
        }
        let ids = newest(alloc, &query, 10, &documents[..=at])?;
        if pen.answers().len() != at + 1
            || !is_answer(pen.answers().last(), pen.stores(), at + 1, ids.as_slice())
        {
            return Ok(false);
        }
    }
    Ok(true)
}

// How many of this many calls of the converter convert a segment.
fn conversions(pen: &mut SearchingPen, calls: u32) -> u32
    requires { (m : Moment) × IsRecord pen.old.pen m }
{
    let mut converted = 0u32;
    for _ in 0..calls {
        if let Some(Converted::One(_)) = convert(pen) {
            converted = converted.saturating_add(1);
        }
    }
    converted
}

// Whether the answer to the query of this text changes with the last store of each document, as
// often as there are documents, and with none of 16 calls of the converter, 15 of which convert a
// segment.
fn are_answered(alloc: Global, text: &[u8], documents: &[Document]) -> Result<bool, Fail> {
    let config = Config::new(16, 7, 1024)?;
    let mut pen = searched(alloc, config, text)?;
    let mut placer = Placer::new(config);
    if !are_seen_whole(alloc, &mut placer, &mut pen, text, documents)? {
        return Ok(false);
    }
    let converted = conversions(&mut pen, 16);
    Ok(converted == 15 && pen.answers().len() == documents.len() && !pen.has_lost())
}

#[test]
fn answers_change_with_the_last_store_alone(rt: HostRuntime) -> Result<(), Fail> {
    let documents = made(rt.alloc(), 110)?;
    let texts = small_queries(rt.alloc())?;
    for text in texts.as_slice().iter().step_by(13) {
        let are = are_answered(rt.alloc(), text.as_slice(), documents.as_slice())?;
        assert!(rt; are, "{text:?}");
    }
    Ok(())
}
