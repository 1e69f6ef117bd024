//! What the placer stores and in which order, and where it begins the next segment.
ghost use Rattle.eb_place.specs.declared.moment.Moment.{Moment};
ghost use Rattle.eb_flat.specs.Flat.{StandsFor};
ghost use Rattle.eb_writer.specs.Progress.{PlacerStands};

use super::made::{added, document, word_at};
use crate::RecordingPen;
use eb_base::{Config, Document};
use eb_flat::FlatWords;
use eb_writer::Placer;
use std::alloc::Global;
use std::test::Fail;

// The stores of a document of the id 7 and the text `ab b ab`, in order: each a place and a value.
const STORES: [(u64, u64); 17] = [
    (1, 1),
    (4099, 2),
    (4100, 25185),
    (2051, 0),
    (1060, 1),
    (8196, 0),
    (3075, 1),
    (4101, 1),
    (4102, 98),
    (2052, 2),
    (101, 2),
    (8198, 1),
    (3076, 3),
    (8197, 2),
    (3075, 2),
    (8195, 7),
    (0, 1),
];

#[test]
fn a_document_is_stored_word_by_word(rt: HostRuntime) -> Result<(), Fail> {
    let alloc = rt.alloc();
    let config = Config::new(2, 1, 1024)?;
    let first = document(alloc, 7, b"ab b ab")?;
    let second = document(alloc, 8, b"b")?;
    let mut pen = RecordingPen::new(alloc, config)?;
    let mut placer = Placer::new(config);
    let one = added(&mut placer, &mut pen, &first);
    assert_eq!(rt; pen.stores(), STORES.as_slice());
    let two = added(&mut placer, &mut pen, &second);
    assert_eq!(rt; (one, two), (Some(1), Some(2)));
    assert_eq!(rt; pen.stores().get(17), Some(&(78852, 2)));
    assert!(rt; !pen.has_lost());
    Ok(())
}

// What each of this many adds of a document answers.
fn counts(
    alloc: Global,
    words: &mut FlatWords,
    placer: &mut Placer,
    document: &Document,
    times: usize,
) -> Result<Vec<Option<u64>>, Fail>
    requires { (m : Moment) × StandsFor words.old m × PlacerStands placer.old m }
{
    let mut counts = Vec::new(alloc);
    for _ in 0..times {
        counts.push(added(placer, words, document))?;
    }
    Ok(counts)
}

// Two segments of two documents have room for four.
const COUNTS: [Option<u64>; 5] = [Some(1), Some(2), Some(3), Some(4), None];

#[test]
fn four_documents_have_room(rt: HostRuntime) -> Result<(), Fail> {
    let config = Config::new(2, 2, 1024)?;
    let document = document(rt.alloc(), 7, b"a")?;
    let mut words = FlatWords::new(rt.alloc(), config)?;
    let mut placer = Placer::new(config);
    let counts = counts(rt.alloc(), &mut words, &mut placer, &document, 5)?;
    assert_eq!(rt;
        (counts.as_slice(), placer.segments()),
        (COUNTS.as_slice(), 2)
    );
    Ok(())
}

#[test]
fn what_a_writer_stores_in_a_vector_is_loaded(rt: HostRuntime) -> Result<(), Fail> {
    let config = Config::usual();
    let document = document(rt.alloc(), 7, b"")?;
    let mut words = FlatWords::new(rt.alloc(), config)?;
    let mut placer = Placer::new(config);
    let before = word_at(&mut words, 1);
    let count = added(&mut placer, &mut words, &document);
    let after = word_at(&mut words, 1);
    assert_eq!(rt; (before, count, after), (Some(0), Some(1), Some(1)));
    Ok(())
}
