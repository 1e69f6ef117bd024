//! Conversions store by store, and packed lists: walked, and leapt over.
ghost use Rattle.std.specs.Prelude.{◌≡◌, ◌<◌, ℕ, List, IfOk, MatchOption};
ghost use Rattle.eb_place.specs.declared.moment.Moment.{Moment};
ghost use Rattle.eb_block.specs.Reading.{ListStands};
ghost use Rattle.eb_trials.specs.Recorded.{IsRecord};
ghost use Rattle.eb_writer.specs.Progress.{PlacerStands};

use super::made::{add_all, added, document};
use crate::RecordingPen;
use eb_base::{Config, Document, Term};
use eb_block::PackedList;
use eb_convert::{Converted, convert_next};
use eb_place::{PLACES, Port, Posting, Steps};
use eb_terms::find;
use eb_writer::Placer;
use std::alloc::Global;
use std::marker::Brand;
use std::sync::ledger::{Blank, Ledger};
use std::test::Fail;

// An index that holds these documents.
fn placed(alloc: Global, config: Config, documents: &[Document]) -> Result<RecordingPen, Fail>
    ensures { IfOk result (λ pen. (m : Moment) × IsRecord pen m) }
{
    let mut pen = RecordingPen::new(alloc, config)?;
    let mut placer = Placer::new(config);
    if !add_all(&mut placer, &mut pen, documents) {
        return Err(Fail::new("full"));
    }
    Ok(pen)
}

// What the converter does with the next segment, if there is one.
fn convert(pen: &mut RecordingPen) -> Option<Converted>
    requires { (m : Moment) × IsRecord pen.old m }
    ensures { (m : Moment) × IsRecord pen.new m }
{
    let segment = pen.converted();
    if segment >= pen.config().segments() || !pen.is_whole() {
        return None;
    }
    Some(convert_next(pen, segment))
}

// What this many calls of the converter do.
pub(super) fn convert_all(
    alloc: Global,
    pen: &mut RecordingPen,
    times: usize,
) -> Result<Vec<Converted>, Fail>
    requires { (m : Moment) × IsRecord pen.old m }
    ensures { (m : Moment) × IsRecord pen.new m }
{
    let mut done = Vec::new(alloc);
    for _ in 0..times {
        if let Some(converted) = convert(pen) {
            done.push(converted)?;
        }
    }
    Ok(done)
}

// The words of a packed segment, in the order in which they are stored: each a place and a value.
const PUTS: [(u64, u64); 6] = [
    (44036, 131586),
    (44037, 2),
    (43012, 2),
    (44038, 65537),
    (43013, 8589934593),
    (2, 1),
];

#[test]
fn a_segment_is_converted_word_by_word(rt: HostRuntime) -> Result<(), Fail> {
    let alloc = rt.alloc();
    let documents = [document(alloc, 7, b"ab b ab")?, document(alloc, 8, b"b")?];
    let mut pen = placed(alloc, Config::new(2, 1, 1024)?, &documents)?;
    let done = convert_all(alloc, &mut pen, 3)?;
    let want = [Converted::One(0), Converted::Nothing, Converted::Nothing];
    assert_eq!(rt; done.as_slice(), want.as_slice());
    assert_eq!(rt; pen.puts(), PUTS.as_slice());
    assert!(rt; !pen.has_lost());
    Ok(())
}

// How many documents there are, and how many segments are converted.
const CLOSED: [(u64, u32); 7] = [(0, 0), (1, 0), (2, 0), (3, 1), (4, 1), (5, 2), (6, 2)];

// How many segments of an index of this many documents are converted, and what the last call of the
// converter does.
fn converted(alloc: Global, count: u64) -> Result<(u32, Option<Converted>), Fail> {
    let mut documents = Vec::new(alloc);
    for id in 0..count {
        documents.push(document(alloc, id, b"a")?)?;
    }
    let mut pen = placed(alloc, Config::new(3, 2, 1024)?, documents.as_slice())?;
    let done = convert_all(alloc, &mut pen, 4)?;
    Ok((pen.converted(), done.as_slice().last().copied()))
}

#[test]
fn what_is_not_closed_is_not_converted(rt: HostRuntime) -> Result<(), Fail> {
    for (count, segments) in CLOSED {
        let left = converted(rt.alloc(), count)?;
        assert_eq!(rt; left, (segments, Some(Converted::Nothing)), "{count}");
    }
    Ok(())
}

// Opens the packed list of a term in segment 0, if the segment is converted and has the term.
pub(super) fn open<L: Ledger>(
    pen: &mut RecordingPen,
    term: &Term,
    steps: &mut Steps<L>,
) -> Option<PackedList>
    requires { (m : Moment) × IsRecord pen.old m }
    ensures list { MatchOption result (Unit {0}) (λ list. (m : Moment) × (s : ℕ) × (t : List ℕ) × (rest : List ℕ) × (budget : ℕ)
        × IsRecord pen.old m × ListStands m s t list rest budget) }
    ensures same { pen.new ≡ pen.old }
{
    if pen.converted() == 0 {
        return None;
    }
    if pen.config().segments() == 0 {
        return None;
    }
    let Some(number) = find(pen, 0, term, steps) else {
        return None;
    };
    Some(PackedList::open(pen, 0, number, steps))
}

// What this many calls of a list's `next` give.
fn ask<L: Ledger>(
    alloc: Global,
    mut list: PackedList,
    pen: &mut RecordingPen,
    times: usize,
    steps: &mut Steps<L>,
) -> Result<Vec<Option<Posting>>, Fail>
    requires { (m : Moment) × (s : ℕ) × (t : List ℕ) × (rest : List ℕ) × (budget : ℕ) × IsRecord pen.old m × ListStands m s t list rest budget }
    ensures { pen.new ≡ pen.old }
{
    let mut given = Vec::new(alloc);
    for _ in 0..times {
        given.push(list.next(pen, steps))?;
    }
    Ok(given)
}

// What `next` gives after a seek to each of these, each time from the same list.
pub(super) fn seek_each<L: Ledger>(
    alloc: Global,
    list: PackedList,
    pen: &mut RecordingPen,
    mosts: &[Posting],
    steps: &mut Steps<L>,
) -> Result<Vec<Option<Posting>>, Fail>
    requires { (m : Moment) × (s : ℕ) × (t : List ℕ) × (rest : List ℕ) × (budget : ℕ) × IsRecord pen.old m × ListStands m s t list rest budget }
    ensures { pen.new ≡ pen.old }
{
    let mut given = Vec::new(alloc);
    for most in mosts {
        let mut from = list;
        from.seek(pen, *most, steps);
        given.push(from.next(pen, steps))?;
    }
    Ok(given)
}

// What `next` gives after a seek to each of these, one after the other.
fn seek_on<L: Ledger>(
    alloc: Global,
    mut list: PackedList,
    pen: &mut RecordingPen,
    mosts: &[Posting],
    steps: &mut Steps<L>,
) -> Result<Vec<Option<Posting>>, Fail>
    requires { (m : Moment) × (s : ℕ) × (t : List ℕ) × (rest : List ℕ) × (budget : ℕ) × IsRecord pen.old m × ListStands m s t list rest budget }
    ensures { pen.new ≡ pen.old }
{
    let mut given = Vec::new(alloc);
    for most in mosts {
        list.seek(pen, *most, steps);
        given.push(list.next(pen, steps))?;
    }
    Ok(given)
}

// The greatest of the postings, of a rising list, that isn't above this one and is below the end.
fn greatest(postings: &[Posting], most: Posting, end: u64) -> Option<Posting> {
    let mut found = None;
    for posting in postings {
        if *posting <= most && *posting < end {
            found = Some(*posting);
        }
    }
    found
}

// What a seek to each of these and a call of `next` give, each time from the whole list.
fn greatest_each(
    alloc: Global,
    postings: &[Posting],
    mosts: &[Posting],
) -> Result<Vec<Option<Posting>>, Fail> {
    let mut found = Vec::new(alloc);
    for most in mosts {
        found.push(greatest(postings, *most, u64::MAX))?;
    }
    Ok(found)
}

// The same where each comes after the one before it.
fn greatest_on(
    alloc: Global,
    postings: &[Posting],
    mosts: &[Posting],
) -> Result<Vec<Option<Posting>>, Fail> {
    let mut found = Vec::new(alloc);
    let mut end = u64::MAX;
    for most in mosts {
        let next = greatest(postings, *most, end);
        end = next.unwrap_or(0);
        found.push(next)?;
    }
    Ok(found)
}

// Each posting, one below it and one above it, from the greatest on.
fn around(alloc: Global, postings: &[Posting]) -> Result<Vec<Posting>, Fail> {
    let mut mosts = Vec::new(alloc);
    for posting in postings.iter().rev() {
        mosts.push(posting.saturating_add(1))?;
        mosts.push(*posting)?;
        mosts.push(posting.saturating_sub(1))?;
    }
    Ok(mosts)
}

// What a walk over a list of these postings, rising here, gives with two more calls than it has
// postings.
fn walked(alloc: Global, postings: &[Posting]) -> Result<Vec<Option<Posting>>, Fail> {
    let mut given = Vec::new(alloc);
    for posting in postings.iter().rev() {
        given.push(Some(*posting))?;
    }
    given.push(None)?;
    given.push(None)?;
    Ok(given)
}

// Every fortieth of these.
fn some_of(alloc: Global, mosts: &[Posting]) -> Result<Vec<Posting>, Fail> {
    let mut some = Vec::new(alloc);
    for most in mosts.iter().step_by(40) {
        some.push(*most)?;
    }
    Ok(some)
}

// What a list has to give when it is walked; to where it is leapt each time from its start, and
// what it gives then; and to where it is leapt one after the other, and what it gives then.
#[derive(Drop)]
struct Wanted {
    walked: Vec<Option<Posting>>,
    mosts: Vec<Posting>,
    each: Vec<Option<Posting>>,
    some: Vec<Posting>,
    on: Vec<Option<Posting>>,
}

// Of a list of these postings, rising here: leaps to each of them, to one above and to one below
// it.
fn leaps_wanted(alloc: Global, postings: &[Posting]) -> Result<Wanted, Fail> {
    let mosts = around(alloc, postings)?;
    let some = some_of(alloc, mosts.as_slice())?;
    let each = greatest_each(alloc, postings, mosts.as_slice())?;
    let on = greatest_on(alloc, postings, some.as_slice())?;
    Ok(Wanted {
        walked: walked(alloc, postings)?,
        mosts,
        each,
        some,
        on,
    })
}

// Whether the packed list of a term in segment 0 gives what is wanted.
fn gives<L: Ledger>(
    alloc: Global,
    pen: &mut RecordingPen,
    term: &Term,
    wanted: &Wanted,
    blank: Blank,
) -> Result<bool, Fail>
    requires blank { (blank.name ≡ L.name) × (blank.parts ≡ L.parts) × (0 < blank.parts) }
    requires pen { (m : Moment) × IsRecord pen.old m }
    ensures { (m : Moment) × IsRecord pen.new m }
{
    let mut steps = Steps::<L>::new(blank);
    let Some(list) = open(pen, term, &mut steps) else {
        return Ok(false);
    };
    let walked = ask(alloc, list, pen, wanted.walked.len(), &mut steps)?;
    let each = seek_each(alloc, list, pen, wanted.mosts.as_slice(), &mut steps)?;
    let on = seek_on(alloc, list, pen, wanted.some.as_slice(), &mut steps)?;
    Ok(
        walked.as_slice() == wanted.walked.as_slice()
            && each.as_slice() == wanted.each.as_slice()
            && on.as_slice() == wanted.on.as_slice(),
    )
}

// Whether the packed list of a word in segment 0 gives these postings, rising here, and leaps to
// each of them, one above and one below it.
fn is_packed(
    alloc: Global,
    pen: &mut RecordingPen,
    word: &[u8],
    postings: &[Posting],
) -> Result<bool, Fail>
    requires { (m : Moment) × IsRecord pen.old m }
    ensures { (m : Moment) × IsRecord pen.new m }
{
    let term = Term::new(alloc, word)?;
    let wanted = leaps_wanted(alloc, postings)?;
    gives::<Brand>(alloc, pen, &term, &wanted, Blank::new(1))
}

// A list of a term whose greatest difference of two postings has this many bits: it is in as many
// documents as it has postings, from the first on but for its last one.
#[derive(Clone, Copy)]
struct Wide {
    bits: u32,
    postings: u64,
}

impl Wide {
    // The number of the last document that it is in. Where it is the first word of each, 17 bits
    // hold the difference from one document to the next.
    fn last(self) -> u64 {
        let gap = if self.bits < 18 {
            0
        } else {
            1u64.wrapping_shl(self.bits.wrapping_sub(17))
        };
        self.postings.wrapping_sub(1).wrapping_add(gap)
    }

    // Whether it is in a document.
    fn has(self, document: u64) -> bool {
        document < self.postings.wrapping_sub(1) || document == self.last()
    }
}

// How many postings a list has, of three for each number of bits.
const COUNTS: [u64; 3] = [2, 3, 128];

// The lists: the first has eleven blocks, the second one posting, and the others have greatest
// differences of all numbers of bits from 17 to 40.
fn wide_lists(alloc: Global) -> Result<Vec<Wide>, Fail> {
    let mut lists = Vec::new(alloc);
    lists.push(Wide {
        bits: 17,
        postings: 1399,
    })?;
    lists.push(Wide {
        bits: 0,
        postings: 1,
    })?;
    for at in 0..72u32 {
        lists.push(Wide {
            bits: 17 + at / 3,
            postings: COUNTS[(at % 3) as usize],
        })?;
    }
    Ok(lists)
}

// The word of a list.
fn put_word(text: &mut Vec<u8>, list: usize) -> Result<(), Fail> {
    text.push(b'0' + (list / 10 % 10) as u8)?;
    text.push(b'0' + (list % 10) as u8)?;
    Ok(())
}

// The document of this number: the words of the lists that are in it, in order.
fn with_lists(alloc: Global, lists: &[Wide], number: u64) -> Result<Document, Fail> {
    let mut text = Vec::new(alloc);
    for at in 0..lists.len() {
        if lists[at].has(number) {
            put_word(&mut text, at)?;
            text.push(b' ')?;
        }
    }
    document(alloc, number, text.as_slice())
}

// The word of the document with a difference of this many bits.
fn narrow_word(bits: u32) -> [u8; 2] {
    [b'n', b'0' + (bits % 10) as u8]
}

// A document whose word occurs twice, with a difference of this many bits.
fn narrow(alloc: Global, bits: u32) -> Result<Document, Fail> {
    let word = narrow_word(bits);
    let mut text = Vec::new(alloc);
    text.extend_from_slice(&word)?;
    for _ in 0..1u32.wrapping_shl(bits.wrapping_sub(1)).wrapping_sub(1) {
        text.extend_from_slice(b" f")?;
    }
    text.push(b' ')?;
    text.extend_from_slice(&word)?;
    document(alloc, 0, text.as_slice())
}

// The postings of a list, rising: in each document the lists before it come before it.
fn postings_of(alloc: Global, lists: &[Wide], list: usize) -> Result<Vec<Posting>, Fail> {
    let mut postings = Vec::new(alloc);
    if list >= lists.len() {
        return Ok(postings);
    }
    let wide = lists[list];
    for number in 0..wide.postings {
        let document = if number == wide.postings.wrapping_sub(1) {
            wide.last()
        } else {
            number
        };
        let mut posting = document.wrapping_mul(PLACES);
        for before in &lists[..list] {
            if before.has(document) {
                posting = posting.wrapping_add(1);
            }
        }
        postings.push(posting)?;
    }
    Ok(postings)
}

// Adds an empty document until there are this many in all.
fn fill(placer: &mut Placer, pen: &mut RecordingPen, empty: &Document, from: u64, upto: u64)
    requires { (m : Moment) × IsRecord pen.old m × PlacerStands placer.old m }
    ensures { (m : Moment) × IsRecord pen.new m × PlacerStands placer.new m }
{
    for _ in from..upto {
        let _ = added(placer, pen, empty);
    }
}

// Adds the first 2,001 documents, of the lists that are in them.
fn add_first(
    alloc: Global,
    lists: &[Wide],
    placer: &mut Placer,
    pen: &mut RecordingPen,
) -> Result<(), Fail>
    requires { (m : Moment) × IsRecord pen.old m × PlacerStands placer.old m }
    ensures { (m : Moment) × IsRecord pen.new m × PlacerStands placer.new m }
{
    for number in 0..2001 {
        let document = with_lists(alloc, lists, number)?;
        let _ = added(placer, pen, &document);
    }
    Ok(())
}

// Adds the ten narrow ones.
fn add_narrow(alloc: Global, placer: &mut Placer, pen: &mut RecordingPen) -> Result<(), Fail>
    requires { (m : Moment) × IsRecord pen.old m × PlacerStands placer.old m }
    ensures { (m : Moment) × IsRecord pen.new m × PlacerStands placer.new m }
{
    for bits in 1..=10 {
        let document = narrow(alloc, bits)?;
        let _ = added(placer, pen, &document);
    }
    Ok(())
}

// Adds the document of this number, which a list ends in, if it comes after the first 2,011, and
// empty ones between what is done and it: how many are done then.
fn add_end(
    alloc: Global,
    lists: &[Wide],
    placer: &mut Placer,
    pen: &mut RecordingPen,
    empty: &Document,
    done: u64,
    last: u64,
) -> Result<u64, Fail>
    requires { (m : Moment) × IsRecord pen.old m × PlacerStands placer.old m }
    ensures { (m : Moment) × IsRecord pen.new m × PlacerStands placer.new m }
{
    if last < 2011 {
        return Ok(done);
    }
    let document = with_lists(alloc, lists, last)?;
    fill(placer, pen, empty, done, last);
    let _ = added(placer, pen, &document);
    Ok(last.wrapping_add(1))
}

// Adds after these 2,011 the further documents that a list ends in, and empty ones between and
// after them, up to 8,388,801 in all.
fn add_last(
    alloc: Global,
    lists: &[Wide],
    placer: &mut Placer,
    pen: &mut RecordingPen,
) -> Result<(), Fail>
    requires { (m : Moment) × IsRecord pen.old m × PlacerStands placer.old m }
    ensures { (m : Moment) × IsRecord pen.new m × PlacerStands placer.new m }
{
    let empty = document(alloc, 0, b"")?;
    let mut done = 2011;
    for list in lists {
        done = add_end(alloc, lists, placer, pen, &empty, done, list.last())?;
    }
    fill(placer, pen, &empty, done, 8_388_801);
    Ok(())
}

// An index of two segments whose first one has the lists, and from its document 2,001 on the ten
// narrow ones.
fn with_all_widths(alloc: Global, lists: &[Wide]) -> Result<RecordingPen, Fail>
    ensures { IfOk result (λ pen. (m : Moment) × IsRecord pen m) }
{
    let config = Config::new(2, 8_388_800, 1024)?;
    let mut pen = RecordingPen::unrecorded(alloc, config)?;
    let mut placer = Placer::new(config);
    add_first(alloc, lists, &mut placer, &mut pen)?;
    add_narrow(alloc, &mut placer, &mut pen)?;
    add_last(alloc, lists, &mut placer, &mut pen)?;
    Ok(pen)
}

// Whether this list is packed.
fn list_is_packed(
    alloc: Global,
    pen: &mut RecordingPen,
    lists: &[Wide],
    list: usize,
) -> Result<bool, Fail>
    requires { (m : Moment) × IsRecord pen.old m }
    ensures { (m : Moment) × IsRecord pen.new m }
{
    let postings = postings_of(alloc, lists, list)?;
    let mut word = Vec::new(alloc);
    put_word(&mut word, list)?;
    is_packed(alloc, pen, word.as_slice(), postings.as_slice())
}

// Whether the list with a difference of this many bits is packed.
fn narrow_is_packed(alloc: Global, pen: &mut RecordingPen, bits: u32) -> Result<bool, Fail>
    requires { (m : Moment) × IsRecord pen.old m }
    ensures { (m : Moment) × IsRecord pen.new m }
{
    let first = u64::from(bits).wrapping_add(2000).wrapping_mul(PLACES);
    let second = first.wrapping_add(1u64.wrapping_shl(bits.wrapping_sub(1)));
    is_packed(alloc, pen, &narrow_word(bits), &[first, second])
}

#[test]
fn packed_lists_are_walked_and_leapt_over(rt: HostRuntime) -> Result<(), Fail> {
    let alloc = rt.alloc();
    let lists = wide_lists(alloc)?;
    let mut pen = with_all_widths(alloc, lists.as_slice())?;
    let done = convert_all(alloc, &mut pen, 1)?;
    assert_eq!(rt; done.as_slice(), [Converted::One(0)].as_slice());
    for list in 0..lists.len() {
        let is = list_is_packed(alloc, &mut pen, lists.as_slice(), list)?;
        assert!(rt; is, "{list}");
    }
    for bits in 1..=10u32 {
        let is = narrow_is_packed(alloc, &mut pen, bits)?;
        assert!(rt; is, "{bits}");
    }
    Ok(())
}
