//! The fullest segment: each kind of room is used up to the last, and what has no room changes no
//! word.
ghost use Rattle.std.specs.Prelude.{◌≡◌};
ghost use Rattle.eb_place.specs.declared.moment.Moment.{Moment};
ghost use Rattle.eb_flat.specs.Flat.{StandsFor};
ghost use Rattle.eb_writer.specs.Progress.{PlacerStands};

use super::made::{added, document, word_at};
use eb_base::Config;
use eb_flat::FlatWords;
use eb_place::Port;
use eb_writer::Placer;
use std::alloc::Global;
use std::test::Fail;

// The words of a document: how many bytes each has, the number of the first, how many there are,
// and how often each occurs.
type Words = (usize, u64, u64, usize);

// Puts a word: a letter where it has one byte, else a number in three digits and then letters `x`.
fn put_word(text: &mut Vec<u8>, bytes: usize, number: u64) -> Result<(), Fail> {
    if bytes == 1 {
        text.push(b'a' + (number % 26) as u8)?;
    } else {
        let hundreds = b'0' + (number / 100 % 10) as u8;
        let tens = b'0' + (number / 10 % 10) as u8;
        let ones = b'0' + (number % 10) as u8;
        text.extend_from_slice(&[hundreds, tens, ones])?;
        for _ in 3..bytes {
            text.push(b'x')?;
        }
    }
    text.push(b' ')?;
    Ok(())
}

// The text of a document.
fn text(alloc: Global, words: Words) -> Result<Vec<u8>, Fail> {
    let (bytes, first, count, times) = words;
    let mut text = Vec::new(alloc);
    for at in 0..count {
        for _ in 0..times {
            put_word(&mut text, bytes, first.wrapping_add(at))?;
        }
    }
    Ok(text)
}

// All words of an index.
fn all_words(alloc: Global, words: &mut FlatWords) -> Result<Vec<u64>, Fail>
    requires { (m : Moment) × StandsFor words.old m }
    ensures { words.new ≡ words.old }
{
    let mut all = Vec::new(alloc);
    for place in 0..words.config().words() {
        if let Some(word) = word_at(words, place) {
            all.push(word)?;
        }
    }
    Ok(all)
}

// Whether a document has room, and whether all words are left as they were where it has none.
fn add(
    alloc: Global,
    words: &mut FlatWords,
    placer: &mut Placer,
    part: Words,
) -> Result<(bool, bool), Fail>
    requires { (m : Moment) × StandsFor words.old m × PlacerStands placer.old m }
    ensures { (m : Moment) × StandsFor words.new m × PlacerStands placer.new m }
{
    let text = text(alloc, part)?;
    let document = document(alloc, 1, text.as_slice())?;
    let before = all_words(alloc, words)?;
    let has_room = added(placer, words, &document).is_some();
    let after = all_words(alloc, words)?;
    Ok((has_room, has_room || before.as_slice() == after.as_slice()))
}

// Which of these documents, added in order to one segment, have room; none where one that has none
// changes a word.
fn room(alloc: Global, documents: &[Words]) -> Result<Option<Vec<bool>>, Fail> {
    let config = Config::new(1, 4096, 1024)?;
    let mut words = FlatWords::new(alloc, config)?;
    let mut placer = Placer::new(config);
    let mut room = Vec::new(alloc);
    for part in documents {
        let (has_room, is_left) = add(alloc, &mut words, &mut placer, *part)?;
        if !is_left {
            return Ok(None);
        }
        room.push(has_room)?;
    }
    Ok(Some(room))
}

// Documents that are added to a segment, and which of them have room.
const SEGMENTS: [(&[Words], &[bool]); 4] = [
    (
        &[
            (256, 0, 64, 1),
            (256, 64, 60, 1),
            (1, 0, 2, 1),
            (1, 2, 1, 1),
            (1, 1, 1, 1),
        ],
        &[true, true, true, false, true],
    ),
    (
        &[
            (4, 0, 341, 3),
            (4, 341, 171, 3),
            (4, 512, 1, 3),
            (4, 512, 1, 2),
            (4, 512, 1, 1),
        ],
        &[true, true, false, true, false],
    ),
    (
        &[
            (4, 0, 56, 18),
            (4, 56, 8, 18),
            (4, 64, 1, 18),
            (4, 64, 1, 17),
        ],
        &[true, true, false, true],
    ),
    (
        &[
            (1, 0, 7, 145),
            (1, 7, 1, 145),
            (1, 8, 1, 145),
            (1, 8, 1, 144),
        ],
        &[true, true, false, true],
    ),
];

#[test]
fn a_segment_is_filled_to_the_last(rt: HostRuntime) -> Result<(), Fail> {
    for (documents, wanted) in SEGMENTS {
        let room = room(rt.alloc(), documents)?.ok_or("a word is changed")?;
        assert_eq!(rt; room.as_slice(), wanted);
    }
    Ok(())
}
