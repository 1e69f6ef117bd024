//! What the plain programs say.
use super::asking::query;
use super::chains::of_a;
use super::made::{document, four};
use eb_base::{Config, Document, Query, Term};
use eb_match::is_match;
use eb_plain::{cut, fits, has_room, newest};
use std::alloc::Global;
use std::test::Fail;

// Windows and bounds on ids, and which of a document 1 of the text `a b b a b a` and a document 2
// of `b a` they match, the newest first. A window wants its terms in order, each at a place of its
// own, the last at most so far after; a bound takes the greater ids alone.
const MATCHES: [(&[u8], &[u64]); 23] = [
    (b"\" a a \" ~2", &[1]),
    (b"\" a a \" ~1", &[]),
    (b"\" b b b \" ~3", &[1]),
    (b"\" b b b \" ~2", &[]),
    (b"\" a a a \" ~5", &[1]),
    (b"\" a a a \" ~4", &[]),
    (b"\" b a \" ~1", &[2, 1]),
    (b"\" a b \" ~1", &[1]),
    (b"\" a a b \" ~1023", &[1]),
    (b"\" b a b \" ~2", &[1]),
    (b"\" a c \" ~9", &[]),
    (b">0", &[2, 1]),
    (b">0 -", &[]),
    (b">0 a &2", &[2, 1]),
    (b">1", &[2]),
    (b">1 -", &[1]),
    (b">1 a &2", &[2]),
    (b">2", &[]),
    (b">2 -", &[2, 1]),
    (b">2 a &2", &[]),
    (b">18446744073709551615", &[]),
    (b">18446744073709551615 -", &[2, 1]),
    (b">18446744073709551615 a &2", &[]),
];

#[test]
fn windows_and_bounds_match(rt: HostRuntime) -> Result<(), Fail> {
    let alloc = rt.alloc();
    let documents = [
        document(alloc, 1, b"a b b a b a")?,
        document(alloc, 2, b"b a")?,
    ];
    for (text, want) in MATCHES {
        let ids = newest(alloc, &query(alloc, text)?, 5, &documents)?;
        assert!(rt; ids.as_slice() == want, "{text:?}: {ids:?}");
    }
    Ok(())
}

#[test]
fn two_segments_of_two_are_full(rt: HostRuntime) -> Result<(), Fail> {
    let alloc = rt.alloc();
    let config = Config::new(2, 2, 1024)?;
    let documents = four(alloc)?;
    let lengths = cut(alloc, &config, documents.as_slice())?;
    assert_eq!(rt; lengths.as_slice(), [2, 2].as_slice());
    let first = of_a(alloc, 1024)?;
    let alone = (
        fits(alloc, &config, &[], &first)?,
        has_room(alloc, &config, &[], &first)?,
    );
    assert_eq!(rt; alone, (true, true));
    assert!(rt; !has_room(alloc, &config, documents.as_slice(), &first)?);
    Ok(())
}

#[test]
fn the_newest_matches_come_first(rt: HostRuntime) -> Result<(), Fail> {
    let alloc = rt.alloc();
    let documents = four(alloc)?;
    let word = Query::Word(Term::new(alloc, b"a")?);
    assert!(rt; is_match(&word, &of_a(alloc, 1024)?));
    let ids = newest(alloc, &word, 3, documents.as_slice())?;
    assert_eq!(rt; ids.as_slice(), [4, 3, 2].as_slice());
    Ok(())
}
