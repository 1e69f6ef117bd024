//! Which documents match queries of each kind, and so with keys of each kind.
use super::made::{both, either, matched, no_word, phrase, set, window, word};
use eb_base::{NoMemory, Query};
use eb_watch::{SetFault, Watches};
use std::alloc::Global;
use std::test::Fail;

// The query of each of the watches 1 to 8: some with a key of one term, one with a key of two, and
// some without one.
fn query(alloc: Global, number: u32) -> Result<Query, NoMemory> {
    match number {
        1 => word(alloc, b"a"),
        2 => phrase(alloc, &[b"a", b"b"]),
        3 => window(alloc, &[b"b", b"a"]),
        4 => no_word(alloc, b"a"),
        5 => Ok(Query::Since(7)),
        6 => both(alloc, no_word(alloc, b"b")?, word(alloc, b"a")?),
        7 => either(alloc, word(alloc, b"a")?, word(alloc, b"b")?),
        _ => either(alloc, word(alloc, b"a")?, no_word(alloc, b"b")?),
    }
}

// Sets the watches 1 to 8.
fn set_all(alloc: Global, watches: &mut Watches) -> Result<(), SetFault> {
    for number in 1..9 {
        let Ok(query) = query(alloc, number) else {
            return Err(SetFault::NoMemory);
        };
        set(watches, number, query)?;
    }
    Ok(())
}

// Terms of documents with the id 5, and the watches that match them.
const MATCHED: [(&[&[u8]], &[u32]); 4] = [
    (&[b"a", b"c", b"a"], &[1, 6, 7, 8]),
    (&[b"c", b"b"], &[4, 7]),
    (&[b"b", b"a", b"b"], &[1, 2, 3, 7, 8]),
    (&[b"c"], &[4, 8]),
];

#[test]
fn each_kind_of_key_leads_to_its_watch(rt: HostRuntime) -> Result<(), Fail> {
    let mut watches = Watches::new(rt.alloc());
    assert_eq!(rt; set_all(rt.alloc(), &mut watches), Ok(()));
    for (terms, want) in MATCHED {
        let numbers = matched(rt.alloc(), &watches, terms)?;
        assert!(rt; numbers.as_slice() == want, "{terms:?}: {numbers:?}");
    }
    Ok(())
}
