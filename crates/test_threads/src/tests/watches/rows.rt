//! Watches that are set, removed and matched.
ghost use Rattle.std.specs.Prelude.{◌≡◌};

use super::super::heard::Heard;
use super::made::{matched, no_word, set, set_word, tested, told, word};
use eb_base::Config;
use eb_engine::{Index, Writer};
use eb_watch::{MAX_WATCHES, NoWatch, SetFault, WatchFault, Watches, a_match_has_a_key_term};
use std::alloc::Global;
use std::process::Abort;
use std::test::Fail;

// Adds a document of these terms, and asserts that it is this one, that the gate observes it, and
// that it matches these watches.
fn tells(
    rt: &impl Abort,
    alloc: Global,
    watches: &Watches,
    index: &Index,
    writer: &mut Writer,
    terms: &[&[u8]],
    want: (u64, &[u32]),
) -> Result<(), Fail>
    requires { writer.old.index ≡ index.now }
    ensures { writer.new.index ≡ writer.old.index }
{
    let gate = Heard::new();
    match told(alloc, watches, index, writer, terms, &gate) {
        Ok((seen, told)) => {
            assert_eq!(rt; (seen, told.as_slice()), want);
            assert_eq!(rt; gate.added(), seen);
            Ok(())
        }
        Err(_fault) => Err(Fail::new("not added")),
    }
}

// Two watches: 1 for `a`, and 2 for all but `a`.
fn two(alloc: Global) -> Result<Watches, Fail> {
    let mut watches = Watches::new(alloc);
    if set_word(alloc, &mut watches, 1, b"a").is_err() {
        return Err(Fail::new("not set"));
    }
    if set(&mut watches, 2, no_word(alloc, b"a")?).is_err() {
        return Err(Fail::new("not set"));
    }
    Ok(watches)
}

#[test]
fn a_document_is_told_to_those_it_matches(rt: HostRuntime) -> Result<(), Fail> {
    let alloc = rt.alloc();
    let mut watches = two(alloc)?;
    let (index, mut writer, _converter) = Index::open(alloc, Config::new(1, 8, 1024)?)?;
    let terms: [&[u8]; 2] = [b"a", b"b"];
    tells(&rt, alloc, &watches, &index, &mut writer, &terms, (1, &[1]))?;
    assert_eq!(rt; watches.remove(1), Ok(()));
    tells(&rt, alloc, &watches, &index, &mut writer, &[b"a"], (2, &[]))
}

// Whether there is no watch at first; what the removal of one answers then, and what it answers
// when one is set twice; and how many there are in the end.
fn set_twice(alloc: Global) -> (bool, Result<(), NoWatch>, [Result<(), SetFault>; 2], usize) {
    let mut watches = Watches::new(alloc);
    let is_empty = watches.is_empty();
    let removed = watches.remove(9);
    let first = set_word(alloc, &mut watches, 2, b"a");
    let second = set_word(alloc, &mut watches, 2, b"b");
    (is_empty, removed, [first, second], watches.len())
}

#[test]
fn a_number_is_set_once(rt: HostRuntime) {
    let (is_empty, removed, set, count) = set_twice(rt.alloc());
    assert_eq!(rt; (is_empty, removed, count), (true, Err(NoWatch), 1));
    assert_eq!(rt; set, [Ok(()), Err(SetFault::Taken)]);
}

// Sets 10,000 watches for `a`.
fn fill(alloc: Global, watches: &mut Watches) -> Result<(), SetFault> {
    for number in 0..10_000 {
        set_word(alloc, watches, number, b"a")?;
    }
    Ok(())
}

// The watches of which none can be set: 10,000 for `a`, but for the number 7; and one for `b` of
// the number 10,000.
fn full(alloc: Global) -> Result<Watches, Fail> {
    let mut watches = Watches::new(alloc);
    fill(alloc, &mut watches)?;
    watches.remove(7)?;
    set_word(alloc, &mut watches, 10_000, b"b")?;
    Ok(watches)
}

// What it answers when 10,000 are set, then a further one, and then one of the same number; and how
// many there are in the end.
fn overfilled(alloc: Global) -> ([Result<(), SetFault>; 3], usize) {
    let mut watches = Watches::new(alloc);
    let filled = fill(alloc, &mut watches);
    let further = set_word(alloc, &mut watches, 10_000, b"b");
    let again = set_word(alloc, &mut watches, 7, b"b");
    ([filled, further, again], watches.len())
}

#[test]
fn ten_thousand_are_full(rt: HostRuntime) -> Result<(), Fail> {
    let (set, count) = overfilled(rt.alloc());
    let full = full(rt.alloc())?.len();
    assert_eq!(rt; set, [Ok(()), Err(SetFault::Full), Err(SetFault::Taken)]);
    assert_eq!(rt; (count, full), (MAX_WATCHES, MAX_WATCHES));
    Ok(())
}

#[test]
fn one_of_ten_thousand_is_told(rt: HostRuntime) -> Result<(), Fail> {
    let alloc = rt.alloc();
    let watches = full(alloc)?;
    let (index, mut writer, _converter) = Index::open(alloc, Config::new(1, 1, 1024)?)?;
    assert_eq!(rt;
        matched(alloc, &watches, &[b"b"])?.as_slice(),
        [10_000].as_slice()
    );
    tells(
        &rt,
        alloc,
        &watches,
        &index,
        &mut writer,
        &[b"b"],
        (1, &[10_000]),
    )
}

#[test]
fn a_full_index_tells_nothing(rt: HostRuntime) -> Result<(), Fail> {
    let alloc = rt.alloc();
    let watches = Watches::new(alloc);
    let (index, mut writer, _converter) = Index::open(alloc, Config::new(1, 1, 1024)?)?;
    tells(&rt, alloc, &watches, &index, &mut writer, &[b"b"], (1, &[]))?;
    let gate = Heard::new();
    let second = told(alloc, &watches, &index, &mut writer, &[b"b"], &gate);
    assert!(rt; matches!(second, Err(WatchFault::Full)));
    assert_eq!(rt; gate.added(), 0);
    Ok(())
}

// Whether the word `b` matches a document of it, and whether the query for all but `b` does.
fn both_tested(alloc: Global) -> Result<(bool, bool), Fail> {
    let word = word(alloc, b"b")?;
    let other = no_word(alloc, b"b")?;
    let terms: [&[u8]; 1] = [b"b"];
    Ok((
        tested(alloc, &word, &terms)?,
        tested(alloc, &other, &terms)?,
    ))
}

#[test]
fn one_test(rt: HostRuntime) -> Result<(), Fail> {
    a_match_has_a_key_term();
    let tested = both_tested(rt.alloc())?;
    assert_eq!(rt; tested, (true, false));
    Ok(())
}
