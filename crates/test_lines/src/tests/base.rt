//! The limits of documents, settings and queries.
use eb_base::{Config, ConfigFault, DocFault, Document, Queries, Query, Term, Terms};
use std::alloc::Global;
use std::test::Fail;

// This many terms of this many bytes.
fn terms_of(alloc: Global, count: usize, bytes: usize) -> Result<Terms, Fail> {
    let letters = vec![in alloc; b'a'; bytes]?;
    let mut terms = Terms::new(alloc);
    for _ in 0..count {
        terms.push(Term::new(alloc, letters.as_slice())?)?;
    }
    Ok(terms)
}

// How many terms of how many bytes, and why they are no document.
const DOCUMENTS: [(usize, usize, Option<DocFault>); 6] = [
    (0, 0, None),
    (1024, 16, None),
    (1024, 17, Some(DocFault::TooManyBytes)),
    (1025, 1, Some(DocFault::TooManyTokens)),
    (1, 16_384, None),
    (1, 16_385, Some(DocFault::TooManyBytes)),
];

#[test]
fn documents_keep_their_limits(rt: HostRuntime) -> Result<(), Fail> {
    for (count, bytes, want) in DOCUMENTS {
        let terms = terms_of(rt.alloc(), count, bytes)?;
        assert_eq!(rt; terms.len(), count);
        assert_eq!(rt; Document::new(7, terms).err(), want, "{count} {bytes}");
    }
    Ok(())
}

// How many segments of how many documents and terms, and why they are no setting.
const SETTINGS: [(u32, u32, u32, Option<ConfigFault>); 10] = [
    (1, 1, 1024, None),
    (64, 1, 16_384, None),
    (0, 0, 0, Some(ConfigFault::Segments)),
    (65, 1, 1024, Some(ConfigFault::Segments)),
    (1, 0, 0, Some(ConfigFault::Docs)),
    (1, 16_777_217, 1024, Some(ConfigFault::Docs)),
    (1, 1, 1500, Some(ConfigFault::Terms)),
    (1, 1, 512, Some(ConfigFault::Terms)),
    (1, 1, 2_097_152, Some(ConfigFault::Terms)),
    (64, 16_777_216, 1024, Some(ConfigFault::Words)),
];

#[test]
fn settings_keep_their_limits(rt: HostRuntime) {
    for (segments, docs, terms, want) in SETTINGS {
        let fault = Config::new(segments, docs, terms).err();
        assert_eq!(rt; fault, want, "{segments} {docs} {terms}");
    }
    assert_eq!(rt; Config::usual().words(), 7_618_585);
}

// An and of one part: how many parts it has, and whether it is well formed.
fn and_of_one(alloc: Global) -> Result<(usize, bool), Fail> {
    let mut parts = Queries::new(alloc);
    parts.push(Query::Word(Term::new(alloc, b"a")?))?;
    let count = parts.len();
    let query = Query::And(parts);
    Ok((count, query.is_well_formed()))
}

#[test]
fn an_and_of_one_part_is_not_well_formed(rt: HostRuntime) -> Result<(), Fail> {
    let told = and_of_one(rt.alloc())?;
    assert_eq!(rt; told, (1, false));
    Ok(())
}

// How many terms in which reach, and whether that is well formed; none where it isn't a query.
const WINDOWS: [(usize, u32, Option<bool>); 8] = [
    (0, 1, None),
    (1, 1, Some(true)),
    (2, 0, Some(false)),
    (2, 1, Some(true)),
    (2, 1023, Some(true)),
    (2, 1024, Some(false)),
    (64, 5, Some(true)),
    (65, 5, Some(false)),
];

#[test]
fn windows_keep_their_limits(rt: HostRuntime) -> Result<(), Fail> {
    for (count, reach, want) in WINDOWS {
        let window = Query::of_window(terms_of(rt.alloc(), count, 1)?, reach);
        let formed = window.map(|query| query.is_well_formed());
        assert_eq!(rt; formed, want, "{count} {reach}");
    }
    assert!(rt; Query::Since(0).is_well_formed());
    Ok(())
}
