//! Windows in query lines.
use super::queries::{read_as, written};
use eb_base::{NoMemory, Queries, Query, Term, Terms};
use std::alloc::Global;
use std::test::Fail;

// Windows that are well formed.
const WINDOWS: [(&str, &str); 12] = [
    ("?5 \"a a\"~2", "?5 \"a a\"~2"),
    ("?5 \"a a\"~1", "?5 \"a a\"~1"),
    ("?5 \"b b b\"~3", "?5 \"b b b\"~3"),
    ("?5 \"a a a\"~4", "?5 \"a a a\"~4"),
    ("?5 \"a\"~1", "?5 \"a\""),
    ("?5 \"a b\" ~2", "?5 \"a b\" \"2\""),
    ("?5 \"a b\"~1023", "?5 \"a b\"~1023"),
    ("?5 \"a b\"~0007", "?5 \"a b\"~7"),
    ("?5 \"A-b c\"~7\tc", "?5 \"a b c\"~7 \"c\""),
    ("?5 -\"a b\"~2(c)", "?5 -\"a b\"~2 \"c\""),
    ("?5 \"a b\"~2\"c d\"~3", "?5 \"a b\"~2 \"c d\"~3"),
    ("?5 (\"a b\"~2) OR c", "?5 \"a b\"~2 OR \"c\""),
];

// Others.
const NO_WINDOWS: [(&str, &str); 13] = [
    ("?5 \"a b\"~", "bad query at 4"),
    ("?5 \"a b\"~0", "bad query at 4"),
    ("?5 \"a b\"~0000", "bad query at 4"),
    ("?5 \"a b\"~1024", "bad query at 4"),
    ("?5 \"a b\"~00001", "bad query at 4"),
    ("?5 \"a b\"~2c", "bad query at 4"),
    ("?5 \"a b\"~2~3", "bad query at 4"),
    ("?5 \"a b\"~2-c", "bad query at 4"),
    ("?5 \"a b\"~ 2", "bad query at 4"),
    ("?5 \"a\"~0", "bad query at 4"),
    ("?5 \"!!!\"~2", "bad query at 4"),
    ("?5 c \"a b~2", "bad query at 6"),
    ("?5 \"a b\"~2)", "bad query at 11"),
];

#[test]
fn reads_windows(rt: HostRuntime) -> Result<(), Fail> {
    read_as(&rt, rt.alloc(), &WINDOWS)?;
    read_as(&rt, rt.alloc(), &NO_WINDOWS)?;
    Ok(())
}

// The terms `a` and `b` in a window of reach 2, and ids above 9.
fn near_and_new(alloc: Global) -> Result<Query, NoMemory> {
    let mut terms = Terms::new(alloc);
    terms.push(Term::new(alloc, b"a")?)?;
    terms.push(Term::new(alloc, b"b")?)?;
    let mut parts = Queries::new(alloc);
    parts.push(Query::Window(terms, 2))?;
    parts.push(Query::Since(9))?;
    Ok(Query::And(parts))
}

#[test]
fn writes_a_window_and_a_bound(rt: HostRuntime) -> Result<(), Fail> {
    let line = "?3 \"a b\"~2 since:9";
    let query = near_and_new(rt.alloc())?;
    assert_eq!(rt; written(rt.alloc(), 3, &query)?.as_str(), line);
    read_as(&rt, rt.alloc(), &[(line, line)])?;
    Ok(())
}
