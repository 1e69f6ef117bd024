//! Query lines, and the lines that are written for what they ask.
use eb_base::{NoMemory, Query};
use eb_query::{QueryFault, read_query, write_query};
use std::alloc::{AllocError, Global};
use std::process::Abort;
use std::test::Fail;

// The text of a fault.
pub(super) fn fault_text(alloc: Global, fault: QueryFault) -> Result<String, AllocError> {
    format!(in alloc; "{fault}")
}

// The line that is written for the query.
pub(super) fn written(alloc: Global, k: u32, query: &Query) -> Result<String, NoMemory> {
    if k == 0 || k > 1000 || !query.is_well_formed() {
        return Ok(String::from_str(alloc, "no query")?);
    }
    let bytes = write_query(alloc, k, query)?;
    Ok(String::from_utf8(bytes).unwrap_or(String::new(alloc)))
}

// What the line reads as: the line that is written for it, or the fault.
fn reading(alloc: Global, line: &str) -> Result<String, NoMemory> {
    if !line.starts_with('?') {
        return Ok(String::from_str(alloc, "no query line")?);
    }
    match read_query(alloc, line) {
        Ok((k, query)) => written(alloc, k, &query),
        Err(fault) => Ok(fault_text(alloc, fault)?),
    }
}

// Asserts that each line reads as the text beside it.
pub(super) fn read_as(
    rt: &impl Abort,
    alloc: Global,
    rows: &[(&str, &str)],
) -> Result<(), NoMemory> {
    for (line, want) in rows {
        let text = reading(alloc, line)?;
        assert!(rt; text.as_str() == *want, "{line}: {text}");
    }
    Ok(())
}

// Numbers.
const NUMBERS: [(&str, &str); 10] = [
    ("?5", "bad query at 3"),
    ("?5a", "bad number"),
    ("?x a", "bad number"),
    ("?0 a", "bad number"),
    ("?1001 a", "bad number"),
    ("?10000 a", "bad number"),
    ("?5\"a\"", "bad number"),
    ("?5(a)", "bad number"),
    ("?0002 a", "?2 \"a\""),
    ("?1000\ta", "?1000 \"a\""),
];

// What isn't allowed at its place.
const OUT_OF_PLACE: [(&str, &str); 9] = [
    ("?5 (a", "bad query at 6"),
    ("?5 a)", "bad query at 5"),
    ("?5 \"a", "bad query at 4"),
    ("?5 OR a", "bad query at 4"),
    ("?5 a OR", "bad query at 8"),
    ("?5 !!!", "bad query at 4"),
    ("?5 a -", "bad query at 7"),
    ("?5 a OR(", "bad query at 9"),
    ("?5 Straße )", "bad query at 12"),
];

// Nesting.
const NESTED: [(&str, &str); 3] = [
    ("?5 ((((((((((((((((a))))))))))))))))", "?5 \"a\""),
    ("?5 (((((((((((((((((a)))))))))))))))))", "query too deep"),
    ("?5 ((((((((((((((( - -a", "query too deep"),
];

// Lexemes, and what is written, which reads back.
const LEXEMES: [(&str, &str); 7] = [
    ("?5 \"OR\"", "?5 \"or\""),
    ("?5 a\tOR\t(b c)d", "?5 \"a\" OR (\"b\" \"c\") \"d\""),
    ("?5 \"a\"-b", "?5 \"a\" -\"b\""),
    ("?5 a-b", "?5 \"a b\""),
    (
        "?7 (a b) OR -(c OR d)",
        "?7 \"a\" \"b\" OR -(\"c\" OR \"d\")",
    ),
    (
        "?7 \"a\" \"b\" OR -(\"c\" OR \"d\")",
        "?7 \"a\" \"b\" OR -(\"c\" OR \"d\")",
    ),
    ("?5 \"a\" \"b c\"", "?5 \"a\" \"b c\""),
];

#[test]
fn reads_lines(rt: HostRuntime) -> Result<(), Fail> {
    read_as(&rt, rt.alloc(), &NUMBERS)?;
    read_as(&rt, rt.alloc(), &OUT_OF_PLACE)?;
    read_as(&rt, rt.alloc(), &NESTED)?;
    read_as(&rt, rt.alloc(), &LEXEMES)?;
    Ok(())
}

// Bounds on ids.
const BOUNDS: [(&str, &str); 17] = [
    ("?5 since:1 a", "?5 since:1 \"a\""),
    ("?5 -since:1", "?5 -since:1"),
    ("?5 since:0 OR a", "?5 since:0 OR \"a\""),
    (
        "?5 since:18446744073709551615",
        "?5 since:18446744073709551615",
    ),
    ("?5 since:00000000000000000001", "?5 since:1"),
    ("?5 since:1(a)\"b\"", "?5 since:1 \"a\" \"b\""),
    ("?5 since", "?5 \"since\""),
    ("?5 since:", "bad query at 4"),
    ("?5 since:x", "bad query at 4"),
    ("?5 since:1x", "bad query at 4"),
    ("?5 since:+1", "bad query at 4"),
    ("?5 since:-1", "bad query at 4"),
    ("?5 since: 1", "bad query at 4"),
    ("?5 since:18446744073709551616", "bad query at 4"),
    ("?5 since:99999999999999999999", "bad query at 4"),
    ("?5 since:000000000000000000001", "bad query at 4"),
    ("?5 a OR since:", "bad query at 9"),
];

#[test]
fn reads_bounds(rt: HostRuntime) -> Result<(), Fail> {
    read_as(&rt, rt.alloc(), &BOUNDS)?;
    Ok(())
}

// A beginning, a text this many times, and an end.
pub(super) fn repeated(
    alloc: Global,
    front: &str,
    text: &str,
    times: u32,
    rear: &str,
) -> Result<String, AllocError> {
    let mut line = String::from_str(alloc, front)?;
    for _ in 0..times {
        line.push_str(text)?;
    }
    line.push_str(rear)?;
    Ok(line)
}

// Lines of a beginning, a text this many times, and an end, and whether they are of size 64 or too
// large. 63 words in a row are of size 64. A window counts as its terms, and a bound as one.
const SIZES: [(&str, &str, u32, &str, bool); 4] = [
    ("?5", " \"a\"", 63, "", true),
    ("?5", " \"a\"", 64, "", false),
    ("?5 since:1", " \"a b\"~2", 31, "", true),
    ("?5 since:1", " \"a b\"~2", 31, " since:2", false),
];

#[test]
fn sizes_are_at_most_64(rt: HostRuntime) -> Result<(), Fail> {
    let alloc = rt.alloc();
    for (front, text, times, rear, fits) in SIZES {
        let line = repeated(alloc, front, text, times, rear)?;
        let want = if fits {
            line.as_str()
        } else {
            "query too large"
        };
        read_as(&rt, alloc, &[(line.as_str(), want)])?;
    }
    Ok(())
}
