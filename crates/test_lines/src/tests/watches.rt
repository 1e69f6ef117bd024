//! Watch lines.
use super::queries::{fault_text, repeated, written};
use eb_base::NoMemory;
use eb_query::read_watch;
use std::alloc::Global;
use std::process::Abort;
use std::test::Fail;

// What the watch line reads as: the number to remove, the number and the query to set, or the
// fault.
fn watch_reading(alloc: Global, line: &str) -> Result<String, NoMemory> {
    if !line.starts_with('!') {
        return Ok(String::from_str(alloc, "no watch line")?);
    }
    match read_watch(alloc, line) {
        Ok((number, None)) => Ok(format!(in alloc; "remove {number}")?),
        Ok((number, Some(query))) => {
            let text = written(alloc, 1, &query)?;
            Ok(format!(in alloc; "set {number}: {text}")?)
        }
        Err(fault) => Ok(fault_text(alloc, fault)?),
    }
}

// Asserts that each line reads as the text beside it.
fn read_as(rt: &impl Abort, alloc: Global, rows: &[(&str, &str)]) -> Result<(), NoMemory> {
    for (line, want) in rows {
        let text = watch_reading(alloc, line)?;
        assert!(rt; text.as_str() == *want, "{line}: {text}");
    }
    Ok(())
}

// A text sets a watch, and blanks alone remove one.
const SET_AND_REMOVED: [(&str, &str); 7] = [
    ("!1 a", "set 1: ?1 \"a\""),
    ("!2 b", "set 2: ?1 \"b\""),
    ("!0007 a", "set 7: ?1 \"a\""),
    ("!3\t\"a b\"~2 -since:9", "set 3: ?1 \"a b\"~2 -since:9"),
    ("!1", "remove 1"),
    ("!1  \t", "remove 1"),
    ("!0", "remove 0"),
];

// Numbers.
const NUMBERS: [(&str, &str); 16] = [
    ("!4294967295", "remove 4294967295"),
    ("!4294967295 a", "set 4294967295: ?1 \"a\""),
    ("!0000000001 a", "set 1: ?1 \"a\""),
    ("!4294967296", "bad number"),
    ("!4294967297 a", "bad number"),
    ("!9999999999 a", "bad number"),
    ("!00000000001 a", "bad number"),
    ("!18446744073709551617 a", "bad number"),
    ("!", "bad number"),
    ("! a", "bad number"),
    ("! 1 a", "bad number"),
    ("!x", "bad number"),
    ("!-1 a", "bad number"),
    ("!1a", "bad number"),
    ("!1\"a\"", "bad number"),
    ("!1(a)", "bad number"),
];

// What isn't allowed at its place, and nesting.
const QUERIES: [(&str, &str); 6] = [
    ("!3 (", "bad query at 5"),
    ("!1 !", "bad query at 4"),
    ("!12 a )", "bad query at 7"),
    ("!3 a OR ", "bad query at 9"),
    ("!5 -(-(-(-(-(-(-(-(a))))))))", "set 5: ?1 --------\"a\""),
    ("!5 -(-(-(-(-(-(-(-(-(a)))))))))", "query too deep"),
];

#[test]
fn reads_watch_lines(rt: HostRuntime) -> Result<(), Fail> {
    read_as(&rt, rt.alloc(), &SET_AND_REMOVED)?;
    read_as(&rt, rt.alloc(), &NUMBERS)?;
    read_as(&rt, rt.alloc(), &QUERIES)?;
    Ok(())
}

// 63 words in a row are of size 64, and of 65 words the size is 66.
#[test]
fn sizes_are_at_most_64(rt: HostRuntime) -> Result<(), Fail> {
    let alloc = rt.alloc();
    let line = repeated(alloc, "!9", " a", 63, "")?;
    let want = repeated(alloc, "set 9: ?1", " \"a\"", 63, "")?;
    read_as(&rt, alloc, &[(line.as_str(), want.as_str())])?;
    let line = repeated(alloc, "!9", " a", 65, "")?;
    read_as(&rt, alloc, &[(line.as_str(), "query too large")])?;
    Ok(())
}
