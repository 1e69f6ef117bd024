//! Fields: lists of names, documents and queries with fields.
use super::queries::fault_text;
use eb_base::{Document, NoMemory, Query};
use eb_doc::{DocumentReader, LineFault};
use eb_fields::{Dialect, Fields};
use eb_query::{read_query_with, write_query};
use eb_text::Cut;
use std::alloc::{AllocError, Global};
use std::test::Fail;

// Lists of fields.
const LISTS: [&str; 5] = [
    "from",
    "from,room",
    "a,b,c,d,e,f,g,h",
    "x_1,1x,_",
    "abcdefghijklmnopqrstuvwxyz012345",
];

// Words that are none.
const NO_LISTS: [&str; 14] = [
    "",
    ",",
    "a,",
    ",a",
    "a,,b",
    "A",
    "a,b,a",
    "since",
    "a,since",
    "a,b,c,d,e,f,g,h,i",
    "abcdefghijklmnopqrstuvwxyz0123456",
    "a b",
    "a-b",
    "é",
];

#[test]
fn reads_lists_of_fields(rt: HostRuntime) {
    for words in LISTS {
        assert!(rt; Fields::read(words).is_some(), "{words}");
    }
    for words in NO_LISTS {
        assert!(rt; Fields::read(words).is_none(), "{words}");
    }
}

// The bytes as a text, with `@` for what begins a field's term.
fn shown(alloc: Global, bytes: &[u8]) -> Result<String, AllocError> {
    let mut seen = Vec::new(alloc);
    for byte in bytes {
        seen.push(if *byte == 255 { b'@' } else { *byte })?;
    }
    Ok(String::from_utf8(seen).unwrap_or(String::new(alloc)))
}

// The terms of the document, with a bar before each.
fn terms_of(alloc: Global, document: &Document) -> Result<String, AllocError> {
    let mut bytes = Vec::new(alloc);
    for term in document.terms().as_slice() {
        bytes.push(b'|')?;
        bytes.extend_from_slice(term.bytes())?;
    }
    shown(alloc, bytes.as_slice())
}

// How lines with these fields are read, where each word is a token.
fn by(fields: Fields<'_>) -> Dialect<'_> {
    Dialect {
        fields,
        cut: Cut::Words,
        id: None,
        text: None,
        counts: false,
    }
}

// What the line is with the fields: its terms, or its fault.
fn told(alloc: Global, fields: Fields<'_>, line: &str) -> Result<String, AllocError> {
    match DocumentReader::new(alloc).read_with(by(fields), line.as_bytes()) {
        Ok(document) => terms_of(alloc, &document),
        Err(fault) => format!(in alloc; "{fault}"),
    }
}

// Document lines with the fields `from`, `tag`, `n` and `ok`, and their terms.
const DOCUMENTS: [(&str, &str); 20] = [
    (
        r#"{"id":1,"text":"Hi there","from":"Mara K"}"#,
        "|hi|there|@from:mara k",
    ),
    (
        r#"{"id":1,"text":"a","tag":["x","Y",3,false]}"#,
        "|a|@tag:x|@tag:y|@tag:3|@tag:false",
    ),
    (
        r#"{"ok":true,"n":-5,"id":1,"text":"a","from":"b"}"#,
        "|a|@from:b|@n:-5|@ok:true",
    ),
    (
        r#"{"id":1,"text":"a","n":18446744073709551615}"#,
        "|a|@n:18446744073709551615",
    ),
    (
        r#"{"id":1,"text":"a","n":-9223372036854775808}"#,
        "|a|@n:-9223372036854775808",
    ),
    (r#"{"id":1,"text":"a","n":18446744073709551616}"#, "|a"),
    (r#"{"id":1,"text":"a","n":1.5}"#, "|a"),
    (r#"{"id":1,"text":"a","n":1e2}"#, "|a"),
    (r#"{"id":1,"text":"a","from":null}"#, "|a"),
    (r#"{"id":1,"text":"a","from":{"from":"b"}}"#, "|a"),
    (r#"{"id":1,"text":"a","tag":["x",null]}"#, "|a"),
    (r#"{"id":1,"text":"a","tag":["x",["y"]]}"#, "|a"),
    (r#"{"id":1,"text":"a","tag":["x",1.5]}"#, "|a"),
    (r#"{"id":1,"text":"a","tag":[]}"#, "|a"),
    (r#"{"id":1,"text":"a","from":"b","from":"c"}"#, "|a|@from:c"),
    (r#"{"id":1,"text":"a","from":"b","from":null}"#, "|a"),
    (r#"{"id":1,"text":"","from":""}"#, "|@from:"),
    (r#"{"id":1,"text":"from:mara","fro":"m"}"#, "|from:mara"),
    (r#"{"id":1,"from":"b"}"#, "bad document"),
    (r#"{"id":1,"text":"a","from":"b"}}"#, "bad json"),
];

#[test]
fn tells_documents_with_fields(rt: HostRuntime) -> Result<(), Fail> {
    let fields = Fields::read("from,tag,n,ok").ok_or("no fields")?;
    for (line, want) in DOCUMENTS {
        let text = told(rt.alloc(), fields, line)?;
        assert!(rt; text.as_str() == want, "{line}: {text}");
    }
    Ok(())
}

// A document line whose member `from` is this value, repeated this many times, in quotes.
fn repeated_value(alloc: Global, part: &str, times: usize) -> Result<String, AllocError> {
    let mut line = String::from_str(alloc, r#"{"id":1,"text":"a","from":""#)?;
    for _at in 0..times {
        line.push_str(part)?;
    }
    line.push_str(r#""}"#)?;
    Ok(line)
}

// A document line whose member `from` is an array of this many.
fn repeated_item(alloc: Global, times: usize) -> Result<String, AllocError> {
    let mut line = String::from_str(alloc, r#"{"id":1,"text":"a","from":[7"#)?;
    for _at in 1..times {
        line.push_str(",7")?;
    }
    line.push_str("]}")?;
    Ok(line)
}

// How many terms the line has with the field `from`, or its fault.
fn counted(alloc: Global, line: &str) -> Result<usize, LineFault> {
    let Some(fields) = Fields::read("from") else {
        return Ok(0);
    };
    match DocumentReader::new(alloc).read_with(by(fields), line.as_bytes()) {
        Ok(document) => Ok(document.terms().len()),
        Err(fault) => Err(fault),
    }
}

#[test]
fn tells_long_values(rt: HostRuntime) -> Result<(), Fail> {
    let alloc = rt.alloc();
    assert_eq!(rt;
        counted(alloc, repeated_value(alloc, "x", 128)?.as_str()),
        Ok(2)
    );
    assert_eq!(rt;
        counted(alloc, repeated_value(alloc, "x", 129)?.as_str()),
        Err(LineFault::TooLong)
    );
    assert_eq!(rt;
        counted(alloc, repeated_value(alloc, "ß", 64)?.as_str()),
        Ok(2)
    );
    assert_eq!(rt;
        counted(alloc, repeated_value(alloc, "ΐ", 22)?.as_str()),
        Err(LineFault::TooLong)
    );
    assert_eq!(rt; counted(alloc, repeated_item(alloc, 16)?.as_str()), Ok(17));
    assert_eq!(rt; counted(alloc, repeated_item(alloc, 17)?.as_str()), Ok(1));
    Ok(())
}

// The line that is written for the query, with `@` for what begins a field's term.
fn written(alloc: Global, k: u32, query: &Query) -> Result<String, NoMemory> {
    if k == 0 || k > 1000 || !query.is_well_formed() {
        return Ok(String::from_str(alloc, "no query")?);
    }
    let bytes = write_query(alloc, k, query)?;
    Ok(shown(alloc, bytes.as_slice())?)
}

// What the line reads as with the fields: the line that is written for it, or the fault.
fn reading(alloc: Global, fields: Fields<'_>, line: &str) -> Result<String, NoMemory> {
    if !line.starts_with('?') {
        return Ok(String::from_str(alloc, "no query line")?);
    }
    match read_query_with(alloc, by(fields), line) {
        Ok((k, query)) => written(alloc, k, &query),
        Err(fault) => Ok(fault_text(alloc, fault)?),
    }
}

// Query lines with the fields `from`, `room` and `level`, and what is written for them.
const QUERIES: [(&str, &str); 20] = [
    ("?5 from:mara", r#"?5 "@from:mara""#),
    ("?5 from:MARA", r#"?5 "@from:mara""#),
    ("?5 from:Straße", r#"?5 "@from:strasse""#),
    ("?5 FROM:mara", r#"?5 "from:mara""#),
    (r#"?5 room:"north gate" a"#, r#"?5 "@room:north gate" "a""#),
    (r#"?5 room:"OR (-"b"#, r#"?5 "@room:or (-" "b""#),
    ("?5 -level:debug b", r#"?5 -"@level:debug" "b""#),
    ("?5 a OR from:jon", r#"?5 "a" OR "@from:jon""#),
    ("?5 (from:a)", r#"?5 "@from:a""#),
    ("?5 from:a:b", r#"?5 "@from:a:b""#),
    (r#"?5 from:"""#, r#"?5 "@from:""#),
    (r#"?5 from:"x y"~3"#, r#"?5 "@from:x y" "3""#),
    ("?5 since:3 from:since:4", r#"?5 since:3 "@from:since:4""#),
    ("?5 fro:m user:mara", r#"?5 "fro:m" "user:mara""#),
    ("?5 a from:", "bad query at 6"),
    ("?5 from: mara", "bad query at 4"),
    ("?5 from:(mara)", "bad query at 4"),
    (r#"?5 a from:"mara"#, "bad query at 6"),
    ("?5 from", r#"?5 "from""#),
    ("?5 \"from:mara\"", r#"?5 "from:mara""#),
];

// The same without fields, and what is written for them.
const WITHOUT: [(&str, &str); 4] = [
    ("?5 from:mara", r#"?5 "from:mara""#),
    (r#"?5 room:"north gate" a"#, r#"?5 "room" "north gate" "a""#),
    ("?5 from: mara", r#"?5 "from" "mara""#),
    (r#"?5 from:"""#, "bad query at 9"),
];

#[test]
fn reads_queries_with_fields(rt: HostRuntime) -> Result<(), Fail> {
    let fields = Fields::read("from,room,level").ok_or("no fields")?;
    for (line, want) in QUERIES {
        let text = reading(rt.alloc(), fields, line)?;
        assert!(rt; text.as_str() == want, "{line}: {text}");
    }
    for (line, want) in WITHOUT {
        let text = reading(rt.alloc(), Fields::none(), line)?;
        assert!(rt; text.as_str() == want, "{line}: {text}");
    }
    Ok(())
}
