//! Document lines.
use eb_doc::{LineFault, read_document};
use std::alloc::Global;

// What the line is: the id of its document, or its fault.
fn told(alloc: Global, line: &[u8]) -> Result<u64, LineFault> {
    match read_document(alloc, line) {
        Ok(document) => Ok(document.id()),
        Err(fault) => Err(fault),
    }
}

// Lines that are documents, and their ids.
const DOCUMENTS: [(&[u8], u64); 4] = [
    (b"{\"id\":7,\"text\":\"hello world\"}", 7),
    (
        b"{\"id\":18446744073709551615,\"text\":\"a\",\"x\":[1,{\"y\":null}]}",
        18_446_744_073_709_551_615,
    ),
    (b"{\"id\":\"x\",\"id\":1,\"text\":\"a\"}", 1),
    (b"{\"text\":\"\",\"id\":0}", 0),
];

#[test]
fn tells_documents(rt: HostRuntime) {
    for (line, id) in DOCUMENTS {
        assert_eq!(rt; told(rt.alloc(), line), Ok(id), "{line:?}");
    }
}

// Lines that are no one JSON value.
const BAD_JSON: [&[u8]; 6] = [
    b"{\"id\":1",
    b"{\"id\":1,\"text\":\"a\",\"x\":1e999}",
    b"{\"id\":1,\"text\":\"\\ud800\"}",
    b"{\"id\":1,\"text\":\"a\"} x",
    b"{\"id\":1,\"text\":\"\xff\"}",
    b"",
];

#[test]
fn tells_bad_json(rt: HostRuntime) {
    for line in BAD_JSON {
        assert_eq!(rt; told(rt.alloc(), line), Err(LineFault::BadJson), "{line:?}");
    }
}

// Values that are no documents.
const BAD_DOCUMENTS: [&[u8]; 8] = [
    b"[1]",
    b"{\"id\":-1,\"text\":\"a\"}",
    b"{\"id\":1,\"text\":null}",
    b"{\"text\":\"a\"}",
    b"{\"id\":18446744073709551616,\"text\":\"a\"}",
    b"{\"id\":1.0,\"text\":\"a\"}",
    b"{\"id\":1e2,\"text\":\"a\"}",
    b"{\"id\":-0,\"text\":\"a\"}",
];

#[test]
fn tells_bad_documents(rt: HostRuntime) {
    for line in BAD_DOCUMENTS {
        assert_eq!(rt;
            told(rt.alloc(), line),
            Err(LineFault::BadDocument),
            "{line:?}"
        );
    }
}
