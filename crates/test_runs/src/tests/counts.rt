//! The line of a count, in words and as JSON; worked by hand.
use eb_lines::{Form, line_room, put_count};
use std::alloc::Global;
use std::test::Fail;

// A count in this line over this many documents, with this many matches, and in each bucket this
// many.
fn line_of(
    alloc: Global,
    json: bool,
    number: u64,
    seen: u64,
    total: u64,
    buckets: &[u64],
) -> Result<Vec<u8>, Fail> {
    if buckets.len() > 1000 {
        return Err(Fail::new("too many buckets"));
    }
    let form = Form { json, stats: false };
    let mut text = Vec::new(alloc);
    text.reserve(line_room(1 + buckets.len()))?;
    put_count(&mut text, form, number, seen, total, buckets);
    Ok(text)
}

const LINES: [(bool, u64, u64, u64, &[u64], &str); 5] = [
    (false, 3, 2, 2, &[], "3 count 2: 2\n"),
    (false, 8, 4, 3, &[1, 1, 1], "8 count 4: 3 1 1 1\n"),
    (true, 6, 4, 3, &[], "{\"line\":6,\"seen\":4,\"count\":3}\n"),
    (
        true,
        7,
        4,
        3,
        &[1, 1],
        "{\"line\":7,\"seen\":4,\"count\":3,\"buckets\":[1,1]}\n",
    ),
    (
        false,
        u64::MAX,
        u64::MAX,
        u64::MAX,
        &[u64::MAX],
        "18446744073709551615 count 18446744073709551615: 18446744073709551615 18446744073709551615\n",
    ),
];

#[test]
fn counts_are_printed(rt: HostRuntime) -> Result<(), Fail> {
    for (json, number, seen, total, buckets, want) in LINES {
        let line = line_of(rt.alloc(), json, number, seen, total, buckets)?;
        assert_eq!(rt; line.as_slice(), want.as_bytes());
    }
    Ok(())
}
