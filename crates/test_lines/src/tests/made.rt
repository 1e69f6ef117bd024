//! Made input.
use eb_gen::{line_of, query_of};
use std::test::Fail;

// The number of a made line, the line, and the made query of this number.
const MADE: [(u32, &str, &str); 2] = [
    (
        0,
        "{\"id\":0,\"text\":\"w20 w108 w196 w28 w117 w205 w37 w126\"}",
        "?10 w20 w108",
    ),
    (
        1,
        "{\"id\":1,\"text\":\"w214 w46 w135 w223 w55 w144 w232 w64\"}",
        "?10 w214 w46",
    ),
];

#[test]
fn makes_the_same_lines(rt: HostRuntime) -> Result<(), Fail> {
    for (number, line, query) in MADE {
        assert_eq!(rt; line_of(rt.alloc(), 0, number)?.as_slice(), line.as_bytes());
        assert_eq!(rt;
            query_of(rt.alloc(), 0, number)?.as_slice(),
            query.as_bytes()
        );
    }
    Ok(())
}
