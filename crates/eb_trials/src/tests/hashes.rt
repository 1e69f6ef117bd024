//! The home cells of terms.
use eb_base::Term;
use eb_terms::home;
use std::test::Fail;

// Terms, their hashes, which are below 2^31, and their home cells among 2,048.
const TERMS: [(&str, u32, u32); 8] = [
    ("b", 98, 98),
    ("ab", 3105, 1057),
    ("aa", 3104, 1056),
    ("qq", 3616, 1568),
    ("po", 3583, 1535),
    ("r1", 3583, 1535),
    ("aonpo", 92997631, 2047),
    ("aonr1", 92997631, 2047),
];

#[test]
fn hashes_and_home_cells(rt: HostRuntime) -> Result<(), Fail> {
    for (bytes, hash, cell) in TERMS {
        let term = Term::new(rt.alloc(), bytes.as_bytes())?;
        assert_eq!(rt; home(&term, 1 << 31), hash, "{bytes}");
        assert_eq!(rt; home(&term, 2048), cell, "{bytes}");
    }
    Ok(())
}
