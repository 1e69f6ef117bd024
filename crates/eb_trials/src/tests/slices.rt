//! The slices that further postings of a term take.
use eb_chain::{NewSlices, needs};

// The new slices as pools 0, 1, 2, 3.
fn by_pool(new: NewSlices) -> (u32, u32, u32, u32) {
    (new.pool0, new.pool1, new.pool2, new.pool3)
}

#[test]
fn further_postings_take_slices(rt: HostRuntime) {
    let taken = [
        by_pool(needs(0, 1024)),
        by_pool(needs(0, 0)),
        by_pool(needs(2, 1)),
        by_pool(needs(1073741840, 1)),
        by_pool(needs(2147483776, 1)),
        by_pool(needs(3221227520, 1024)),
    ];
    let want = [
        (1, 1, 1, 1),
        (0, 0, 0, 0),
        (0, 1, 0, 0),
        (0, 0, 1, 0),
        (0, 0, 0, 1),
        (0, 0, 0, 1),
    ];
    assert_eq!(rt; taken, want);
}
