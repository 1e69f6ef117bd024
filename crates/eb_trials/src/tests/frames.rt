//! The ids of a frame.
use super::asking::query;
use eb_cursor::Frame;
use std::test::Fail;

#[test]
fn a_frame_takes_ids(rt: HostRuntime) -> Result<(), Fail> {
    let query = query(rt.alloc(), b"a \" a a \" &2")?;
    assert!(rt; query.is_well_formed());
    let mut frame = Frame::new(rt.alloc(), query, 2)?;
    assert!(rt; frame.ids().is_empty() && !frame.is_full());
    frame.push(7);
    frame.push(9);
    assert_eq!(rt; (frame.ids(), frame.is_full()), ([7, 9].as_slice(), true));
    frame.clear();
    assert!(rt; frame.ids().is_empty() && !frame.is_full());
    Ok(())
}
