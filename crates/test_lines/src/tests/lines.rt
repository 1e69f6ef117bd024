//! Lines that are cut from a source.
ghost use Rattle.std.specs.Prelude.{◌≤◌};

use eb_base::NoMemory;
use eb_io::{Lines, MemSource, Next, SureSource};
use std::alloc::Global;
use std::process::Abort;
use std::test::Fail;

// Asserts that the lines of a text that comes in pieces of this many bytes are these.
fn cut_as(
    rt: &impl Abort,
    alloc: Global,
    text: &[u8],
    piece: usize,
    wanted: &[&[u8]],
) -> Result<(), NoMemory>
    requires { 1 ≤ piece }
{
    let mut source = MemSource::new(alloc, text, piece, &[])?;
    let mut lines = Lines::new(alloc, 1000)?;
    for line in wanted {
        assert_eq!(rt; lines.next_line(&mut source), Next::Line);
        assert!(rt; lines.line() == *line, "piece {piece}");
    }
    for _ in 0..2 {
        assert_eq!(rt; lines.next_line(&mut source), Next::End);
    }
    assert_eq!(rt; lines.taken(), text.len() as u64);
    Ok(())
}

#[test]
fn cuts_a_text_however_it_is_read(rt: HostRuntime) -> Result<(), Fail> {
    let text = b"{}\r\n\n\r\nab\rc\r\r\nd\nlast";
    let wanted: [&[u8]; 6] = [b"{}", b"", b"", b"ab\rc\r", b"d", b"last"];
    assert_eq!(rt; text.len(), 20);
    for piece in [1, 2, 3, 5, 100] {
        cut_as(&rt, rt.alloc(), text, piece, &wanted)?;
    }
    Ok(())
}

// How many bytes come before a rest, what comes of the line that they begin, and its length.
const LENGTHS: [(usize, &[u8], Next, Option<usize>); 6] = [
    (65_535, b"\nb", Next::Line, Some(65_535)),
    (65_536, b"\nb", Next::Line, Some(65_536)),
    (65_537, b"\nb", Next::LongLine, None),
    (200_000, b"\nb", Next::LongLine, None),
    (65_535, b"\r\nb", Next::Line, Some(65_535)),
    (65_536, b"\r\nb", Next::LongLine, None),
];

// What comes of a text of this many letters and a rest: of its first line, with the length of what
// is a line; of its second, with whether that is `b`; and of its end.
fn passed(
    alloc: Global,
    length: usize,
    rest: &[u8],
) -> Result<(Next, Option<usize>, (Next, bool), Next), NoMemory> {
    let mut text = vec![in alloc; b'a'; length]?;
    text.extend_from_slice(rest)?;
    let mut source = SureSource::new(alloc, &text)?;
    let mut lines = Lines::new(alloc, 1_000_000)?;
    let first = lines.next_line(&mut source);
    let has = if first == Next::Line {
        Some(lines.line().len())
    } else {
        None
    };
    let second = lines.next_line(&mut source);
    let is_b = lines.line() == b"b".as_slice();
    Ok((first, has, (second, is_b), lines.next_line(&mut source)))
}

#[test]
fn passes_over_long_lines(rt: HostRuntime) -> Result<(), Fail> {
    for (length, rest, wanted, has) in LENGTHS {
        let told = passed(rt.alloc(), length, rest)?;
        assert_eq!(rt;
            told,
            (wanted, has, (Next::Line, true), Next::End),
            "length {length}"
        );
    }
    Ok(())
}

// What comes of a text of 11 bytes where 8 are the limit: what the first line is, whether it is
// `abc`, and twice what comes then, with the number of bytes that were taken.
fn stopped(alloc: Global) -> Result<(Next, bool, [(Next, u64); 2]), NoMemory> {
    let mut source = SureSource::new(alloc, b"abc\ndefg\nhi")?;
    let mut lines = Lines::new(alloc, 8)?;
    let first = lines.next_line(&mut source);
    let is_abc = lines.line() == b"abc".as_slice();
    let second = (lines.next_line(&mut source), lines.taken());
    let third = (lines.next_line(&mut source), lines.taken());
    Ok((first, is_abc, [second, third]))
}

#[test]
fn stops_at_its_limit(rt: HostRuntime) -> Result<(), Fail> {
    let told = stopped(rt.alloc())?;
    assert_eq!(rt; told, (Next::Line, true, [(Next::InputTooLong, 8); 2]));
    Ok(())
}

// What comes of a source that fails at its second call, and the line that is there then.
const BEHIND_A_FAULT: [(Next, &[u8]); 5] = [
    (Next::Line, b"abc"),
    (Next::ReadFault, b"abc"),
    (Next::Line, b"defg"),
    (Next::Line, b"hi"),
    (Next::End, b"hi"),
];

#[test]
fn goes_on_after_a_fault(rt: HostRuntime) -> Result<(), Fail> {
    let mut source = MemSource::new(rt.alloc(), b"abc\ndefg\nhi", 6, &[2])?;
    let mut lines = Lines::new(rt.alloc(), 100)?;
    for (next, line) in BEHIND_A_FAULT {
        assert_eq!(rt; lines.next_line(&mut source), next);
        assert!(rt; lines.line() == line);
    }
    Ok(())
}
