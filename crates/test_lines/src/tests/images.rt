//! Images, read and written byte by byte.
ghost use Rattle.std.specs.Prelude.{◌≤◌};

use eb_base::{Config, Document, NoMemory, Term, Terms};
use eb_image::{HeadFault, ImageFault, ImageReader, read_head, write_head, write_part};
use eb_io::{Got, MemSource, Source};
use std::alloc::Global;
use std::process::Abort;
use std::test::Fail;

// An image of two segments of two documents and 1,024 terms, with one document: the id 7, `hello`,
// `world`.
const IMAGE: [u8; 46] = [
    b'E', b'B', b'I', b'M', b'A', b'G', b'E', b'1', 0, 0, 0, 2, 0, 0, 0, 2, 0, 0, 4, 0, 1, 0, 0, 0,
    0, 0, 0, 0, 7, 0, 2, 0, 5, b'h', b'e', b'l', b'l', b'o', 0, 5, b'w', b'o', b'r', b'l', b'd', 0,
];

// The same without a document.
const EMPTY: [u8; 21] = [
    b'E', b'B', b'I', b'M', b'A', b'G', b'E', b'1', 0, 0, 0, 2, 0, 0, 0, 2, 0, 0, 4, 0, 0,
];

// How a reading ends.
#[derive(Clone, Copy, Debug, PartialEq, Eq)]
enum Read {
    // to the byte 0, with this many documents
    All(u64),
    BadImage,
    ReadFault,
    NoMemory,
}

// How a reading ends that began with this fault.
fn fault_of(fault: ImageFault) -> Read {
    match fault {
        ImageFault::BadImage => Read::BadImage,
        ImageFault::ReadFault => Read::ReadFault,
        ImageFault::NoMemory => Read::NoMemory,
    }
}

// Reads what comes after a head, up to the byte 0, and writes it again.
fn read_parts<S: Source>(
    alloc: Global,
    source: &mut S,
    reader: ImageReader,
    out: &mut Vec<u8>,
) -> Result<Read, NoMemory> {
    let mut reader = reader;
    for count in 0..100 {
        match reader.next(alloc, source) {
            Ok(None) => {
                out.push(0)?;
                return Ok(Read::All(count));
            }
            Ok(Some((document, behind))) => {
                out.extend_from_slice(&write_part(alloc, &document)?)?;
                reader = behind;
            }
            Err(fault) => return Ok(fault_of(fault)),
        }
    }
    Err(NoMemory)
}

// Reads an image, and writes what it reads again.
fn read_again<S: Source>(
    alloc: Global,
    source: &mut S,
    out: &mut Vec<u8>,
) -> Result<Read, NoMemory> {
    match read_head(source) {
        Ok((config, reader)) => {
            out.extend_from_slice(&write_head(config))?;
            read_parts(alloc, source, reader, out)
        }
        Err(HeadFault::BadImage) => Ok(Read::BadImage),
        Err(HeadFault::ReadFault) => Ok(Read::ReadFault),
    }
}

// What is to be read next where this many bytes are left, of a source that gives at most this many
// at a time.
fn next_of(left: usize, piece: usize) -> Got {
    if left == 0 {
        return Got::End;
    }
    Got::Bytes(left.min(4).min(piece))
}

// Whether the bytes begin with those that were written for them, and what comes after these is
// still in the source.
fn is_left<S: Source>(source: &mut S, bytes: &[u8], piece: usize, out: &[u8]) -> bool {
    let Some(rest) = bytes.strip_prefix(out) else {
        return false;
    };
    let mut buffer = [0; 4];
    source.read(&mut buffer) == next_of(rest.len(), piece)
}

// Asserts that a reading of these bytes, from a source that gives at most this many at a time and
// fails at some of its calls, ends so; and, where it reaches the byte 0, that it wrote them again
// and left what comes after them in the source.
fn read_as(
    rt: &impl Abort,
    alloc: Global,
    bytes: &[u8],
    piece: usize,
    failing: &[u64],
    want: Read,
) -> Result<(), NoMemory>
    requires { 1 ≤ piece }
{
    let mut source = MemSource::new(alloc, bytes, piece, failing)?;
    let mut out = Vec::new(alloc);
    let read = read_again(alloc, &mut source, &mut out)?;
    assert_eq!(rt; read, want, "{bytes:?} by {piece}, {failing:?}");
    if let Read::All(_) = read {
        assert!(rt; is_left(&mut source, bytes, piece, out.as_slice()));
    }
    Ok(())
}

// The document of the image.
fn document(alloc: Global) -> Result<Document, Fail> {
    let mut terms = Terms::new(alloc);
    terms.push(Term::new(alloc, b"hello")?)?;
    terms.push(Term::new(alloc, b"world")?)?;
    Ok(Document::new(7, terms)?)
}

#[test]
fn writes_the_bytes_of_an_image(rt: HostRuntime) -> Result<(), Fail> {
    let head = write_head(Config::new(2, 2, 1024)?);
    assert!(rt; head.as_slice() == &IMAGE[..20]);
    let part = write_part(rt.alloc(), &document(rt.alloc())?)?;
    assert!(rt; part.as_slice() == &IMAGE[20..45]);
    Ok(())
}

// How many bytes a source gives at a time.
const PIECES: [usize; 4] = [1, 2, 7, 100];

// Asserts that a reading of these bytes ends so, however many a source gives at a time.
fn read_by_pieces(
    rt: &impl Abort,
    alloc: Global,
    bytes: &[u8],
    want: Read,
) -> Result<(), NoMemory> {
    for piece in PIECES {
        read_as(rt, alloc, bytes, piece, &[], want)?;
    }
    Ok(())
}

#[test]
fn reads_exactly_an_image(rt: HostRuntime) -> Result<(), Fail> {
    let mut more = Vec::new(rt.alloc());
    more.extend_from_slice(&IMAGE)?;
    more.extend_from_slice(b"?5 hello\n")?;
    read_by_pieces(&rt, rt.alloc(), &EMPTY, Read::All(0))?;
    read_by_pieces(&rt, rt.alloc(), &IMAGE, Read::All(1))?;
    read_by_pieces(&rt, rt.alloc(), &more, Read::All(1))?;
    Ok(())
}

#[test]
fn reads_no_front_of_an_image(rt: HostRuntime) -> Result<(), Fail> {
    for len in 0..IMAGE.len() {
        read_by_pieces(&rt, rt.alloc(), &IMAGE[..len], Read::BadImage)?;
    }
    Ok(())
}

// 46 calls of one byte each read the image, and the 47th finds its end.
#[test]
fn a_source_of_single_bytes_fails(rt: HostRuntime) -> Result<(), Fail> {
    for call in 1..47 {
        read_as(&rt, rt.alloc(), &IMAGE, 1, &[call], Read::ReadFault)?;
    }
    read_as(&rt, rt.alloc(), &IMAGE, 1, &[48], Read::All(1))?;
    Ok(())
}

// Where a source gives many bytes, 7 calls read the image: the head, the byte 1, 10 bytes to the
// number of terms, 4, 5 and 5 that must follow what was taken, and the byte 0. The 8th call finds
// the end.
#[test]
fn a_source_of_many_bytes_fails(rt: HostRuntime) -> Result<(), Fail> {
    for call in 1..8 {
        read_as(&rt, rt.alloc(), &IMAGE, 100, &[call], Read::ReadFault)?;
    }
    read_as(&rt, rt.alloc(), &IMAGE, 100, &[9], Read::All(1))?;
    Ok(())
}

// Ends of some places of the image, and the least and the greatest byte that may be at each of
// these, where all others stay: none but their own in the mark, the number of the terms and their
// lengths; 1 to 64 segments; 1 to 16,777,216 documents; a power of two of terms, of which no other
// is tried; any id and any letters; and one document.
const PLACES: [(usize, u8, u8); 15] = [
    (8, 1, 0),
    (11, 0, 0),
    (12, 1, 64),
    (13, 0, 0),
    (15, 0, 255),
    (16, 1, 255),
    (18, 0, 0),
    (19, 4, 4),
    (20, 0, 0),
    (21, 1, 1),
    (29, 0, 255),
    (33, 1, 0),
    (38, 0, 255),
    (40, 1, 0),
    (45, 0, 255),
];

// Whether this byte may be at this place. At the last one only its own may.
fn may_stand(at: usize, byte: u8) -> bool {
    for (end, least, greatest) in PLACES {
        if at < end {
            return byte >= least && byte <= greatest;
        }
    }
    false
}

// What the image with another byte at this place reads as. A byte 0 before the document ends the
// image there.
fn changed(at: usize, byte: u8) -> Read {
    if at == 20 && byte == 0 {
        return Read::All(0);
    }
    if may_stand(at, byte) {
        return Read::All(1);
    }
    Read::BadImage
}

#[test]
fn reads_a_changed_image_by_its_bytes(rt: HostRuntime) -> Result<(), Fail> {
    for at in 0..IMAGE.len() {
        for byte in [IMAGE[at] ^ 1, IMAGE[at] ^ 128, 255 - IMAGE[at]] {
            let mut image = IMAGE;
            image[at] = byte;
            read_as(&rt, rt.alloc(), &image, 1, &[], changed(at, byte))?;
            read_as(&rt, rt.alloc(), &image, 100, &[], changed(at, byte))?;
        }
    }
    Ok(())
}
