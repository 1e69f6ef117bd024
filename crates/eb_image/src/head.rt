ghost use Rattle.std.specs.Prelude.{◌≡◌, ℕ, ◌+◌, ◌<◌, ◌≤◌, ◌^◌, ◌⊎◌, ◌↔◌, List, length, take, drop, MatchOption, IfOk, IsErrOf, IsTrue};
ghost use Rattle.std.specs.Int.{w32, from_be_bytes};
ghost use Rattle.eb_io.specs.Faults.{HasRisen};
ghost use Rattle.eb_io.specs.Source.{after};
ghost use Rattle.eb_image.specs.Image.{head_of};
ghost use Rattle.eb_image.specs.Reading.{IsHead, IsHeadOf, IsBad, HasBegun, Begins};
ghost use Rattle.eb_image.specs.Scan.{byte_window};
ghost use Rattle.eb_base.specs.Setting.{Setting, IsSetting};

use crate::fault::HeadFault;
use crate::fill::read_behind;
use crate::reader::ImageReader;
use crate::scan::byte_at;
use eb_base::Config;
use eb_io::{Got, Source};

// The bytes of a head.
pub(crate) const HEAD: usize = 20;

// The bytes that a head begins with.
const MARK: &[u8; 8] = b"EBIMAGE1";

/// The head of an image of this setting: the bytes `EBIMAGE1`, and in four bytes each, highest
/// first, the segments, and the documents and the terms of a segment (this project's profile,
/// docs/FORMATS.md).
pub fn write_head(config: Config) -> [u8; HEAD]
    ensures { result ≡ head_of config }
{
    let segments = config.segments().to_be_bytes();
    let docs = config.docs().to_be_bytes();
    let terms = config.terms().to_be_bytes();
    [
        b'E',
        b'B',
        b'I',
        b'M',
        b'A',
        b'G',
        b'E',
        b'1',
        segments[0],
        segments[1],
        segments[2],
        segments[3],
        docs[0],
        docs[1],
        docs[2],
        docs[3],
        terms[0],
        terms[1],
        terms[2],
        terms[3],
    ]
}

// The number in the four bytes at this place, highest first.
fn four_bytes_at(head: &[u8], at: usize) -> u32
    requires { at + 4 ≤ length head.now }
    ensures { result ≡ from_be_bytes w32 (take 4 (drop at head.now)) }
{
    u32::from_be_bytes([head[at], head[at + 1], head[at + 2], head[at + 3]])
}

// The setting of these numbers, where it is allowed.
fn allowed(segments: u32, docs: u32, terms: u32) -> Option<Config>
    ensures { let σ : Setting = record { segments = segments; docs = docs; terms = terms } in
        MatchOption result (IsSetting σ → ⊥) (λ config. IsSetting σ × (config ≡ σ)) }
{
    match Config::new(segments, docs, terms) {
        Ok(config) => Some(config),
        Err(_) => None,
    }
}

// The number whose four bytes begin at a place, where a byte that is missing counts as 0; but this
// least number where only zeros are there and a byte is missing.
fn first_number(bytes: &[u8], at: usize, least: u32) -> u32
    requires { at < 2 ^ 32 }
    ensures there { let number : ℕ = from_be_bytes w32 (byte_window bytes.now at 4) in
        (0 < number) ⊎ (at + 4 ≤ length bytes.now) → result ≡ number }
    ensures missing { from_be_bytes w32 (byte_window bytes.now at 4) ≡ 0 → length bytes.now < at + 4 → result ≡ least }
{
    let number = u32::from_be_bytes([
        byte_at(bytes, at),
        byte_at(bytes, at + 1),
        byte_at(bytes, at + 2),
        byte_at(bytes, at + 3),
    ]);
    if number == 0 && bytes.len() < at + 4 {
        least
    } else {
        number
    }
}

// Whether the bytes are a prefix of the head of an allowed setting, or all of it. If they are, they
// are a prefix of the head of the setting that has the least of each number that they leave open.
pub(crate) fn begins_head(bytes: &[u8]) -> bool
    ensures { IsTrue result ↔ Begins IsHead bytes.now }
{
    if bytes.len() > HEAD {
        return false;
    }
    let segments = first_number(bytes, 8, 1);
    let docs = first_number(bytes, 12, 1);
    let terms = first_number(bytes, 16, 1024);
    match allowed(segments, docs, terms) {
        Some(config) => write_head(config)[..bytes.len()] == bytes[..],
        None => false,
    }
}

// The setting whose head these bytes are.
pub(crate) fn setting_of(head: &[u8]) -> Option<Config>
    requires { length head.now ≡ HEAD }
    ensures { MatchOption result (IsHead head.now → ⊥) (λ config. IsHeadOf config head.now) }
{
    if head[..8] != MARK[..] {
        return None;
    }
    allowed(
        four_bytes_at(head, 8),
        four_bytes_at(head, 12),
        four_bytes_at(head, 16),
    )
}

/// Reads the head of an image, exactly its 20 bytes, and returns the setting and the reader of what
/// comes after it.
///
/// `BadImage` exactly where the bytes that were taken begin no head of an allowed setting, or the
/// source ended before a whole one. No clause says that it comes as soon as they begin none. After
/// a fault the bytes taken are gone from the source. Takes no memory.
pub fn read_head<S: Source>(source: &mut S) -> Result<(Config, ImageReader), HeadFault>
    // the bytes taken are the head of the setting, which is allowed
    ensures ok { IfOk result (λ read. IsSetting read.0 × (S.left source.old ≡ after (head_of read.0) (S.left source.new))) }
    ensures bad { IsErrOf result HeadFault.BadImage
        → (taken : List ℕ) × (S.left source.old ≡ after taken (S.left source.new)) × IsBad IsHead taken (S.left source.new) }
    ensures fault { IsErrOf result HeadFault.ReadFault → (taken : List ℕ) × (S.left source.old ≡ after taken (S.left source.new))
        × HasBegun IsHead taken × HasRisen (S.faults source.old) (S.faults source.new) }
    ensures later { S.faults source.old ≤ S.faults source.new }
{
    let mut head = [0; HEAD];
    let mut have = 0;
    'reads: while have < HEAD {
        match read_behind(source, &mut head, have, HEAD) {
            Got::Bytes(count) => have += count,
            Got::End => return Err(HeadFault::BadImage),
            Got::Failed => return Err(HeadFault::ReadFault),
        }
        if !begins_head(&head[..have]) {
            return Err(HeadFault::BadImage);
        }
    }
    match setting_of(&head) {
        Some(config) => Ok((config, ImageReader::new())),
        None => unreachable!(),
    }
}
