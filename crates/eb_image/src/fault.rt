use std::error::Error;
use std::fmt;

/// Why the head of an image wasn't read.
#[derive(Clone, Copy, Debug, PartialEq, Eq)]
pub enum HeadFault {
    /// The bytes taken, with the end where the source gave one, begin no head of an allowed
    /// setting.
    BadImage,
    /// The source failed.
    ReadFault,
}

impl fmt::Display for HeadFault {
    ghost use Rattle.std.specs.Prelude.{Some};
    ghost use Rattle.eb_image.specs.Faults.{head_fault_text};

    ghost output = { λ fault. Some (head_fault_text fault) };

    fn fmt<W: fmt::Write>(&self, f: &mut fmt::Formatter<W>) -> fmt::Result {
        match self {
            HeadFault::BadImage => f.write_str("bad image"),
            HeadFault::ReadFault => f.write_str("read fault"),
        }
    }
}

impl Error for HeadFault {}

/// Why the next part of an image wasn't read.
#[derive(Clone, Copy, Debug, PartialEq, Eq)]
pub enum ImageFault {
    /// The bytes taken, with the end where the source gave one, begin no part of a document within
    /// the limits, and no byte 0.
    BadImage,
    /// The source failed.
    ReadFault,
    /// Memory ran out. The bytes of the part are taken.
    NoMemory,
}

impl fmt::Display for ImageFault {
    ghost use Rattle.std.specs.Prelude.{Some};
    ghost use Rattle.eb_image.specs.Faults.{image_fault_text};

    ghost output = { λ fault. Some (image_fault_text fault) };

    fn fmt<W: fmt::Write>(&self, f: &mut fmt::Formatter<W>) -> fmt::Result {
        match self {
            ImageFault::BadImage => f.write_str("bad image"),
            ImageFault::ReadFault => f.write_str("read fault"),
            ImageFault::NoMemory => f.write_str("memory ran out"),
        }
    }
}

impl Error for ImageFault {}
