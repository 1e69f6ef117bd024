use std::error::Error;
use std::fmt;

/// Why a watch was not set.
#[derive(Clone, Copy, Debug, PartialEq, Eq)]
pub enum SetFault {
    /// A watch has this number.
    Taken,
    /// No watch has it, and [`MAX_WATCHES`](crate::MAX_WATCHES) watches are set.
    Full,
    /// Memory ran out.
    NoMemory,
}

impl fmt::Display for SetFault {
    ghost use Rattle.std.specs.Prelude.{Some};
    ghost use Rattle.eb_watch.specs.Faults.{set_fault_text};

    ghost output = { λ fault. Some (set_fault_text fault) };

    fn fmt<W: fmt::Write>(&self, f: &mut fmt::Formatter<W>) -> fmt::Result {
        match self {
            SetFault::Taken => f.write_str("a watch has this number"),
            SetFault::Full => f.write_str("the most watches are set"),
            SetFault::NoMemory => f.write_str("memory ran out"),
        }
    }
}

impl Error for SetFault {}

/// No watch has this number.
#[derive(Clone, Copy, Debug, PartialEq, Eq)]
pub struct NoWatch;

impl fmt::Display for NoWatch {
    ghost use Rattle.std.specs.Prelude.{Some, codes};

    ghost output = { λ _. Some (codes "no watch has this number") };

    fn fmt<W: fmt::Write>(&self, f: &mut fmt::Formatter<W>) -> fmt::Result {
        f.write_str("no watch has this number")
    }
}

impl Error for NoWatch {}

/// Why a document wasn't added.
#[derive(Clone, Copy, Debug, PartialEq, Eq)]
pub enum WatchFault {
    /// The index has no room for the document.
    Full,
    /// Memory ran out before the document was added.
    NoMemory,
}

impl fmt::Display for WatchFault {
    ghost use Rattle.std.specs.Prelude.{Some};
    ghost use Rattle.eb_watch.specs.Faults.{watch_fault_text};

    ghost output = { λ fault. Some (watch_fault_text fault) };

    fn fmt<W: fmt::Write>(&self, f: &mut fmt::Formatter<W>) -> fmt::Result {
        match self {
            WatchFault::Full => f.write_str("the index has no room for the document"),
            WatchFault::NoMemory => f.write_str("memory ran out"),
        }
    }
}

impl Error for WatchFault {}
