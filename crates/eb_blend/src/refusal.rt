use std::error::Error;
use std::fmt;

/// Why a blend refused a document.
#[derive(Clone, Copy, Debug, PartialEq, Eq)]
pub enum BlendRefusal {
    /// The id of the document that was accepted last isn't below that of this one.
    NotRising {
        /// That id.
        last: u64,
    },
    /// The document's id is above the last one, and its part has no room for it.
    Full {
        /// The number of the part.
        part: u32,
    },
}

impl fmt::Display for BlendRefusal {
    ghost use Rattle.std.specs.Prelude.{Some};
    ghost use Rattle.eb_blend.specs.Faults.{blend_refusal_text};

    ghost output = { λ refusal. Some (blend_refusal_text refusal) };

    fn fmt<W: fmt::Write>(&self, f: &mut fmt::Formatter<W>) -> fmt::Result {
        match self {
            BlendRefusal::NotRising { last } => write!(f, "not rising after {last}"),
            BlendRefusal::Full { part } => write!(f, "part {part} is full"),
        }
    }
}

impl Error for BlendRefusal {}
