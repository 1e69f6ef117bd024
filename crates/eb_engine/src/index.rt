//! The index that threads share.
//!
//! Opening makes a list of zeros first and the table from it, since the kit makes a table from a
//! slice alone. So the words are held twice until it returns.
//!
//! The writer keeps no count of its own: the placer has it. Writers and readers keep how many
//! segments they know to be converted. A seat may know of more, but a contract gives the number
//! exactly, and only `hear`, `reader`, `split` and `meet` pass it on. Each such number comes from
//! the writer's `hear`, so the writer's own is never below a reader's, and its `meet` takes none
//! over.
ghost use Rattle.std.specs.Prelude.{◌≡◌, [], None, IfOk};

use crate::converter::Converter;
use crate::writer::Writer;
use eb_base::{Config, NoMemory};
use eb_table::SharedWords;
use std::alloc::Global;
use std::marker::Model;

/// An index of documents, after the Earlybird paper of 2012, which threads share by reference. Its
/// writer, its readers and its converter, all made with it, do what is done with it. Contracts see
/// which index it is, and its setting.
#[derive(Drop)]
pub struct Index {
    pub(crate) words: SharedWords,
}

impl Model for Index {
    ghost use Rattle.eb_table.specs.Known.{Words};

    ghost Value = { Words };

    ghost view = { λ i. i.words };
}

impl Index {
    /// An index without a document, with its one writer and its one converter. Takes all memory
    /// that the index will ever take, at once (`eb_table::SharedWords::open` says how much).
    /// `NoMemory` where memory runs out: nothing is kept then.
    pub fn open(alloc: Global, config: Config) -> Result<(Index, Writer, Converter), NoMemory>
        ensures setting { IfOk result (λ r. r.0.setting ≡ config) }
        ensures writer { IfOk result (λ r. r.1 ≡ record { index = r.0; docs = []; converted = 0 }) }
        ensures converter { IfOk result (λ r. r.2 ≡ record { index = r.0; docs = []; placing = None; converted = 0 }) }
    {
        let (words, writer, converter) = SharedWords::open(alloc, config)?;
        Ok((
            Index { words },
            Writer::new(writer, config),
            Converter::new(converter),
        ))
    }
}
