//! An index that is opened ahead of a turn.
ghost use Rattle.std.specs.Prelude.{◌≡◌, [], None, IfOk};
ghost use Rattle.std.specs.Arc.{arc_value};

use crate::converter::FeedConverter;
use eb_base::{Config, NoMemory};
use eb_engine::{Index, Writer};
use std::alloc::Global;
use std::marker::Model;
use std::sync::Arc;

/// An index that was opened ahead, for the next generation of a feed. It may be opened on any
/// thread. Contracts see which index it is, and its setting.
#[derive(Drop)]
pub struct Spare {
    config: Config,
    index: Arc<Index, Global>,
    writer: Writer,
    converter: FeedConverter,
}

impl Model for Spare {
    ghost use Rattle.std.specs.Prelude.{◌≡◌, [], None};
    ghost use Rattle.std.specs.Arc.{arc_value};
    ghost use Rattle.eb_table.specs.Known.{Words};

    ghost Value = { Words };

    ghost view = { λ s. arc_value s.index };

    ghost invariant = { λ s. ((arc_value s.index).setting ≡ s.config) × (s.writer ≡ record { index = arc_value s.index; docs = []; converted = 0 })
        × (s.converter ≡ record { index = arc_value s.index; docs = []; placing = None; converted = 0 }) };
}

impl Spare {
    /// Opens an index of this setting, without a document. Takes all memory that the generation
    /// will ever take. `NoMemory` where memory runs out: nothing is kept then.
    pub fn open(alloc: Global, config: Config) -> Result<Spare, NoMemory>
        ensures { IfOk result (λ s. s.setting ≡ config) }
    {
        let (index, writer, converter) = Index::open(alloc, config)?;
        let index = Arc::new(alloc, index)?;
        let theirs = Arc::try_clone(&index)?;
        Ok(Spare {
            config,
            index,
            writer,
            converter: FeedConverter::new(theirs, converter),
        })
    }

    /// Its setting.
    pub fn config(&self) -> Config
        ensures { result ≡ self.now.setting }
    {
        self.config
    }

    // Its parts: the index, with its writer and its converter.
    pub(crate) fn into_parts(self) -> (Arc<Index, Global>, Writer, FeedConverter)
        ensures index { arc_value result.0 ≡ self }
        ensures writer { result.1 ≡ record { index = self; docs = []; converted = 0 } }
        ensures converter { result.2 ≡ record { index = self; docs = []; placing = None; converted = 0 } }
    {
        let Spare {
            index,
            writer,
            converter,
            ..
        } = self;
        (index, writer, converter)
    }
}
