ghost use Rattle.std.specs.Prelude.{◌≡◌, ◌≤◌, ◌<◌, [], length, replicate, None, All, IfOk};

use crate::converter::BlendConverter;
use crate::writer::BlendWriter;
use eb_base::{Config, NoMemory};
use eb_engine::{Converter, Index, Writer};
use std::alloc::Global;
use std::marker::Model;

/// Indexes of one setting, the parts of the blend, which threads share by reference. Its writer,
/// its readers and its converter, all made with it, do what is done with it. Contracts see the
/// setting, and which indexes they are.
#[derive(Drop)]
pub struct Blend {
    config: Config,
    pub(crate) parts: Vec<Index>,
}

impl Model for Blend {
    ghost use Rattle.std.specs.Prelude.{◌≡◌, ◌≤◌, length, All};
    ghost use Rattle.eb_blend.specs.Parts.{Parts};

    ghost Value = { Parts };

    ghost view = { λ b. record { setting = b.config; indexes = b.parts.items } };

    ghost invariant = { λ b. All (λ w. w.setting ≡ b.config) b.parts.items × (1 ≤ length b.parts.items) × (length b.parts.items ≤ 16) };
}

impl Blend {
    /// A blend of `parts` parts, from 1 to 16, each an index of this setting without a document,
    /// with its one writer and its one converter. Takes all memory that the parts will ever take,
    /// at once. `NoMemory` where memory runs out: nothing is kept then.
    pub fn open(
        alloc: Global,
        parts: u32,
        config: Config,
    ) -> Result<(Blend, BlendWriter, BlendConverter), NoMemory>
        requires { (1 ≤ parts) × (parts ≤ 16) }
        ensures setting { IfOk result (λ r. r.0.setting ≡ config) }
        ensures parts { IfOk result (λ r. length r.0.indexes ≡ parts) }
        ensures settings { IfOk result (λ r. All (λ w. w.setting ≡ config) r.0.indexes) }
        ensures writer { IfOk result (λ r. r.1 ≡ record { indexes = r.0.indexes; histories = replicate parts []; last = None }) }
        ensures converter { IfOk result (λ r. r.2 ≡ record { indexes = r.0.indexes; histories = replicate parts []; converted = replicate parts 0 }) }
    {
        let mut indexes = Vec::with_capacity(alloc, parts as usize)?;
        let mut writers = Vec::with_capacity(alloc, parts as usize)?;
        let mut converters = Vec::with_capacity(alloc, parts as usize)?;
        for _part in 0..parts {
            let (index, writer, converter) = Index::open(alloc, config)?;
            indexes.push(index)?;
            writers.push(writer)?;
            converters.push(converter)?;
        }
        let blend = Blend {
            config,
            parts: indexes,
        };
        Ok((
            blend,
            BlendWriter::new(writers),
            BlendConverter::new(converters),
        ))
    }
}
