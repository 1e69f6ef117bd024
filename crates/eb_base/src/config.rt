ghost use Rattle.std.specs.Prelude.{◌≡◌, ◌+◌, ◌*◌, ◌<◌, ◌≤◌, ◌^◌, ◌↔◌, IfOk, IsErrOf, IsTrue};
ghost use Rattle.eb_base.specs.Setting.{Setting, IsSetting, AreSegments, AreDocs, AreTerms, words_of};

use std::error::Error;
use std::fmt;
use std::marker::Model;

/// The most segments of an index.
pub const MAX_SEGMENTS: u32 = 64;

/// The most documents of a segment.
pub const MAX_DOCS: u32 = 16_777_216;

/// The most words of an index: 1 GiB of 64-bit words.
pub const MAX_WORDS: u64 = 134_217_728;

/// The setting of an index: how many segments it has, and for how many documents and terms each of
/// them has room (this project's profile, docs/FORMATS.md).
#[derive(Clone, Copy, Debug, PartialEq, Eq)]
pub struct Config {
    segments: u32,
    docs: u32,
    terms: u32,
}

impl Model for Config {
    ghost use Rattle.eb_base.specs.Setting.{Setting, IsSetting};

    ghost Value = { Setting };

    ghost view = { λ c. record { segments = c.segments; docs = c.docs; terms = c.terms } };

    ghost invariant = { λ c. IsSetting (record { segments = c.segments; docs = c.docs; terms = c.terms }) };

    ghost inverse = { λ s. record { segments = s.segments; docs = s.docs; terms = s.terms } };
}

/// The first number of a setting that is out of range.
#[derive(Clone, Copy, Debug, PartialEq, Eq)]
pub enum ConfigFault {
    /// The segments aren't 1 to 64.
    Segments,
    /// The documents of a segment aren't 1 to 16,777,216.
    Docs,
    /// The terms of a segment aren't a power of two from 1,024 to 1,048,576.
    Terms,
    /// The words of the index, `1 + segments * (2 + docs + 77 * terms)`, are more than 134,217,728.
    Words,
}

impl fmt::Display for ConfigFault {
    ghost use Rattle.std.specs.Prelude.{Some};
    ghost use Rattle.eb_base.specs.Faults.{config_fault_text};

    ghost output = { λ fault. Some (config_fault_text fault) };

    fn fmt<W: fmt::Write>(&self, f: &mut fmt::Formatter<W>) -> fmt::Result {
        match self {
            ConfigFault::Segments => f.write_str("not 1 to 64 segments"),
            ConfigFault::Docs => f.write_str("not 1 to 16,777,216 documents a segment"),
            ConfigFault::Terms => f.write_str(
                "the terms of a segment are no power of two from 1,024 to 1,048,576",
            ),
            ConfigFault::Words => f.write_str("more than 134,217,728 words"),
        }
    }
}

impl Error for ConfigFault {}

impl Config {
    /// The setting with these numbers; else the first of them that is out of range. Takes no
    /// memory.
    pub fn new(segments: u32, docs: u32, terms: u32) -> Result<Config, ConfigFault>
        ensures ok { IfOk result (λ config. config ≡ record { segments = segments; docs = docs; terms = terms }) }
        ensures segments { IsErrOf result ConfigFault.Segments ↔ (AreSegments segments → ⊥) }
        ensures docs { IsErrOf result ConfigFault.Docs ↔ (AreSegments segments × (AreDocs docs → ⊥)) }
        ensures terms { IsErrOf result ConfigFault.Terms ↔ (AreSegments segments × AreDocs docs × (AreTerms terms → ⊥)) }
        ensures words { IsErrOf result ConfigFault.Words
            ↔ (AreSegments segments × AreDocs docs × AreTerms terms × (2 ^ 27 < words_of (record { segments = segments; docs = docs; terms = terms }))) }
    {
        if segments < 1 || segments > MAX_SEGMENTS {
            return Err(ConfigFault::Segments);
        }
        if docs < 1 || docs > MAX_DOCS {
            return Err(ConfigFault::Docs);
        }
        if !are_terms(terms) {
            return Err(ConfigFault::Terms);
        }
        if words(segments, docs, terms) > MAX_WORDS {
            return Err(ConfigFault::Words);
        }
        Ok(Config {
            segments,
            docs,
            terms,
        })
    }

    /// The setting of an index where none is named: 12 segments of 4,096 documents and 8,192 terms,
    /// 7,618,585 words.
    pub fn usual() -> Config
        ensures { result ≡ record { segments = 12; docs = 4096; terms = 8192 } }
    {
        Config {
            segments: 12,
            docs: 4096,
            terms: 8192,
        }
    }

    /// The number of segments, 1 to 64.
    pub fn segments(&self) -> u32
        ensures { result ≡ self.now.segments }
    {
        self.segments
    }

    /// The documents that a segment has room for, 1 to 16,777,216.
    pub fn docs(&self) -> u32
        ensures { result ≡ self.now.docs }
    {
        self.docs
    }

    /// The terms that a segment has room for, a power of two from 1,024 to 1,048,576.
    pub fn terms(&self) -> u32
        ensures { result ≡ self.now.terms }
    {
        self.terms
    }

    /// The 64-bit words of an index of this setting, at most 134,217,728.
    pub fn words(&self) -> u64
        ensures words { result ≡ words_of self.now }
        ensures setting { IsSetting self.now }
    {
        words(self.segments, self.docs, self.terms)
    }
}

// Whether the number is a power of two from 1,024 to 1,048,576.
fn are_terms(terms: u32) -> bool
    ensures { IsTrue result ↔ AreTerms terms }
{
    for bits in 10u32..21 {
        if terms == 1 << bits {
            return true;
        }
    }
    false
}

// The words of an index with these numbers.
fn words(segments: u32, docs: u32, terms: u32) -> u64
    requires segments { segments ≤ 64 }
    requires docs { docs ≤ 2 ^ 24 }
    requires terms { AreTerms terms }
    ensures { result ≡ words_of (record { segments = segments; docs = docs; terms = terms }) }
{
    1 + u64::from(segments) * (2 + u64::from(docs) + 77 * u64::from(terms))
}
