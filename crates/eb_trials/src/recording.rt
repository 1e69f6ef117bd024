ghost use Rattle.std.specs.Prelude.{◌≡◌, IfOk};
ghost use Rattle.eb_place.specs.Moments.{empty_moment};
ghost use Rattle.eb_trials.specs.Recorded.{IsRecord};

use eb_base::{Config, Document, NoMemory};
use eb_flat::FlatWords;
use eb_place::{PackPen, Pen, Places, Port, Steps};
use std::alloc::Global;
use std::sync::ledger::Ledger;

/// Words in a vector, and all stores that were done to them, in order, as pairs of place and value:
/// a writer's and a converter's pen whose stores can be looked at, and how many segments are
/// converted. Where memory runs out for a store it is done and not recorded, nor is one after it,
/// and the record says so.
#[derive(Drop)]
pub struct RecordingPen {
    words: FlatWords,
    stores: Vec<(u64, u64)>,
    puts: Vec<(u64, u64)>,
    has_lost: bool,
    // How many segments are converted; whole: no store is done of the next conversion.
    converted: u32,
    is_whole: bool,
}

impl RecordingPen {
    /// The words of an index without a document, and no store. Takes the memory of the words; a
    /// store may take more.
    pub fn new(alloc: Global, config: Config) -> Result<RecordingPen, NoMemory>
        ensures { IfOk result (λ pen. IsRecord pen (empty_moment config)) }
    {
        let words = FlatWords::new(alloc, config)?;
        Ok(RecordingPen {
            words,
            stores: Vec::new(alloc),
            puts: Vec::new(alloc),
            has_lost: false,
            converted: 0,
            is_whole: true,
        })
    }

    /// The same, of which no store is recorded: a store takes no memory.
    pub fn unrecorded(alloc: Global, config: Config) -> Result<RecordingPen, NoMemory>
        ensures { IfOk result (λ pen. IsRecord pen (empty_moment config)) }
    {
        let mut pen = RecordingPen::new(alloc, config)?;
        pen.has_lost = true;
        Ok(pen)
    }

    /// Whether a store was not recorded.
    pub fn has_lost(&self) -> bool
        ensures { result ≡ self.now.has_lost }
    {
        self.has_lost
    }

    /// The recorded stores of the writer, in order: pairs of place and value.
    pub fn stores(&self) -> &[(u64, u64)]
        ensures { result.now ≡ self.now.stores.items }
    {
        self.stores.as_slice()
    }

    /// The recorded stores of the converter, in order: pairs of place and value.
    pub fn puts(&self) -> &[(u64, u64)]
        ensures { result.now ≡ self.now.puts.items }
    {
        self.puts.as_slice()
    }

    /// How many segments are converted.
    pub fn converted(&self) -> u32
        ensures { result ≡ self.now.converted }
    {
        self.converted
    }

    /// Whether no conversion is begun and not ended.
    pub fn is_whole(&self) -> bool
        ensures { result ≡ self.now.is_whole }
    {
        self.is_whole
    }

    /// The recorded stores of the writer for themselves.
    pub fn into_stores(self) -> Vec<(u64, u64)>
        ensures { result.items ≡ self.stores.items }
    {
        let RecordingPen {
            words,
            stores,
            puts,
            has_lost,
            converted,
            is_whole,
        } = self;
        let _ = words;
        let _ = puts;
        let _ = converted;
        let _ = is_whole;
        let _ = has_lost;
        stores
    }
}

impl Port for RecordingPen {
    ghost use Rattle.std.proofs.Common.{refl, ◌∙◌};
    ghost use Rattle.eb_trials.specs.Recorded.{IsRecord};

    ghost stands = { IsRecord };

    ghost keeps = { λ s m t n. (t ≡ s) × (n ≡ m) };

    ghost same = { λ s t. t.words.setting ≡ s.words.setting };

    fn config(&self) -> Config {
        self.words.config()
    }

    fn load<L: Ledger>(&mut self, place: u64, steps: &mut Steps<L>) -> u64 {
        self.words.load(place, steps)
    }

    ghost lawful = { λ s m h. h.words.moment };

    ghost keeps_itself = { λ s m h. (refl, refl) };

    ghost keeps_on = { λ s t u l m n h k. (k.0 ∙ h.0, k.1 ∙ h.1) };

    ghost keeps_same = { λ s t m n h. λ i. (h.0 i).words.setting };

    ghost same_on = { λ s t u h k. k ∙ h };
}

impl Pen for RecordingPen {
    fn store(&mut self, document: &Document, place: u64, value: u64) {
        self.words.store(document, place, value);
        if self.has_lost {
            return;
        }
        if self.stores.push((place, value)).is_err() {
            self.has_lost = true;
        }
    }

    ghost pen_keeps = { λ s t m n h. λ i. (h.1 i).documents };
}

impl PackPen for RecordingPen {
    fn put(&mut self, place: u64, value: u64) {
        let is_last = place == Places::new(self.words.config()).converted(self.converted);
        self.words.put(place, value);
        self.converted += u32::from(is_last);
        self.is_whole = is_last;
        if self.has_lost {
            return;
        }
        if self.puts.push((place, value)).is_err() {
            self.has_lost = true;
        }
    }

    ghost pack_keeps = { λ s t m n h. λ i. (h.1 i).conversions };
}
