ghost use Rattle.std.specs.Prelude.{◌≡◌, ◌<◌, [], IfOk, replicate};
ghost use Rattle.eb_base.specs.Setting.{words_of};
ghost use Rattle.eb_place.specs.Moments.{IsMoment, empty_moment};
ghost use Rattle.eb_place.specs.NextStores.{IsNext, after_store, IsNextPut, after_put};
ghost use Rattle.eb_table.specs.Rule.{IsLive, IsUnspent, moment_of};
ghost use Rattle.eb_table.specs.Steps.{LoadedWord, Confirmed, left_of, right_of, met};
ghost use Rattle.eb_table.specs.Known.{MadeWith, IsSeat};
ghost use Rattle.eb_table.specs.declared.view.View.TheVariants.{Opening, Writer, Reader, Converter};
ghost use Rattle.atomic_table.specs.Table.{step};
ghost use mathlib.Core.Option.{none};

use crate::rule::{
    ConfirmStep, JoinStep, LoadStep, Placed, PutStep, SplitStep, StoreStep, WordsRule,
};
use crate::seats::{ConverterSeat, WriterSeat};
use crate::view::View;
use atomic_table::{Seat, Table};
use eb_base::{Config, Document, NoMemory};
use std::alloc::Global;
use std::marker::Model;

/// The words of an index, which threads share: `config.words()` words of 64 bits. They change only
/// by the stores of the writer's and the converter's seats that `open` gives, each of one word.
/// Contracts see which table it is, and the setting.
#[derive(Drop)]
pub struct SharedWords {
    table: Table<(), View, Config, WordsRule, Global>,
    config: Config,
}

impl Model for SharedWords {
    ghost use Rattle.std.specs.Prelude.{◌≡◌};
    ghost use Rattle.eb_base.specs.Setting.{words_of};
    ghost use Rattle.eb_table.specs.Known.{Words};

    ghost Value = { Words };

    ghost view = { λ w. record { table = w.table.shared.table_id; setting = w.config } };

    ghost invariant = { λ w. (w.table.shared.key ≡ w.config) × (w.table.shared.table_id.words ≡ words_of w.config) };
}

impl SharedWords {
    /// The words of an index without a document, all 0, with the seats of its writer and its
    /// converter, which know the empty moment. The layout of the words is this project's profile,
    /// docs/FORMATS.md. Takes all memory of the index, and holds the words twice until it returns,
    /// since the table is made from a list of its words: 117 MiB at the usual setting, of which 58
    /// MiB stay, and 2 GiB at the greatest, of which 1 GiB stays. `NoMemory` where memory runs out:
    /// nothing is kept then.
    pub fn open(
        alloc: Global,
        config: Config,
    ) -> Result<(SharedWords, WriterSeat, ConverterSeat), NoMemory>
        ensures setting { IfOk result (λ r. r.0.setting ≡ config) }
        ensures writer { IfOk result (λ r. MadeWith r.1 r.0 × (r.1.moment ≡ empty_moment config)) }
        ensures converter { IfOk result (λ r. MadeWith r.2 r.0 × (r.2.moment ≡ empty_moment config)) }
    {
        let zeros = vec![in alloc; 0u64; config.words() as usize]?;
        let (words, mut seat) = SharedWords::of(alloc, config, &zeros)?;
        let other = words.split(&mut seat);
        Ok((words, WriterSeat { seat }, ConverterSeat { seat: other }))
    }

    /// The setting of the index.
    pub fn config(&self) -> Config
        ensures { result ≡ self.now.setting }
    {
        self.config
    }

    // The words of an index whose words are these zeros, with the first seat.
    fn of(
        alloc: Global,
        config: Config,
        zeros: &[u64],
    ) -> Result<(SharedWords, Seat<(), View>), NoMemory>
        requires { zeros.now ≡ replicate (words_of config) 0 }
        ensures { IfOk result (λ r. (r.0.setting ≡ config) × (r.1.table_id ≡ r.0.table) × (r.1.me ≡ (Opening (empty_moment config), []))) }
    {
        let _words = config.words();
        let (table, seat) = Table::of_words(alloc, zeros, &config)?;
        Ok((SharedWords { table, config }, seat))
    }

    // Loads a word: the seat then knows the moment of the words, or an earlier one that isn't
    // before its own.
    pub(crate) fn load_word(&self, seat: &mut Seat<(), View>, place: u64) -> u64
        requires live { IsLive seat.old.me.0 × (seat.old.me.1 ≡ []) }
        requires made { seat.old.table_id ≡ self.now.table }
        requires place { place < words_of self.now.setting }
        ensures same { seat.new.table_id ≡ seat.old.table_id }
        ensures told { LoadedWord (step 0 place 0 0 none) seat.old.me result seat.new.me }
    {
        self.table.shared.load::<LoadStep>(seat, place as usize)
    }

    // Checks that what a seat knows lies on the history of the words, by a load of word 0 that
    // shows it no later moment.
    pub(crate) fn confirm(&self, seat: &mut Seat<(), View>)
        requires live { IsLive seat.old.me.0 × (seat.old.me.1 ≡ []) }
        requires made { seat.old.table_id ≡ self.now.table }
        ensures same { seat.new.table_id ≡ seat.old.table_id }
        ensures confirmed { Confirmed (step 0 0 0 0 none) seat.old.me 0 seat.new.me }
    {
        let _words = self.config.words();
        self.table.shared.load::<ConfirmStep>(seat, 0);
    }

    // Does the next store of the placing of a document.
    pub(crate) fn store_word<D: Placed>(
        &self,
        seat: &mut Seat<(), View>,
        document: &Document,
        place: u64,
        value: u64,
    )
        requires picked { document.now ≡ D.document }
        requires writer { IsSeat Writer seat.old.me }
        requires made { (seat.old.table_id ≡ self.now.table) × ((moment_of seat.old.me.0).setting ≡ self.now.setting) }
        requires moment { IsMoment (moment_of seat.old.me.0) }
        requires next { IsNext (moment_of seat.old.me.0) document.now place value }
        ensures same { seat.new.table_id ≡ seat.old.table_id }
        ensures stored { seat.new.me ≡ (Writer (after_store (moment_of seat.old.me.0) document.now), []) }
    {
        let _ = document;
        self.table
            .shared
            .store::<StoreStep<D>>(seat, place as usize, value);
    }

    // Does the next store of the next conversion.
    pub(crate) fn put_word(&self, seat: &mut Seat<(), View>, place: u64, value: u64)
        requires converter { IsSeat Converter seat.old.me }
        requires made { (seat.old.table_id ≡ self.now.table) × ((moment_of seat.old.me.0).setting ≡ self.now.setting) }
        requires moment { IsMoment (moment_of seat.old.me.0) }
        requires next { IsNextPut (moment_of seat.old.me.0) place value }
        ensures same { seat.new.table_id ≡ seat.old.table_id }
        ensures stored { seat.new.me ≡ (Converter (after_put (moment_of seat.old.me.0)), []) }
    {
        self.table
            .shared
            .store::<PutStep>(seat, place as usize, value);
    }

    // Splits a seat. The first seat becomes the writer's, and the new one the converter's; any
    // other seat stays, and the new one is a reader's, which knows the same.
    pub(crate) fn split(&self, seat: &mut Seat<(), View>) -> Seat<(), View>
        requires live { IsUnspent seat.old.me.0 × (seat.old.me.1 ≡ []) }
        requires made { seat.old.table_id ≡ self.now.table }
        ensures same { (seat.new.table_id ≡ seat.old.table_id) × (result.table_id ≡ seat.old.table_id) }
        ensures left { seat.new.me ≡ (left_of seat.old.me.0, []) }
        ensures right { result.me ≡ (right_of seat.old.me.0, []) }
    {
        self.table.shared.split_seat::<SplitStep>(seat)
    }

    // Meets a reader's seat.
    pub(crate) fn join(&self, seat: &mut Seat<(), View>, other: Seat<(), View>)
        requires live { IsLive seat.old.me.0 × (seat.old.me.1 ≡ []) }
        requires other { IsSeat Reader other.me }
        requires made { (seat.old.table_id ≡ self.now.table) × (other.table_id ≡ self.now.table) }
        ensures same { seat.new.table_id ≡ seat.old.table_id }
        ensures met { seat.new.me ≡ (met seat.old.me.0 other.me.0, []) }
    {
        self.table.shared.join_seat::<JoinStep>(seat, other);
    }
}
