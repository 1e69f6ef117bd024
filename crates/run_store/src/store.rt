ghost use Rattle.std.specs.Prelude.{◌≡◌, ◌+◌, ◌≤◌, ◌^◌, ℕ, List, length, Option, IfOk, OnErr, OnOk};
ghost use Rattle.eb_lines.specs.Kinds.{bad_line, kind_of};
ghost use Rattle.eb_lines.specs.Reading.{Reading};
ghost use Rattle.run_store.specs.Questions.{MayAsk};
ghost use Rattle.run_store.specs.Rules.{Rules};
ghost use Rattle.run_store.specs.Stores.{IsHolding, HasForm, Places, Tells, PutsAnswer, TakesOther, Keeps};
ghost use Rattle.eb_base.specs.Document.{Doc};
ghost use Rattle.eb_base.specs.Query.{tree};
ghost use Rattle.eb_fields.specs.Dialect.{Dialect as Spoken, dialect_of};

use eb_base::{Document, Gate, NoMemory, Query};
use eb_fields::Dialect;
use eb_lines::{Form, Refusal, Tail};
use eb_query::Ask;
use std::alloc::Global;

/// What the lines of an input fill and query.
pub trait Store {
    // What it holds beside documents.
    ghost Watches: { Type 0 };

    // How a line is read, by the dialect, that is neither blank, nor a document or query line, nor
    // long.
    ghost other: { Spoken → List ℕ → Reading → Type 0 };

    // It holds these, and goes by these rules.
    ghost holds: { Self → Rules Watches → List Doc → Watches → Type 0 };

    /// Adds a document after the others, or returns why it is refused, and holds what it held.
    /// Takes no memory.
    fn place<G: Gate>(&mut self, document: &Document, gate: &G) -> Option<Refusal>
        requires { IsHolding holds self.old }
        ensures { Places holds self.old self.new document.now result };

    /// The numbers of the watches that a document matches.
    fn told(&self, alloc: Global, document: &Document) -> Result<Vec<u32>, NoMemory>
        requires { IsHolding holds self.now }
        ensures told { IfOk result (λ numbers. Tells holds self.now document.now numbers.items) }
        ensures few { IfOk result (λ numbers. length numbers.items ≤ 2 ^ 32) };

    /// Takes a line that is neither blank, nor a document or query line, nor long, or returns why
    /// it is refused. Where memory runs out, it holds what it held.
    fn take_other(
        &mut self,
        alloc: Global,
        dialect: Dialect<'_>,
        bytes: &[u8],
    ) -> Result<Option<Refusal>, NoMemory>
        requires state { IsHolding holds self.old }
        requires kind { kind_of (dialect_of dialect) bytes.now ≡ bad_line }
        ensures ok { IfOk result (λ refusal. (r : Reading) × other (dialect_of dialect.entry) bytes.now r × TakesOther holds self.old self.new r refusal) }
        ensures err { OnErr result (Keeps holds self.old self.new) };

    /// Answers line `number`: puts what it asks of the query after the text, the ids of the newest
    /// matches or the counts. Where memory runs out, nothing is done.
    fn answer<G: Gate>(
        &mut self,
        alloc: Global,
        number: u64,
        ask: Ask,
        query: Query,
        gate: &G,
        text: &mut Vec<u8>,
    ) -> Result<(), NoMemory>
        requires state { IsHolding holds self.old }
        requires asked { MayAsk ask query }
        ensures ok { OnOk result (PutsAnswer holds self.old self.new number ask (tree query) text.old.items text.new.items) }
        ensures err { OnErr result ((self.new ≡ self.old) × (text.new.items ≡ text.old.items)) };

    /// The number of documents.
    fn documents(&self) -> u64
        requires { IsHolding holds self.now }
        ensures { (rules : Rules Watches) (docs : List Doc) (ws : Watches) → holds self.now rules docs ws → length docs ≤ length rules.start + 2 ^ 41
            → result ≡ length docs };

    /// How the output is written.
    fn form(&self) -> Form
        requires { IsHolding holds self.now }
        ensures { HasForm holds self.now result };

    /// Ends an input, and returns what is printed beside the counts of its summary.
    fn close(&mut self, alloc: Global) -> Result<Tail, NoMemory>
        requires { IsHolding holds self.old }
        ensures { IfOk result (λ tail. (rules : Rules Watches) (docs : List Doc) (ws : Watches)
            → holds self.old rules docs ws → tail ≡ rules.tail docs) };
}
