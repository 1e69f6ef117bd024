//! What answers the queries of lines beside the one writer that their documents go to.
ghost use Rattle.std.specs.Prelude.{◌≡◌, ◌+◌, ◌≤◌, ◌^◌, List, length, IfOk, IfSome, OnErr, OnOk};
ghost use Rattle.run_store.specs.Rules.{Rules};
ghost use Rattle.run_store.specs.Stores.{IsHolding, HasForm, Places, Keeps};
ghost use Rattle.eb_base.specs.Document.{Doc};
ghost use Rattle.eb_cursor.specs.Frames.{query_of, k_of};
ghost use Rattle.eb_desk.specs.Rule.{IsAboveEach};
ghost use Rattle.eb_desk.specs.declared.rule.Pair.{Pair};
ghost use Rattle.run_with_workers.specs.Offices.{Settles, HasBucketsOf, CountsAll, WasAsked, Asks};

use eb_base::{Document, Gate, NoMemory};
use eb_count::Tally;
use eb_cursor::Frame;
use eb_lines::{Form, Refusal, Tail};
use std::sync::Wait;

/// An answer that is one over the first documents.
#[derive(Drop)]
pub struct Settled {
    /// The number of its line.
    pub number: u64,
    /// How many documents it is over.
    pub seen: u64,
    /// The query, with the ids.
    pub frame: Frame,
}

/// A store for lines whose queries are answered later than they are asked.
pub trait Office: Sized + Drop {
    /// An answer as it comes.
    type Answer: Drop;

    // It holds these documents, and goes by these rules.
    ghost holds: { Self → Rules (Unit {0}) → List Doc → Unit {0} → Type 0 };

    // The pairs of what it was asked, in order: the number, and the query with its k, by numbers.
    ghost asked: { Self → List Pair };

    // The answer is one to what it was asked.
    ghost made: { Self → Self.Answer → Type 0 };

    /// Adds a document after the others, or gives why it is refused. `NoMemory` leaves all as it was.
    fn place<G: Gate>(&mut self, document: &Document, gate: &G) -> Result<Option<Refusal>, NoMemory>
        requires { IsHolding holds self.old }
        ensures placed { IfOk result (λ refusal. Places holds self.old self.new document.now refusal) }
        ensures same { OnOk result (asked self.new ≡ asked self.old) }
        ensures err { OnErr result (self.new ≡ self.old) };

    /// Asks the query of a frame, under the number of its line, which is above those before. `NoMemory` leaves all as it was.
    fn ask<R: Wait>(&mut self, rt: &R, number: u64, frame: Frame) -> Result<(), NoMemory>
        requires state { IsHolding holds self.old }
        requires number { IsAboveEach number (asked self.old) }
        ensures keeps { OnOk result (Keeps holds self.old self.new) }
        ensures asked { OnOk result (Asks (asked self.old) (asked self.new) number frame) }
        ensures err { OnErr result (self.new ≡ self.old) };

    /// Takes an answer where one is there.
    fn take(&mut self) -> Option<Self::Answer>
        requires { IsHolding holds self.old }
        ensures keeps { Keeps holds self.old self.new }
        ensures same { asked self.new ≡ asked self.old }
        ensures made { IfSome result (λ answer. made self.new answer) };

    /// Waits for an answer.
    fn wait<R: Wait, G: Gate>(&mut self, rt: &R, gate: &G) -> Self::Answer
        requires { IsHolding holds self.old }
        ensures keeps { Keeps holds self.old self.new }
        ensures same { asked self.new ≡ asked self.old }
        ensures made { made self.new result };

    /// Sees that an answer is one over the first documents, or answers its query again: what was asked under its number.
    fn settle<G: Gate>(&mut self, answer: Self::Answer, gate: &G) -> Settled
        requires state { IsHolding holds self.old }
        requires made { made self.old answer }
        ensures keeps { Keeps holds self.old self.new }
        ensures same { asked self.new ≡ asked self.old }
        ensures answers { WasAsked (asked self.new) result.number (query_of result.frame) (k_of result.frame) }
        ensures settled { (rules : Rules (Unit {0})) (docs : List Doc) (ws : Unit {0}) → holds self.new rules docs ws
            → length docs ≤ length rules.start + 2 ^ 41 → Settles rules docs result };

    /// Clears the tally, counts in it all matches of a frame's query among all documents, and gives the number of documents.
    fn count<G: Gate>(&mut self, frame: &mut Frame, tally: &mut Tally, gate: &G) -> u64
        requires { IsHolding holds self.old }
        ensures keeps { Keeps holds self.old self.new }
        ensures same { asked self.new ≡ asked self.old }
        ensures buckets { HasBucketsOf tally.old tally.new }
        ensures counts { (rules : Rules (Unit {0})) (docs : List Doc) (ws : Unit {0}) → holds self.new rules docs ws
            → length docs ≤ length rules.start + 2 ^ 41 → CountsAll rules docs (query_of frame.old) result tally.new };

    /// The number of documents.
    fn documents(&self) -> u64
        requires { IsHolding holds self.now }
        ensures { (rules : Rules (Unit {0})) (docs : List Doc) (ws : Unit {0}) → holds self.now rules docs ws
            → length docs ≤ length rules.start + 2 ^ 41 → result ≡ length docs };

    /// How what is printed is written.
    fn form(&self) -> Form
        requires { IsHolding holds self.now }
        ensures { HasForm holds self.now result };

    /// Ends an input, and gives what is printed beside the counts of its summary.
    fn close(&mut self) -> Tail
        requires { IsHolding holds self.old }
        ensures { (rules : Rules (Unit {0})) (docs : List Doc) (ws : Unit {0}) → holds self.old rules docs ws
            → length docs ≤ length rules.start + 2 ^ 41 → result ≡ rules.tail docs };
}
