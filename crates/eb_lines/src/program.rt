//! What a program does with the lines of an input.
ghost use Rattle.std.specs.Prelude.{◌≡◌, ◌≤◌, ◌++◌, ◌^◌, List, ℕ, length, MatchResult, OnErr, OnOk, ⊤};
ghost use Rattle.eb_io.specs.Lines.{Line, line, long_line};
ghost use Rattle.eb_lines.specs.Programs.{IsRunning, WorksOn, WorksOnGiven, PrintsFront, HasPrinted, Finishes};

use eb_base::NoMemory;

/// A program over the lines of an input: what it does with each of them, and at the end. It puts
/// what it prints after a text, which its caller writes.
pub trait LineProgram {
    // What the program was asked to do.
    ghost Asked: { Type 0 };

    // It was asked this, was given these lines, and printed this text for the first of them.
    ghost has_run: { Self → Asked → List Line → List ℕ → Type 0 };

    // What these lines print; the whole text, with the end of the input.
    ghost prints: { Asked → List Line → List ℕ → Type 0 };

    ghost ends_with: { Asked → List Line → List ℕ → Type 0 };

    // Some of the lines is refused; none is.
    ghost refuses: { Asked → List Line → Type 0 };

    ghost accepts: { Asked → List Line → Type 0 };

    // All lines that it was given are processed.
    ghost settled: { Self → Type 0 };

    // How many lines it was given.
    ghost number: { Self → ℕ };

    /// Takes the next line, which isn't a long one. Where memory runs out, it isn't taken.
    fn take_line(&mut self, bytes: &[u8], text: &mut Vec<u8>) -> Result<(), NoMemory>
        requires state { IsRunning has_run self.old }
        requires number { number self.old ≤ 2 ^ 40 }
        ensures ok { OnOk result (WorksOnGiven has_run self.old self.new text.old.items text.new.items (line bytes.now)) }
        ensures err { OnErr result (WorksOn has_run self.old self.new text.old.items text.new.items) };

    /// Takes the next line, which is a long one.
    fn take_long(&mut self, text: &mut Vec<u8>) -> Result<(), NoMemory>
        requires state { IsRunning has_run self.old }
        requires number { number self.old ≤ 2 ^ 40 }
        ensures ok { OnOk result (WorksOnGiven has_run self.old self.new text.old.items text.new.items long_line) }
        ensures err { OnErr result (WorksOn has_run self.old self.new text.old.items text.new.items) };

    /// Processes what may not wait until the source gives a further line.
    fn settle(&mut self, text: &mut Vec<u8>) -> Result<(), NoMemory>
        requires { IsRunning has_run self.old }
        ensures { WorksOn has_run self.old self.new text.old.items text.new.items };

    /// Processes all lines that it was given.
    fn settle_all(&mut self, text: &mut Vec<u8>) -> Result<(), NoMemory>
        requires { IsRunning has_run self.old }
        ensures on { WorksOn has_run self.old self.new text.old.items text.new.items }
        ensures all { OnOk result (settled self.new) }
        ensures printed { OnOk result (HasPrinted has_run prints self.new) };

    /// Puts the end of the input after the text, where all lines are processed, and returns how
    /// many of them are refused. Where memory runs out, the text is as before.
    fn finish(&mut self, text: &mut Vec<u8>) -> Result<u64, NoMemory>
        requires running { IsRunning has_run self.old }
        requires settled { settled self.old }
        ensures ok { MatchResult result (λ refused. (a : Asked) (given : List Line) (so_far : List ℕ) → has_run self.old a given so_far
            → Finishes has_run ends_with refuses accepts self.old text.old.items text.new.items refused a given so_far) (λ e. ⊤) }
        ensures err { OnErr result (text.new.items ≡ text.old.items) };

    // What it printed is a prefix of what some first lines print.
    ghost printed_first: { (p : Self) (a : Asked) (given : List Line) (so_far : List ℕ) → has_run p a given so_far → PrintsFront prints a given so_far };

    // What some lines print comes first in their whole text.
    ghost whole: { (a : Asked) (lines : List Line) (printed : List ℕ) → prints a lines printed → (more : List ℕ) × ends_with a lines (printed ++ more) };

    // It counts its lines.
    ghost counts: { (p : Self) (a : Asked) (given : List Line) (so_far : List ℕ) → has_run p a given so_far → number p ≡ length given };
}
