ghost use Rattle.std.specs.Prelude.{◌≡◌, [], IfOk, OnOk, Some, option_map};
ghost use Rattle.eb_base.specs.Query.{tree, parts_of, or_of};
ghost use Rattle.eb_query.specs.Machine.{level, step, start, parts, negated, finish};
ghost use Rattle.eb_query.specs.Grammar as grammar;
ghost use Rattle.eb_query.specs.Views.{lexeme_of, operands_of, level_of, state_of, IsCounted, Steps};

use crate::lexeme::Lexeme;
use crate::operands::Operands;
use eb_base::{NoMemory, Queries, Query};
use std::alloc::Global;
use std::mem;

/// The most parentheses and minuses that may be open at a place of a query text (this project's
/// profile, docs/FORMATS.md).
pub const MAX_NESTING: u32 = 16;

/// A group that is open: the whole text, or what a `(` began.
#[derive(Drop)]
pub struct Group {
    /// The parts that an `OR` has ended.
    pub ors: Queries,
    /// The operands of the part that is read now.
    pub ands: Operands,
    /// The minuses before the next operand.
    pub minuses: u32,
}

/// A query text that is read lexeme by lexeme.
#[derive(Drop)]
pub struct Reader {
    /// The open groups round the innermost one, the outermost first.
    pub outer: Vec<Group>,
    /// The innermost group.
    pub group: Group,
    /// How many parentheses and minuses are open, at most [`MAX_NESTING`].
    pub nesting: u32,
}

/// How the reader took a lexeme.
#[derive(Clone, Copy)]
pub enum Step {
    /// It is allowed there.
    Stood,
    /// It isn't allowed at its place.
    Misplaced,
    /// It is allowed there, but opens where [`MAX_NESTING`] are open.
    Deep,
}

impl Group {
    // A group in which nothing is read yet.
    fn new(alloc: Global) -> Group
        ensures { level_of result ≡ level [] [] 0 }
    {
        Group {
            ors: Queries::new(alloc),
            ands: Operands::new(alloc),
            minuses: 0,
        }
    }

    // What the group asks where it ends now.
    #[inline(always)]
    fn into_query(self) -> Result<Query, NoMemory>
        ensures { IfOk result (λ query.
            tree query ≡ or_of (parts (parts_of self.ors) (operands_of self.ands))) }
    {
        let Group {
            ors,
            ands,
            minuses: _,
        } = self;
        if ors.is_empty() {
            return Ok(ands.into_query());
        }
        let mut ors = ors;
        ors.push(ands.into_query())?;
        Ok(Query::any_of(ors))
    }
}

// The query after these minuses.
fn negate(alloc: Global, minuses: u32, query: Query) -> Result<Query, NoMemory>
    ensures { IfOk result (λ found. tree found ≡ negated minuses (tree query)) }
{
    let mut query = query;
    let mut left = minuses;
    while left > 0 {
        query = Query::Not(Box::new(alloc, query)?);
        left -= 1;
    }
    Ok(query)
}

impl Reader {
    /// A reader that has read nothing. Takes no memory.
    pub fn new(alloc: Global) -> Reader
        ensures state { state_of result ≡ start }
        ensures counted { IsCounted result }
    {
        Reader {
            outer: Vec::new(alloc),
            group: Group::new(alloc),
            nesting: 0,
        }
    }

    /// Takes one more lexeme. After an `Err`, and where the lexeme wasn't allowed, the reader can't
    /// be used any more.
    pub fn read(&mut self, alloc: Global, lexeme: Lexeme) -> Result<Step, NoMemory>
        requires { IsCounted self.old }
        ensures steps { IfOk result (λ went.
            Steps went (lexeme_of lexeme) (state_of self.old) (state_of self.new)) }
        ensures counted { IfOk result (λ went. went ≡ Step.Stood → IsCounted self.new) }
    {
        match lexeme {
            Lexeme::Opening => self.open(alloc),
            Lexeme::Closing => self.close(alloc),
            Lexeme::Minus => Ok(self.negate_next()),
            Lexeme::OrWord => self.begin_part(alloc),
            Lexeme::Leaf(query) => {
                self.take(alloc, query)?;
                Ok(Step::Stood)
            }
            Lexeme::Broken => Ok(Step::Misplaced),
        }
    }

    // Takes a `(`, which begins a group. A call, since most queries have none: what they have, words
    // and `OR`, is taken in place, without moving a query from call to call.
    #[inline(never)]
    fn open(&mut self, alloc: Global) -> Result<Step, NoMemory>
        requires { IsCounted self.old }
        ensures steps { IfOk result (λ went.
            Steps went grammar.opening (state_of self.old) (state_of self.new)) }
        ensures counted { IfOk result (λ went. went ≡ Step.Stood → IsCounted self.new) }
    {
        if self.nesting == MAX_NESTING {
            return Ok(Step::Deep);
        }
        let group = mem::replace(&mut self.group, Group::new(alloc));
        self.outer.push(group)?;
        self.nesting += 1;
        Ok(Step::Stood)
    }

    // Takes a minus, which negates the next operand.
    fn negate_next(&mut self) -> Step
        requires { IsCounted self.old }
        ensures steps { Steps result grammar.minus (state_of self.old) (state_of self.new) }
        ensures counted { result ≡ Step.Stood → IsCounted self.new }
    {
        if self.nesting == MAX_NESTING {
            return Step::Deep;
        }
        self.group.minuses += 1;
        self.nesting += 1;
        Step::Stood
    }

    // Takes an `OR`, after which the next part begins.
    fn begin_part(&mut self, alloc: Global) -> Result<Step, NoMemory>
        requires { IsCounted self.old }
        ensures steps { IfOk result (λ went.
            Steps went grammar.or_word (state_of self.old) (state_of self.new)) }
        ensures counted { IfOk result (λ went. went ≡ Step.Stood → IsCounted self.new) }
    {
        if self.group.ands.is_empty() || self.group.minuses > 0 {
            return Ok(Step::Misplaced);
        }
        let ands = mem::replace(&mut self.group.ands, Operands::new(alloc));
        self.group.ors.push(ands.into_query())?;
        Ok(Step::Stood)
    }

    // Takes a `)`, which makes the group an operand of the one round it.
    #[inline(never)]
    fn close(&mut self, alloc: Global) -> Result<Step, NoMemory>
        requires { IsCounted self.old }
        ensures steps { IfOk result (λ went.
            Steps went grammar.closing (state_of self.old) (state_of self.new)) }
        ensures counted { IfOk result (λ went. went ≡ Step.Stood → IsCounted self.new) }
    {
        if self.group.ands.is_empty() || self.group.minuses > 0 {
            return Ok(Step::Misplaced);
        }
        let Some(outer) = self.outer.pop() else {
            return Ok(Step::Misplaced);
        };
        let group = mem::replace(&mut self.group, outer);
        self.nesting -= 1;
        self.take(alloc, group.into_query()?)?;
        Ok(Step::Stood)
    }

    // Takes an operand of the innermost group, after its minuses.
    #[inline(always)]
    fn take(&mut self, alloc: Global, query: Query) -> Result<(), NoMemory>
        requires { IsCounted self.old }
        ensures state { OnOk result
            (step (grammar.leaf (tree query)) (state_of self.old) ≡ Some (state_of self.new)) }
        ensures counted { OnOk result (IsCounted self.new) }
    {
        let query = negate(alloc, self.group.minuses, query)?;
        self.group.ands.push(alloc, query)?;
        self.nesting -= self.group.minuses;
        self.group.minuses = 0;
        Ok(())
    }

    /// What the whole text asks, if it is complete.
    pub fn finish(self) -> Result<Option<Query>, NoMemory>
        ensures { IfOk result (λ found. option_map tree found ≡ finish (state_of self)) }
    {
        let Reader {
            outer,
            group,
            nesting: _,
        } = self;
        if !outer.is_empty() || group.ands.is_empty() || group.minuses > 0 {
            return Ok(None);
        }
        Ok(Some(group.into_query()?))
    }
}
