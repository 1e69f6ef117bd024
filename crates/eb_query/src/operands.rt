ghost use Rattle.std.specs.Prelude.{◌≡◌, [], ◌∷◌, ◌++◌, length, OnOk, IsTrue, ◌↔◌};
ghost use Rattle.eb_base.specs.Query.{tree, and_of};
ghost use Rattle.eb_query.specs.Views.{operands_of};

use eb_base::{NoMemory, Queries, Query};
use std::alloc::Global;
use std::mem;

/// The operands of a part of a query text, in order. One operand alone is in no list and takes no
/// memory, so a query of one word takes none: its store uses the frame of the query before again
/// (`Frame::renew` of `eb_cursor`).
#[derive(Drop)]
pub enum Operands {
    /// One operand.
    One(Query),
    /// None, or several.
    Listed(Queries),
}

impl Operands {
    /// No operands. Takes no memory.
    pub fn new(alloc: Global) -> Operands
        ensures { operands_of result ≡ [] }
    {
        Operands::Listed(Queries::new(alloc))
    }

    /// Whether there is none. Takes no memory.
    pub fn is_empty(&self) -> bool
        ensures { IsTrue result ↔ (length (operands_of self.now) ≡ 0) }
    {
        match self {
            Operands::One(_) => false,
            Operands::Listed(parts) => parts.is_empty(),
        }
    }

    /// Puts the operand at the end. The first one takes no memory. Without memory the operands
    /// can't be used any more.
    #[inline(always)]
    pub fn push(&mut self, alloc: Global, query: Query) -> Result<(), NoMemory>
        ensures { OnOk result (operands_of self.new ≡ operands_of self.old ++ tree query ∷ []) }
    {
        match mem::replace(self, Operands::new(alloc)) {
            Operands::One(first) => {
                let mut parts = Queries::new(alloc);
                parts.push(first)?;
                parts.push(query)?;
                *self = Operands::Listed(parts);
            }
            Operands::Listed(mut parts) => {
                if parts.is_empty() {
                    *self = Operands::One(query);
                } else {
                    parts.push(query)?;
                    *self = Operands::Listed(parts);
                }
            }
        }
        Ok(())
    }

    /// The query that asks for each of them: an And, or the operand itself where there is one.
    /// Takes no memory.
    pub fn into_query(self) -> Query
        ensures { tree result ≡ and_of (operands_of self) }
    {
        match self {
            Operands::One(query) => query,
            Operands::Listed(parts) => Query::all_of(parts),
        }
    }
}
