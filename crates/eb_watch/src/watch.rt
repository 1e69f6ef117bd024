//! One watch.
ghost use Rattle.std.specs.Prelude.{◌≡◌};
ghost use Rattle.eb_base.specs.Query.{tree};
ghost use Rattle.eb_watch.specs.Key.{watch_key};
ghost use Rattle.eb_watch.specs.Terms.{key_terms};

use eb_base::{Query, Term};

/// A query, and its key.
#[derive(Drop)]
pub(crate) struct Watch {
    pub(crate) query: Query,
    pub(crate) key: Option<Vec<Term>>,
    ghost keyed: { key_terms key ≡ watch_key (tree query) },
}
