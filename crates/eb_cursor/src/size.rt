//! How many cursors a query needs.
ghost use Rattle.std.specs.Prelude.{◌≡◌, ◌<◌, ◌^◌};
ghost use Rattle.eb_base.specs.Query.{tree, size, sizes};
ghost use Rattle.eb_cursor.specs.Asked.{trees_in};

use eb_base::Query;

/// The size of a query: one for each word, each bound on the id, each term of a phrase or window
/// and each operator.
#[cycle(size)]
pub fn size(query: &Query) -> usize
    requires { size (tree query.now) < 2 ^ 32 }
    ensures { result ≡ size (tree query.now) }
{
    match query {
        Query::Word(_) => 1,
        Query::Phrase(terms) => terms.len(),
        Query::Window(terms, _) => terms.len(),
        Query::Since(_) => 1,
        Query::Not(part) => 1 + size(part),
        Query::And(parts) => 1 + sizes(parts.as_slice()),
        Query::Or(parts) => 1 + sizes(parts.as_slice()),
    }
}

// The sizes of all parts, added up.
#[cycle(size)]
fn sizes(parts: &[Query]) -> usize
    requires { sizes (trees_in parts.now) < 2 ^ 32 }
    ensures { result ≡ sizes (trees_in parts.now) }
{
    let Some((part, others)) = parts.split_first() else {
        return 0;
    };
    size(part) + sizes(others)
}

/// The size of a part of an and, most of which are words.
#[inline(always)]
pub fn part_size(query: &Query) -> usize
    requires { size (tree query.now) < 2 ^ 32 }
    ensures { result ≡ size (tree query.now) }
{
    match query {
        Query::Word(_) => 1,
        _ => size(query),
    }
}
