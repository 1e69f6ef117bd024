ghost use Rattle.std.specs.Prelude.{◌≡◌, IfOk};
ghost use Rattle.eb_base.specs.Query.{tree};
ghost use Rattle.eb_base.specs.Match.{answer};

use eb_base::{Document, NoMemory, Query};
use eb_match::is_match;
use std::alloc::Global;

/// The answer: the ids of the newest `k` of these documents that the query matches, newest first.
/// The documents are in the order in which they were accepted.
pub fn newest(
    alloc: Global,
    query: &Query,
    k: usize,
    documents: &[Document],
) -> Result<Vec<u64>, NoMemory>
    ensures { IfOk result (λ ids. ids.items ≡ answer (tree query.now) k documents.now) }
{
    let mut ids = Vec::new(alloc);
    let mut place = documents.len();
    while place > 0 && ids.len() < k {
        place -= 1;
        let document = &documents[place];
        if is_match(query, document) {
            ids.push(document.id())?;
        }
    }
    Ok(ids)
}
