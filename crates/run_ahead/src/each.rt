ghost use Rattle.std.specs.Prelude.{length, IfOk, OnErr};
ghost use Rattle.run_ahead.specs.Placed.{IsHoldingFor, PlacesItem, PlacesAll};
ghost use Rattle.run_store.specs.Stores.{IsHolding, Keeps};

use eb_base::{Document, Gate, NoMemory};
use eb_lines::Refusal;
use run_store::Store;
use std::alloc::Global;

// Adds an item that is a document, and returns why it is refused, if it is.
fn place_item<S: Store, E, G: Gate>(
    store: &mut S,
    item: &Result<Document, E>,
    gate: &G,
) -> Option<Refusal>
    requires { IsHolding S.holds store.old }
    ensures { PlacesItem S.holds store.old store.new item.now result }
{
    match item {
        Ok(document) => store.place(document, gate),
        Err(_) => None,
    }
}

/// Adds the documents among some items to a store, one after the other, and returns why each
/// document is refused, if it is. Where memory runs out, which shows before the first is added,
/// nothing is done.
pub fn place_each<S: Store, E, G: Gate>(
    store: &mut S,
    alloc: Global,
    items: &[Result<Document, E>],
    gate: &G,
) -> Result<Vec<Option<Refusal>>, NoMemory>
    requires { IsHoldingFor S.holds store.old (length items.now) }
    ensures ok { IfOk result (λ refusals. PlacesAll S.holds store.old store.new items.now refusals.items) }
    ensures err { OnErr result (Keeps S.holds store.old store.new) }
{
    let mut refusals = Vec::with_capacity(alloc, items.len())?;
    for item in items {
        let refusal = place_item(store, item, gate);
        refusals.push_reserved(refusal);
    }
    Ok(refusals)
}
