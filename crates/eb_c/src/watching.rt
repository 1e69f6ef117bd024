//! Watches for C: standing queries, each with a number, behind a handle of their own. A document
//! tells which of them it matches, whatever index it is added to.
ghost use Rattle.std.specs.Prelude.{◌≡◌, ◌≢◌, ◌⊎◌, ◌<◌, [], Some, Err, Result, length, IfOk};
ghost use Rattle.eb_base.specs.Document.{Doc};
ghost use Rattle.eb_base.specs.Query.{tree};
ghost use Rattle.eb_watch.specs.Seen.{watches_of};
ghost use Rattle.eb_watch.specs.Watches.{numbers_of, matching};
ghost use Rattle.eb_watch.specs.declared.watches.Watches.{Watches as Set};
ghost use Rattle.eb_c.specs.Adding.{document_in_as, document_as};
ghost use Rattle.eb_c.specs.Asking.{parsed_of, written, TextAsksAs};
ghost use Rattle.eb_c.specs.Sharing.{kind_of};
ghost use Rattle.eb_c.specs.Watching.{set_number, remove_number, LeadsToWatches, HasSet, SetsAsked, Sets, HasRemoved, none_told, numbers_told, TellsWatches};

use crate::dialects::Reading;
use crate::handle::{BAD_HANDLE, Handle, crosses, handle_of};
use crate::held::Held;
use crate::parsed::{Parsed, Wanted};
use crate::reading::{document_as, document_in_line_as, parsed_in_text_as};
use crate::refusal::Refusal;
use crate::told::Told;
use eb_base::{Document, NoMemory};
use eb_watch::{NoWatch, SetFault, Watches};
use std::alloc::Global;

/// Makes a set of watches, in which none is set; its handle is closed before: 0; else `NoMemory`
/// (12), or 16 where the handle isn't closed, and it is as before.
#[unsafe(no_mangle)]
pub extern "C" fn eb_watches(alloc: Global, watches: &mut Handle) -> u32
    ensures made { result ≡ 0 → (w : Set) × LeadsToWatches watches.new.seal.held w × (watches_of w ≡ []) }
    ensures unchanged { (result ≡ 0 → ⊥) → watches.new ≡ watches.old }
    ensures bad { kind_of watches.old.seal.held ≢ 0 → result ≡ 16 }
    ensures memory { kind_of watches.old.seal.held ≡ 0 → (result ≡ 0) ⊎ (result ≡ 12) }
{
    crosses(watches);
    if watches.kind != 0 {
        return BAD_HANDLE;
    }
    match handle_of(alloc, Held::Watches(Watches::new(alloc))) {
        Ok(handle) => {
            *watches = handle;
            0
        }
        Err(NoMemory) => Refusal::NoMemory.number(),
    }
}

/// Sets the watch of this number to a query text, which is UTF-8, by the dialect that the caller
/// gives: 0; else `WatchTaken` (18) where a watch has the number, `WatchesFull` (19) where none has
/// it and 10,000 are set, or the refusal of the text, a bad query with its column in the text; 16
/// where the handle isn't one of watches. Where it isn't 0, the watches are as before.
#[unsafe(no_mangle)]
pub extern "C" fn eb_watch_set(
    alloc: Global,
    watches: &mut Handle,
    how: &Reading<'_>,
    number: u32,
    text: &[u8],
    column: &mut u64,
) -> u32
    ensures set { (w : Set) → LeadsToWatches watches.old.seal.held w → (v : Set) × LeadsToWatches watches.new.seal.held v
        × Sets (TextAsksAs how.now 1 text.now) (watches_of w) number result column.new (watches_of v) }
    ensures bad { kind_of watches.old.seal.held ≢ 8 → (result ≡ 16) × (column.new ≡ 0) × (watches.new.seal.held ≡ watches.old.seal.held) }
{
    let Some(held) = watches.take(alloc) else {
        *column = 0;
        return BAD_HANDLE;
    };
    let mut held = held;
    let done = set_held(
        &mut held,
        number,
        parsed_in_text_as(alloc, how, 1, text),
        column,
    );
    *watches = Handle::of(held);
    done
}

// Sets the watch of this number to what was read, where watches are held.
fn set_held(held: &mut Held, number: u32, parsed: Parsed, column: &mut u64) -> u32
    ensures set { (w : Set) → held.old ≡ Held.Watches w → (v : Set) × (held.new ≡ Held.Watches v)
        × SetsAsked (parsed_of parsed) (watches_of w) number result column.new (watches_of v) }
    ensures bad { kind_of (Some held.old) ≢ 8 → (result ≡ 16) × (column.new ≡ 0) × (held.new ≡ held.old) }
{
    *column = 0;
    let Held::Watches(watches) = held else {
        return BAD_HANDLE;
    };
    match parsed {
        Parsed::Asks(wanted) => set_in(watches, number, wanted),
        Parsed::Refused(refusal, at) => {
            *column = at;
            refusal.number()
        }
    }
}

// Sets the watch of this number to the query that is wanted.
fn set_in(watches: &mut Watches, number: u32, wanted: Wanted) -> u32
    ensures { HasSet (watches_of watches.old) number (tree wanted.query) result (watches_of watches.new) }
{
    let done = watches.set(number, wanted.query);
    set_number(done)
}

// What a call answers that was to set a watch.
fn set_number(done: Result<(), SetFault>) -> u32
    ensures { result ≡ set_number done }
{
    match done {
        Ok(()) => 0,
        Err(SetFault::Taken) => Refusal::WatchTaken.number(),
        Err(SetFault::Full) => Refusal::WatchesFull.number(),
        Err(SetFault::NoMemory) => Refusal::NoMemory.number(),
    }
}

/// Removes the watch of this number: 0; else `NoWatch` (20) where none has it, and the watches are
/// as before; 16 where the handle isn't one of watches. Takes no memory.
#[unsafe(no_mangle)]
pub extern "C" fn eb_watch_remove(alloc: Global, watches: &mut Handle, number: u32) -> u32
    ensures removed { (w : Set) → LeadsToWatches watches.old.seal.held w → (v : Set) × LeadsToWatches watches.new.seal.held v
        × HasRemoved (watches_of w) number result (watches_of v) }
    ensures bad { kind_of watches.old.seal.held ≢ 8 → (result ≡ 16) × (watches.new.seal.held ≡ watches.old.seal.held) }
{
    let Some(held) = watches.take(alloc) else {
        return BAD_HANDLE;
    };
    let mut held = held;
    let done = remove_held(&mut held, number);
    *watches = Handle::of(held);
    done
}

// Removes the watch of this number, where watches are held.
fn remove_held(held: &mut Held, number: u32) -> u32
    ensures removed { (w : Set) → held.old ≡ Held.Watches w → (v : Set) × (held.new ≡ Held.Watches v)
        × HasRemoved (watches_of w) number result (watches_of v) }
    ensures bad { kind_of (Some held.old) ≢ 8 → (result ≡ 16) × (held.new ≡ held.old) }
{
    let Held::Watches(watches) = held else {
        return BAD_HANDLE;
    };
    remove_in(watches, number)
}

// Removes the watch of this number.
fn remove_in(watches: &mut Watches, number: u32) -> u32
    ensures { HasRemoved (watches_of watches.old) number result (watches_of watches.new) }
{
    let done = watches.remove(number);
    remove_number(done)
}

// What a call answers that was to remove a watch.
fn remove_number(done: Result<(), NoWatch>) -> u32
    ensures { result ≡ remove_number done }
{
    match done {
        Ok(()) => 0,
        Err(NoWatch) => Refusal::NoWatch.number(),
    }
}

/// Tells which watches match the document of a document line, the bytes of one line without its
/// end, by the dialect that the caller gives: 0, and their numbers, rising, as many as there is
/// room for; `told` says how many there are. Else the number of its refusal, and no number is
/// written; 16 where the handle isn't one of watches. Takes memory for the document and the
/// numbers, which is given back.
#[unsafe(no_mangle)]
pub extern "C" fn eb_watches_tell_line(
    alloc: Global,
    watches: &mut Handle,
    how: &Reading<'_>,
    line: &[u8],
    numbers: &mut [u32],
    told: &mut Told,
) -> u32
    ensures told { (w : Set) → LeadsToWatches watches.old.seal.held w
        → (r : Result Doc Refusal) × ((r ≡ Err Refusal.NoMemory) ⊎ (r ≡ document_in_as how.now line.now))
        × TellsWatches r (watches_of w) result told.new numbers.old numbers.new }
    ensures watches { watches.new.seal.held ≡ watches.old.seal.held }
    ensures bad { kind_of watches.old.seal.held ≢ 8 → (result ≡ 16) × (told.new ≡ none_told) × (numbers.new ≡ numbers.old) }
{
    let read = document_in_line_as(alloc, how, line);
    tell_by(alloc, watches, read, numbers, told)
}

/// Tells which watches match the document of an id and a text, which is UTF-8, by the dialect that
/// the caller gives, as `eb_watches_tell_line` does.
#[unsafe(no_mangle)]
pub extern "C" fn eb_watches_tell_text(
    alloc: Global,
    watches: &mut Handle,
    how: &Reading<'_>,
    id: u64,
    text: &[u8],
    numbers: &mut [u32],
    told: &mut Told,
) -> u32
    ensures told { (w : Set) → LeadsToWatches watches.old.seal.held w
        → (r : Result Doc Refusal) × ((r ≡ Err Refusal.NoMemory) ⊎ (r ≡ document_as how.now id text.now))
        × TellsWatches r (watches_of w) result told.new numbers.old numbers.new }
    ensures watches { watches.new.seal.held ≡ watches.old.seal.held }
    ensures bad { kind_of watches.old.seal.held ≢ 8 → (result ≡ 16) × (told.new ≡ none_told) × (numbers.new ≡ numbers.old) }
{
    let read = document_as(alloc, how, id, text);
    tell_by(alloc, watches, read, numbers, told)
}

// Tells which watches match what was read of a document.
fn tell_by(
    alloc: Global,
    watches: &mut Handle,
    read: Result<Document, Refusal>,
    numbers: &mut [u32],
    told: &mut Told,
) -> u32
    ensures told { (w : Set) → LeadsToWatches watches.old.seal.held w → TellsWatches read (watches_of w) result told.new numbers.old numbers.new }
    ensures watches { watches.new.seal.held ≡ watches.old.seal.held }
    ensures bad { kind_of watches.old.seal.held ≢ 8 → (result ≡ 16) × (told.new ≡ none_told) × (numbers.new ≡ numbers.old) }
{
    *told = nothing_told();
    let Some(held) = watches.take(alloc) else {
        return BAD_HANDLE;
    };
    let done = tell_held(alloc, &held, read, numbers, told);
    *watches = Handle::of(held);
    done
}

// Tells which watches match what was read of a document, where watches are held.
fn tell_held(
    alloc: Global,
    held: &Held,
    read: Result<Document, Refusal>,
    numbers: &mut [u32],
    told: &mut Told,
) -> u32
    ensures told { (w : Set) → held.now ≡ Held.Watches w → TellsWatches read (watches_of w) result told.new numbers.old numbers.new }
    ensures bad { kind_of (Some held.now) ≢ 8 → (result ≡ 16) × (told.new ≡ none_told) × (numbers.new ≡ numbers.old) }
{
    *told = nothing_told();
    let Held::Watches(watches) = held else {
        return BAD_HANDLE;
    };
    match read {
        Ok(document) => match watches.told_unmetered(alloc, &document) {
            Ok(found) => {
                put_numbers(&found, numbers, told);
                0
            }
            Err(NoMemory) => Refusal::NoMemory.number(),
        },
        Err(refusal) => refusal.number(),
    }
}

// No watch matches, and no number is written.
fn nothing_told() -> Told
    ensures { result ≡ none_told }
{
    Told {
        count: 0,
        written: 0,
    }
}

// Writes the first of the numbers, as many as there is room for, and says how many there are.
fn put_numbers(found: &[u32], numbers: &mut [u32], told: &mut Told)
    ensures numbers { numbers.new ≡ written found.now numbers.old }
    ensures told { told.new ≡ numbers_told found.now (length numbers.old) }
{
    let number = found.len().min(numbers.len());
    numbers[..number].copy_from_slice(&found[..number]);
    *told = Told {
        count: found.len() as u64,
        written: number as u64,
    };
}
