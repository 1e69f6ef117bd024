//! A mailbox: its one place holds the newest reader that was put.
ghost use Rattle.std.specs.Prelude.{◌≡◌, ◌⊎◌, IfOk, IfErr, IfSome};
ghost use Rattle.logbook.specs.Pages.{Book};
ghost use Rattle.crossbeam_queue.specs.Passes.{view, IsPassOf, IsSamePass};
ghost use Rattle.feed_shared.specs.declared.mail.Ticket.TheVariants.{Opening, At};

use crate::reader::FeedReader;
use crate::trail::Head;
use crossbeam_queue::protocol::{Outcome, Protocol, Split};
use crossbeam_queue::{Pass, RuledArrayQueue};
use eb_base::NoMemory;
use std::alloc::Global;
use std::marker::{Brand, Model};
use std::sync::Arc;

/// What an end of a mailbox knows: nothing yet, or which feed its readers are of.
pub enum Ticket {
    /// Nothing yet.
    Opening,
    /// The feed.
    At(Head),
}

/// Which feed it is.
pub trait Named {
    ghost use Rattle.logbook.specs.Pages.{Book};

    ghost book: { Book };
}

// `Brand` serves for any feed: the split that gets it says which.
impl Named for Brand {
    ghost book = { record { number = 0; log_name = 0; cells_name = 0 } };
}

/// The rule of a mailbox: all that it holds is of one feed.
pub struct OneFeed;

impl Protocol<FeedReader, Ticket> for OneFeed {
    ghost use Rattle.feed_shared.specs.Mail.{KeepsMail};
    ghost use Rattle.feed_shared.specs.declared.mail.Ticket.TheVariants.{Opening};

    ghost holds = { KeepsMail };

    ghost first = { Opening };
}

/// The other end.
pub struct Ends<N>(N);

impl<N: Named> Split<Ticket> for Ends<N> {
    ghost use Rattle.feed_shared.specs.declared.mail.Ticket.TheVariants.{At};

    ghost left = { λ v. At N.book };

    ghost right = { λ v. At N.book };
}

/// A reader was put, or taken.
pub struct Moved;

impl Outcome<FeedReader, Ticket> for Moved {
    ghost use Rattle.feed_shared.specs.Mail.{IsMoved};

    ghost then = { IsMoved };
}

/// The queue of a mailbox.
pub type Mail = RuledArrayQueue<FeedReader, Ticket, OneFeed>;

// An end of a mailbox. Contracts see which feed its readers are of.
#[derive(Drop)]
pub(crate) struct Slot {
    queue: Arc<Mail, Global>,
    pass: Pass<FeedReader, Ticket>,
}

impl Model for Slot {
    ghost use Rattle.std.specs.Prelude.{◌≡◌};
    ghost use Rattle.std.specs.Arc.{arc_value};
    ghost use Rattle.logbook.specs.Pages.{Book};
    ghost use Rattle.crossbeam_queue.specs.Passes.{IsPassOf};
    ghost use Rattle.feed_shared.specs.Mail.{pass_book, IsEnd};

    ghost Value = { Book };

    ghost view = { λ s. pass_book s.pass };

    ghost invariant = { λ s. IsPassOf (arc_value s.queue) s.pass × IsEnd s.pass };
}

// The other end of a new mailbox.
fn cut<N: Named>(
    queue: &Mail,
    pass: &mut Pass<FeedReader, Ticket>,
    reader: &FeedReader,
) -> Pass<FeedReader, Ticket>
    requires named { reader.now.book ≡ N.book }
    requires pass { IsPassOf queue.now pass.old }
    requires rule { view pass.old ≡ Opening }
    ensures pass { IsSamePass pass.old pass.new × IsPassOf queue.now result }
    ensures old { view pass.new ≡ At N.book }
    ensures new { view result ≡ At N.book }
{
    let _ = reader;
    queue.another::<Ends<N>>(pass)
}

impl Slot {
    // Both ends of a mailbox for readers of the feed that this one is of.
    pub(crate) fn open(alloc: Global, reader: &FeedReader) -> Result<(Slot, Slot), NoMemory>
        ensures { IfOk result (λ r. (r.0 ≡ reader.now.book) × (r.1 ≡ reader.now.book)) }
    {
        let (queue, mut pass) = Mail::ruled(alloc, 1)?;
        let other = cut::<Brand>(&queue, &mut pass, reader);
        let queue = Arc::new(alloc, queue)?;
        let theirs = Arc::try_clone(&queue)?;
        Ok((
            Slot { queue, pass },
            Slot {
                queue: theirs,
                pass: other,
            },
        ))
    }

    // Puts a reader, unless one is there or the other end is just at the mailbox.
    pub(crate) fn put(&mut self, reader: FeedReader) -> Result<(), FeedReader>
        requires { reader.book ≡ self.old }
        ensures same { self.new ≡ self.old }
        ensures back { IfErr result (λ r. r ≡ reader) }
    {
        self.queue.try_push_as::<Moved>(&mut self.pass, reader)
    }

    // Takes the reader that is there.
    pub(crate) fn take(&mut self) -> Option<FeedReader>
        ensures same { self.new ≡ self.old }
        ensures reader { IfSome result (λ r. r.book ≡ self.old) }
    {
        self.queue.try_pop_as::<Moved>(&mut self.pass)
    }
}
