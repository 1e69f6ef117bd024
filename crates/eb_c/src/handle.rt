// A handle, as C sees it.
ghost use Rattle.std.specs.Prelude.{◌≡◌, Some, None, IfOk, MatchOption};
ghost use Rattle.eb_c.specs.Sharing.{kind_of};

use crate::held::Held;
use crate::parts::Parts;
use crate::sealed::Sealed;
use eb_base::NoMemory;
use std::alloc::Global;
use std::mem;

// What a call answers where a handle isn't of the kind that it takes.
pub(crate) const BAD_HANDLE: u32 = 16;

/// A handle: it leads to a writer (1), to a reader (2), to a converter (3), to a leader (4), to a
/// follower (5), to a spare index (6), to a generation that a feed dropped (7), to watches (8), or
/// to nothing (0, and it is closed).
#[repr(C)]
#[derive(Drop)]
pub struct Handle {
    pub(crate) seal: Sealed,
    pub(crate) kind: u32,
    ghost kind_is: { kind ≡ kind_of seal.held },
}

// The number of the kind of what a handle leads to.
fn kind(held: &Held) -> u32
    ensures { result ≡ kind_of (Some held.now) }
{
    match held {
        Held::Writer(_) => 1,
        Held::Reader(_) => 2,
        Held::Converter(_) | Held::FeedConverter(_) => 3,
        Held::Leader(_) => 4,
        Held::Follower(_) => 5,
        Held::Spare(_) => 6,
        Held::Released(_) => 7,
        Held::Watches(_) => 8,
    }
}

impl Handle {
    // A closed handle.
    pub(crate) fn closed(alloc: Global) -> Handle
        ensures { result.seal.held ≡ None }
    {
        Handle {
            seal: Sealed::empty(alloc),
            kind: 0,
        }
    }

    // A handle that leads to what is in the box.
    pub(crate) fn of(held: Box<Held, Global>) -> Handle
        ensures { result.seal.held ≡ Some held.value }
    {
        let kind = kind(&held);
        Handle {
            seal: Sealed::of_parts(Parts::of(held)),
            kind,
        }
    }

    // What the handle leads to, in its box.
    pub(crate) fn into_box(self) -> Option<Box<Held, Global>>
        ensures { MatchOption result (self.seal.held ≡ None) (λ b. self.seal.held ≡ Some b.value) }
    {
        let Handle { seal, kind } = self;
        if kind == 0 {
            return None;
        }
        Some(seal.into_parts().into_box())
    }

    // What it leads to; it is then closed.
    pub(crate) fn take(&mut self, alloc: Global) -> Option<Box<Held, Global>>
        ensures closed { self.new.seal.held ≡ None }
        ensures held { MatchOption result (self.old.seal.held ≡ None) (λ b. self.old.seal.held ≡ Some b.value) }
    {
        mem::replace(self, Handle::closed(alloc)).into_box()
    }
}

// A handle may go to another thread: this call is accepted only since what it leads to may.
pub(crate) fn crosses<T: Send>(handle: &mut T)
    ensures { handle.new ≡ handle.old }
{
    let _ = handle;
}

// A handle that leads to this.
pub(crate) fn handle_of(alloc: Global, held: Held) -> Result<Handle, NoMemory>
    ensures { IfOk result (λ h. h.seal.held ≡ Some held) }
{
    let Ok(held) = Box::new(alloc, held) else {
        return Err(NoMemory);
    };
    Ok(Handle::of(held))
}
