//! A call at each place of a list.
//!
//! The calling thread starts all threads, one after the other. Where threads that have just started
//! start others at the same time, as where a list is halved again and again, two of them are often
//! put on one processor while another has none.
ghost use Rattle.std.specs.Prelude.{◌+◌, ◌<◌, ◌^◌, [], ◌∷◌, length};
ghost use Rattle.std.specs.Fork.{AcceptsAt, AcceptsEach, ChangesAt, ChangesEach};
ghost use Rattle.eb_beside.specs.Each.{AcceptsFrom, ChangesFrom};
ghost use denote.Param.Send.{IsSend, IsSync};

use std::thread;
use std::thread::{Threads, join_mut};

/// Calls `f(at, &mut all[at])` at each place. Where `beside`, the calling thread calls it at the
/// last place, and a thread of its own at each other one, as far as threads can be started; so
/// nothing is started for one place or none. Else the calling thread calls it at one place after
/// the other. Returns when all calls have.
pub fn each_place<R: Threads + Sync, T: Send, F: Fn(usize, &mut T) + Sync>(
    rt: &R,
    all: &mut [T],
    beside: bool,
    f: &F,
)
    requires { AcceptsEach F.Fn f.now all.old }
    ensures { ChangesEach F.Fn f.now all.old all.new }
{
    if beside {
        each_beside(rt, all, f);
    } else {
        thread::for_each_mut(rt, all, 1, f);
    }
}

// The calls, each but the last in a thread of its own.
fn each_beside<R: Threads + Sync, T: Send, F: Fn(usize, &mut T) + Sync>(
    rt: &R,
    all: &mut [T],
    f: &F,
)
    requires { AcceptsEach F.Fn f.now all.old }
    ensures { ChangesEach F.Fn f.now all.old all.new }
{
    each_from(rt, f, 0, all);
}

// The call at one place.
fn call_at<T, F: Fn(usize, &mut T)>(f: &F, at: usize, it: &mut T)
    requires { AcceptsAt F.Fn f.now at it.old }
    ensures { ChangesAt F.Fn f.now at it.old it.new }
{
    f(at, it);
}

// The call at the only place of a list.
fn at_one<T, F: Fn(usize, &mut T)>(f: &F, at: usize, it: &mut T)
    requires { AcceptsFrom F.Fn f.now at (it.old ∷ []) }
    ensures { ChangesFrom F.Fn f.now at (it.old ∷ []) (it.new ∷ []) }
{
    call_at(f, at, it);
}

// The calls at each place, where places are counted from this one.
#[cycle(each)]
fn each_from<R: Threads + Sync, T: Send, F: Fn(usize, &mut T) + Sync>(
    rt: &R,
    f: &F,
    from: usize,
    all: &mut [T],
)
    requires room { from + length all.old < 2 ^ 64 }
    requires accepts { AcceptsFrom F.Fn f.now from all.old }
    ensures { ChangesFrom F.Fn f.now from all.old all.new }
{
    let Some((own, rest)) = all.split_first_mut() else {
        return;
    };
    if rest.is_empty() {
        at_one(f, from, own);
        return;
    }
    first_and_rest(rt, f, from, own, rest);
}

// The call at this place on a thread of its own, while those at the places after it go on.
#[cycle(each)]
fn first_and_rest<R: Threads + Sync, T: Send, F: Fn(usize, &mut T) + Sync>(
    rt: &R,
    f: &F,
    from: usize,
    own: &mut T,
    rest: &mut [T],
)
    requires room { from + 1 + length rest.old < 2 ^ 64 }
    requires first { AcceptsFrom F.Fn f.now from (own.old ∷ []) }
    requires rest { AcceptsFrom F.Fn f.now (from + 1) rest.old }
    ensures first { ChangesFrom F.Fn f.now from (own.old ∷ []) (own.new ∷ []) }
    ensures rest { ChangesFrom F.Fn f.now (from + 1) rest.old rest.new }
{
    let next = from + 1;
    let mut first = ||
        requires { IsSync F.row × IsSend T.row × AcceptsFrom F.Fn f.now from (own.now ∷ []) }
        ensures { ChangesFrom F.Fn f.entry.now from (own.entry.now ∷ []) (own.exit.now ∷ []) }
    { at_one(f, from, own) };
    let mut others = ||
        requires { IsSync R.row × IsSync F.row × IsSend T.row × (next + length rest.now < 2 ^ 64)
            × AcceptsFrom F.Fn f.now next rest.now }
        ensures { ChangesFrom F.Fn f.entry.now next rest.entry.now rest.exit.now }
    { each_from(rt, f, next, rest) };
    join_mut(rt, &mut first, &mut others);
}
