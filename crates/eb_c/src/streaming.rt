//! The feed that threads share, for C: it never ends and is never full. One leader adds, and any
//! number of followers search the newest generations that the feed keeps, each behind a handle, as
//! those of `sharing` are.
ghost use Rattle.std.specs.Prelude.{◌≡◌, ◌≢◌, ◌⊎◌, ◌≤◌, false, None, Some, Err, Result, [], IfOk, IfSome};
ghost use Rattle.std.specs.Bool.{MatchBool};
ghost use Rattle.eb_base.specs.Document.{Doc};
ghost use Rattle.eb_base.specs.Setting.{Setting, IsSetting};
ghost use Rattle.eb_engine.specs.Tokens.{ConverterToken};
ghost use Rattle.eb_table.specs.Known.{Words};
ghost use Rattle.feed_shared.specs.Turns.{FeedToken, PieceToken, WriterToken, history_of, counted, HasTaken, IsLetGo, IsOfNewest};
ghost use Rattle.eb_c.specs.Adding.{document_in, document_with};
ghost use Rattle.eb_c.specs.Asking.{asked_of, nothing_told, LineAsks, TextAsks};
ghost use Rattle.eb_c.specs.Sharing.{kind_of, LeadsNowhere, LeadsToConverter};
ghost use Rattle.eb_c.specs.Streaming.{LeadsToLeader, LeadsToFollower, LeadsToSpare, LeadsToReleased, LeadsBack, GivesBack};
ghost use Rattle.eb_c.specs.Streaming.{LeaderAdds, Follows, FollowerTells, FollowerAnswers};

use crate::asking::{put_ids, refused};
use crate::handle::{BAD_HANDLE, Handle, crosses, handle_of};
use crate::held::Held;
use crate::index::{Answer, setting};
use crate::leading::{HeldFollower, HeldLeader};
use crate::reading::{
    Question, document_in_line, document_with, question_in_line, question_in_text,
};
use crate::refusal::Refusal;
use eb_base::{Config, Document, NoMemory};
use feed_shared::{FeedConverter, Released, Spare};
use std::alloc::Global;

/// Opens a feed without a document, which keeps `keep` generations of an index of this setting, 2
/// to 64, with its leader, whose handle is closed before: 0; else `BadSetting` (13), `NoMemory`
/// (12), or 16 where the handle isn't closed, and it is as before. Takes memory for one generation.
#[unsafe(no_mangle)]
pub extern "C" fn eb_stream_open(
    alloc: Global,
    leader: &mut Handle,
    segments: u32,
    docs: u32,
    terms: u32,
    keep: u32,
) -> u32
    ensures opened { let σ : Setting = record { segments = segments; docs = docs; terms = terms } in
        result ≡ 0 → (w : WriterToken) × LeadsToLeader leader.new.seal.held w × (w.setting ≡ σ) × (w.keep ≡ keep) × HasTaken w [] }
    ensures setting { let σ : Setting = record { segments = segments; docs = docs; terms = terms } in
        LeadsNowhere leader.old.seal.held → (IsSetting σ × (2 ≤ keep) × (keep ≤ 64) → ⊥) → result ≡ 13 }
    ensures unchanged { (result ≡ 0 → ⊥) → leader.new ≡ leader.old }
    ensures bad { kind_of leader.old.seal.held ≢ 0 → result ≡ 16 }
    ensures memory { let σ : Setting = record { segments = segments; docs = docs; terms = terms } in
        kind_of leader.old.seal.held ≡ 0 → IsSetting σ → 2 ≤ keep → keep ≤ 64 → (result ≡ 0) ⊎ (result ≡ 12) }
{
    crosses(leader);
    if leader.kind != 0 {
        return BAD_HANDLE;
    }
    if keep < 2 || keep > 64 {
        return Refusal::BadSetting.number();
    }
    let Some(config) = setting(segments, docs, terms) else {
        return Refusal::BadSetting.number();
    };
    match open(alloc, config, keep) {
        Ok(handle) => {
            *leader = handle;
            0
        }
        Err(NoMemory) => Refusal::NoMemory.number(),
    }
}

// An empty feed, as the handle of its leader.
fn open(alloc: Global, config: Config, keep: u32) -> Result<Handle, NoMemory>
    requires { (2 ≤ keep) × (keep ≤ 64) }
    ensures { IfOk result (λ h. (w : WriterToken) × LeadsToLeader h.seal.held w × (w.setting ≡ config) × (w.keep ≡ keep) × HasTaken w []) }
{
    match HeldLeader::open(alloc, config, keep) {
        Ok(leader) => handle_of(alloc, Held::Leader(leader)),
        Err(NoMemory) => Err(NoMemory),
    }
}

/// Adds the document of an id and a text, which is UTF-8, after those that this leader added: 0;
/// else the number of its refusal, and the history is as before; 16 where the handle isn't that of
/// a leader. It is never full: where the newest generation has no room, the leader begins another,
/// sends the news to the followers, and drops the oldest that it keeps. `NoMemory` (12) where
/// memory runs out for that, or to read the text.
#[unsafe(no_mangle)]
pub extern "C" fn eb_leader_add_text(
    alloc: Global,
    leader: &mut Handle,
    id: u64,
    text: &[u8],
) -> u32
    ensures added { (w : WriterToken) → LeadsToLeader leader.old.seal.held w
        → (r : Result Doc Refusal) × ((r ≡ Err Refusal.NoMemory) ⊎ (r ≡ document_with id text.now))
        × (v : WriterToken) × LeadsToLeader leader.new.seal.held v × LeaderAdds r w result v }
    ensures bad { kind_of leader.old.seal.held ≢ 4 → (result ≡ 16) × (leader.new.seal.held ≡ leader.old.seal.held) }
{
    add_by(alloc, leader, document_with(alloc, id, text))
}

/// Adds the document of a document line, the bytes of one line without its end, as
/// `eb_leader_add_text` does.
#[unsafe(no_mangle)]
pub extern "C" fn eb_leader_add_line(alloc: Global, leader: &mut Handle, line: &[u8]) -> u32
    ensures added { (w : WriterToken) → LeadsToLeader leader.old.seal.held w
        → (r : Result Doc Refusal) × ((r ≡ Err Refusal.NoMemory) ⊎ (r ≡ document_in line.now))
        × (v : WriterToken) × LeadsToLeader leader.new.seal.held v × LeaderAdds r w result v }
    ensures bad { kind_of leader.old.seal.held ≢ 4 → (result ≡ 16) × (leader.new.seal.held ≡ leader.old.seal.held) }
{
    add_by(alloc, leader, document_in_line(alloc, line))
}

// Adds what was read of a document: 0, or the number of the refusal; 16 where the handle isn't that
// of a leader.
pub(crate) fn add_by(alloc: Global, leader: &mut Handle, read: Result<Document, Refusal>) -> u32
    ensures added { (w : WriterToken) → LeadsToLeader leader.old.seal.held w
        → (v : WriterToken) × LeadsToLeader leader.new.seal.held v × LeaderAdds read w result v }
    ensures bad { kind_of leader.old.seal.held ≢ 4 → (result ≡ 16) × (leader.new.seal.held ≡ leader.old.seal.held) }
{
    let Some(held) = leader.take(alloc) else {
        return BAD_HANDLE;
    };
    let mut held = held;
    let number = add_read(&mut held, read);
    *leader = Handle::of(held);
    number
}

// Adds what was read of a document: 0, or the number of the refusal.
pub(crate) fn add_read(held: &mut Held, read: Result<Document, Refusal>) -> u32
    ensures added { (w : WriterToken) → held.old ≡ Held.Leader w → (v : WriterToken) × (held.new ≡ Held.Leader v) × LeaderAdds read w result v }
    ensures bad { kind_of (Some held.old) ≢ 4 → (result ≡ 16) × (held.new ≡ held.old) }
{
    let Held::Leader(leader) = held else {
        return BAD_HANDLE;
    };
    match read {
        Ok(document) => {
            if leader.add(&document) {
                0
            } else {
                Refusal::NoMemory.number()
            }
        }
        Err(refusal) => refusal.number(),
    }
}

/// Sends the news of the generations that were begun to each follower, as an add does too. `told`
/// is 1 where all followers have them now, and 0 where that failed for one, since it was just at
/// its mailbox or memory ran out: 0; or 16 where the handle isn't that of a leader, and nothing is
/// reported.
#[unsafe(no_mangle)]
pub extern "C" fn eb_leader_tell(alloc: Global, leader: &mut Handle, told: &mut u32) -> u32
    ensures leader { leader.new.seal.held ≡ leader.old.seal.held }
    ensures done { kind_of leader.old.seal.held ≡ 4 → (result ≡ 0) × (told.new ≤ 1) }
    ensures bad { kind_of leader.old.seal.held ≢ 4 → (result ≡ 16) × (told.new ≡ told.old) }
{
    let Some(held) = leader.take(alloc) else {
        return BAD_HANDLE;
    };
    let mut held = held;
    let number = tell_held(&mut held, told);
    *leader = Handle::of(held);
    number
}

// Sends the news to the followers of a leader: 0, or 16 where it isn't a leader.
fn tell_held(held: &mut Held, told: &mut u32) -> u32
    ensures held { held.new ≡ held.old }
    ensures done { kind_of (Some held.old) ≡ 4 → (result ≡ 0) × (told.new ≤ 1) }
    ensures bad { kind_of (Some held.old) ≢ 4 → (result ≡ 16) × (told.new ≡ told.old) }
{
    let Held::Leader(leader) = held else {
        return BAD_HANDLE;
    };
    *told = u32::from(leader.tell());
    0
}

/// Makes the converter of the leader's newest generation, if it wasn't made since that was begun;
/// else the handle stays closed: 0; else `NoMemory` (12), and the generation stays as it is, or 16
/// where the one handle isn't that of a leader, or the other isn't closed. `eb_converter_convert`
/// takes it, even where the generation isn't the newest any more.
#[unsafe(no_mangle)]
pub extern "C" fn eb_leader_converter(
    alloc: Global,
    leader: &mut Handle,
    converter: &mut Handle,
) -> u32
    ensures made { (w : WriterToken) → LeadsToLeader leader.old.seal.held w → result ≡ 0 → LeadsNowhere converter.new.seal.held
        ⊎ ((c : ConverterToken) × LeadsToConverter converter.new.seal.held c × IsOfNewest c.index w.feed.log) }
    ensures leader { leader.new.seal.held ≡ leader.old.seal.held }
    ensures unchanged { (result ≡ 0 → ⊥) → converter.new ≡ converter.old }
    ensures bad { (kind_of converter.old.seal.held ≢ 0) ⊎ (kind_of leader.old.seal.held ≢ 4) → result ≡ 16 }
    ensures memory { kind_of converter.old.seal.held ≡ 0 → kind_of leader.old.seal.held ≡ 4 → (result ≡ 0) ⊎ (result ≡ 12) }
{
    if converter.kind != 0 || leader.kind != 4 {
        return BAD_HANDLE;
    }
    let Some(held) = leader.take(alloc) else {
        return BAD_HANDLE;
    };
    let mut held = held;
    let made = converter_of(&mut held);
    *leader = Handle::of(held);
    let Some(made) = made else {
        return 0;
    };
    match handle_of(alloc, Held::FeedConverter(made)) {
        Ok(handle) => {
            *converter = handle;
            0
        }
        Err(NoMemory) => Refusal::NoMemory.number(),
    }
}

// The converter of a leader's newest generation, if it wasn't made yet.
fn converter_of(held: &mut Held) -> Option<FeedConverter>
    ensures held { held.new ≡ held.old }
    ensures made { (w : WriterToken) → held.old ≡ Held.Leader w → IfSome result (λ c. IsOfNewest c.index w.feed.log) }
{
    match held {
        Held::Leader(leader) => leader.converter(),
        _ => None,
    }
}

/// Opens an index of this setting ahead, for the next generation of a feed, on any thread; its
/// handle is closed before: 0; else `BadSetting` (13), `NoMemory` (12), or 16 where the handle
/// isn't closed, and it is as before. Takes memory for one generation.
#[unsafe(no_mangle)]
pub extern "C" fn eb_spare_open(
    alloc: Global,
    spare: &mut Handle,
    segments: u32,
    docs: u32,
    terms: u32,
) -> u32
    ensures opened { let σ : Setting = record { segments = segments; docs = docs; terms = terms } in
        result ≡ 0 → (s : Words) × LeadsToSpare spare.new.seal.held s × (s.setting ≡ σ) }
    ensures setting { let σ : Setting = record { segments = segments; docs = docs; terms = terms } in
        LeadsNowhere spare.old.seal.held → (IsSetting σ → ⊥) → result ≡ 13 }
    ensures unchanged { (result ≡ 0 → ⊥) → spare.new ≡ spare.old }
    ensures bad { kind_of spare.old.seal.held ≢ 0 → result ≡ 16 }
    ensures memory { let σ : Setting = record { segments = segments; docs = docs; terms = terms } in
        kind_of spare.old.seal.held ≡ 0 → IsSetting σ → (result ≡ 0) ⊎ (result ≡ 12) }
{
    if spare.kind != 0 {
        return BAD_HANDLE;
    }
    let Some(config) = setting(segments, docs, terms) else {
        return Refusal::BadSetting.number();
    };
    match open_spare(alloc, config) {
        Ok(handle) => {
            *spare = handle;
            0
        }
        Err(NoMemory) => Refusal::NoMemory.number(),
    }
}

// An index that is opened ahead, as its handle.
fn open_spare(alloc: Global, config: Config) -> Result<Handle, NoMemory>
    ensures { IfOk result (λ h. (s : Words) × LeadsToSpare h.seal.held s × (s.setting ≡ config)) }
{
    match Spare::open(alloc, config) {
        Ok(spare) => handle_of(alloc, Held::Spare(Some(spare))),
        Err(NoMemory) => Err(NoMemory),
    }
}

/// Gives this leader an index that was opened ahead: the add that begins the next generation takes
/// it, and opens none. The spare's handle then leads to the one that the leader was given before
/// and didn't begin yet, or it is closed where there is none: 0; else `BadSetting` (13) where its
/// setting isn't that of the feed, or 16 where the one handle isn't that of a leader, or the other
/// isn't that of a spare index, and both are as before. Takes no memory.
#[unsafe(no_mangle)]
pub extern "C" fn eb_leader_lend(alloc: Global, leader: &mut Handle, spare: &mut Handle) -> u32
    ensures leader { leader.new.seal.held ≡ leader.old.seal.held }
    ensures lent { (w : WriterToken) (s : Words) → LeadsToLeader leader.old.seal.held w → LeadsToSpare spare.old.seal.held s
        → ((result ≡ 0) × (s.setting ≡ w.setting) × LeadsBack spare.new.seal.held w.setting)
        ⊎ ((result ≡ 13) × (s.setting ≡ w.setting → ⊥)) }
    ensures unchanged { (result ≡ 0 → ⊥) → spare.new.seal.held ≡ spare.old.seal.held }
    ensures bad { (kind_of leader.old.seal.held ≢ 4) ⊎ (kind_of spare.old.seal.held ≢ 6) → result ≡ 16 }
{
    if leader.kind != 4 || spare.kind != 6 {
        return BAD_HANDLE;
    }
    let Some(held) = leader.take(alloc) else {
        return BAD_HANDLE;
    };
    let mut held = held;
    let number = lend_by(alloc, &mut held, spare);
    *leader = Handle::of(held);
    number
}

// Lends the index that a handle leads to: 0, or the number of the refusal.
fn lend_by(alloc: Global, held: &mut Held, spare: &mut Handle) -> u32
    ensures held { held.new ≡ held.old }
    ensures lent { (w : WriterToken) (s : Words) → held.old ≡ Held.Leader w → LeadsToSpare spare.old.seal.held s
        → ((result ≡ 0) × (s.setting ≡ w.setting) × LeadsBack spare.new.seal.held w.setting)
        ⊎ ((result ≡ 13) × (s.setting ≡ w.setting → ⊥)) }
    ensures unchanged { (result ≡ 0 → ⊥) → spare.new.seal.held ≡ spare.old.seal.held }
    ensures bad { (kind_of (Some held.old) ≢ 4) ⊎ (kind_of spare.old.seal.held ≢ 6) → (result ≡ 0 → ⊥) }
{
    let Some(lent) = spare.take(alloc) else {
        return BAD_HANDLE;
    };
    // The one that comes back gets the handle of the one that is lent, so that none is lost where
    // memory runs out.
    let mut lent = lent;
    if !lend_held(held, &mut lent) {
        *spare = Handle::of(lent);
        return Refusal::BadSetting.number();
    }
    if !is_out(&lent) {
        *spare = Handle::of(lent);
    }
    0
}

// Whether this is a spare index that was lent, and none came back.
fn is_out(lent: &Held) -> bool
    ensures { MatchBool result (lent.now ≡ Held.Spare None) (lent.now ≢ Held.Spare None) }
{
    matches!(lent, Held::Spare(None))
}

// Gives an index to a leader, and gets the one that it had, or nothing. False where these aren't a
// leader and an index of its feed's setting; both are then as before.
fn lend_held(held: &mut Held, lent: &mut Held) -> bool
    ensures held { held.new ≡ held.old }
    ensures lent { (w : WriterToken) (s : Words) → held.old ≡ Held.Leader w → lent.old ≡ Held.Spare (Some s)
        → MatchBool result ((s.setting ≡ w.setting) × GivesBack lent.new w.setting) (s.setting ≡ w.setting → ⊥) }
    ensures unchanged { result ≡ false → lent.new ≡ lent.old }
    ensures bad { (kind_of (Some held.old) ≢ 4) ⊎ (kind_of (Some lent.old) ≢ 6) → result ≡ false }
{
    match (held, lent) {
        (Held::Leader(leader), Held::Spare(spare)) => leader.exchange(spare),
        _ => false,
    }
}

/// Takes the generation that this leader's last turn dropped, if that turn began an index that was
/// lent, and the generation wasn't taken yet; else the handle stays closed: 0; else 16 where the
/// one handle isn't that of a leader, or the other isn't closed. So the add of that turn gives no
/// memory back: `eb_close` does, on any thread, unless a follower or the generation's converter
/// still holds it. Takes memory for the handle; where memory runs out, `NoMemory` (12), and this
/// call drops the generation.
#[unsafe(no_mangle)]
pub extern "C" fn eb_leader_released(
    alloc: Global,
    leader: &mut Handle,
    released: &mut Handle,
) -> u32
    ensures taken { (w : WriterToken) → LeadsToLeader leader.old.seal.held w → result ≡ 0 → LeadsNowhere released.new.seal.held
        ⊎ ((p : PieceToken) × LeadsToReleased released.new.seal.held p × IsLetGo p w.keep w.feed.log) }
    ensures leader { leader.new.seal.held ≡ leader.old.seal.held }
    ensures unchanged { (result ≡ 0 → ⊥) → released.new ≡ released.old }
    ensures bad { (kind_of released.old.seal.held ≢ 0) ⊎ (kind_of leader.old.seal.held ≢ 4) → result ≡ 16 }
    ensures memory { kind_of released.old.seal.held ≡ 0 → kind_of leader.old.seal.held ≡ 4 → (result ≡ 0) ⊎ (result ≡ 12) }
{
    if released.kind != 0 || leader.kind != 4 {
        return BAD_HANDLE;
    }
    let Some(held) = leader.take(alloc) else {
        return BAD_HANDLE;
    };
    let mut held = held;
    let taken = released_by(&mut held);
    *leader = Handle::of(held);
    let Some(taken) = taken else {
        return 0;
    };
    match handle_of(alloc, Held::Released(taken)) {
        Ok(handle) => {
            *released = handle;
            0
        }
        Err(NoMemory) => Refusal::NoMemory.number(),
    }
}

// The generation that a leader's last turn dropped, if it wasn't taken yet.
fn released_by(held: &mut Held) -> Option<Released>
    ensures held { held.new ≡ held.old }
    ensures taken { (w : WriterToken) → held.old ≡ Held.Leader w → IfSome result (λ p. IsLetGo p w.keep w.feed.log) }
{
    match held {
        Held::Leader(leader) => leader.released(),
        _ => None,
    }
}

/// Makes a follower that knows all that this leader added: 0; else `NoMemory` (12), or 16 where the
/// one handle isn't that of a leader, or the other isn't closed, and both are as before.
#[unsafe(no_mangle)]
pub extern "C" fn eb_follower(alloc: Global, leader: &mut Handle, follower: &mut Handle) -> u32
    ensures made { (w : WriterToken) → LeadsToLeader leader.old.seal.held w → result ≡ 0 → LeadsToFollower follower.new.seal.held w.feed }
    ensures leader { leader.new.seal.held ≡ leader.old.seal.held }
    ensures unchanged { (result ≡ 0 → ⊥) → follower.new ≡ follower.old }
    ensures bad { (kind_of follower.old.seal.held ≢ 0) ⊎ (kind_of leader.old.seal.held ≢ 4) → result ≡ 16 }
    ensures memory { kind_of follower.old.seal.held ≡ 0 → kind_of leader.old.seal.held ≡ 4 → (result ≡ 0) ⊎ (result ≡ 12) }
{
    if follower.kind != 0 || leader.kind != 4 {
        return BAD_HANDLE;
    }
    let Some(held) = leader.take(alloc) else {
        return BAD_HANDLE;
    };
    let mut held = held;
    let made = follower_of(&mut held);
    *leader = Handle::of(held);
    let Some(made) = made else {
        return Refusal::NoMemory.number();
    };
    match handle_of(alloc, Held::Follower(made)) {
        Ok(handle) => {
            *follower = handle;
            0
        }
        Err(NoMemory) => Refusal::NoMemory.number(),
    }
}

// A follower that knows what this leader knows.
fn follower_of(held: &mut Held) -> Option<HeldFollower>
    ensures held { held.new ≡ held.old }
    ensures made { (w : WriterToken) → held.old ≡ Held.Leader w → IfSome result (λ f. f ≡ w.feed) }
{
    match held {
        Held::Leader(leader) => leader.follower(),
        _ => None,
    }
}

/// Takes in this follower's news, and answers a query text, which is UTF-8, of which the newest `k`
/// matches are wanted, over the generations that it then holds: those that its feed keeps, as far
/// as it knows them, and of the newest of them the documents that are accepted when the call counts
/// them. 0, and the ids of the newest that match, newest first, as many as there is room for;
/// `answer` reports how many documents are in the history that the follower knows then, and how
/// many ids there are. Else the number of the refusal, no id is written, the follower is as before,
/// and `answer` reports the column of a bad query; 16 where the handle isn't that of a follower.
/// Takes memory for the query and its search, which is given back.
#[unsafe(no_mangle)]
pub extern "C" fn eb_follower_ask_text(
    alloc: Global,
    follower: &mut Handle,
    k: u32,
    text: &[u8],
    ids: &mut [u64],
    answer: &mut Answer,
) -> u32
    ensures told { (f : FeedToken) → LeadsToFollower follower.old.seal.held f
        → (g : FeedToken) × LeadsToFollower follower.new.seal.held g × FollowerAnswers (TextAsks k text.now) f g result answer.new ids.old ids.new }
    ensures bad { kind_of follower.old.seal.held ≢ 5
        → (result ≡ 16) × (answer.new ≡ nothing_told 0) × (ids.new ≡ ids.old) × (follower.new.seal.held ≡ follower.old.seal.held) }
{
    ask_by(
        alloc,
        follower,
        question_in_text(alloc, k, text),
        ids,
        answer,
    )
}

/// Answers a query line, the bytes of one line without its end, as `eb_follower_ask_text` does.
#[unsafe(no_mangle)]
pub extern "C" fn eb_follower_ask_line(
    alloc: Global,
    follower: &mut Handle,
    line: &[u8],
    ids: &mut [u64],
    answer: &mut Answer,
) -> u32
    ensures told { (f : FeedToken) → LeadsToFollower follower.old.seal.held f
        → (g : FeedToken) × LeadsToFollower follower.new.seal.held g × FollowerAnswers (LineAsks line.now) f g result answer.new ids.old ids.new }
    ensures bad { kind_of follower.old.seal.held ≢ 5
        → (result ≡ 16) × (answer.new ≡ nothing_told 0) × (ids.new ≡ ids.old) × (follower.new.seal.held ≡ follower.old.seal.held) }
{
    ask_by(alloc, follower, question_in_line(alloc, line), ids, answer)
}

// Answers what was read of a question: 0, or the number of the refusal; 16 where the handle isn't
// that of a follower.
pub(crate) fn ask_by(
    alloc: Global,
    follower: &mut Handle,
    read: Question,
    ids: &mut [u64],
    answer: &mut Answer,
) -> u32
    ensures told { (f : FeedToken) → LeadsToFollower follower.old.seal.held f
        → (g : FeedToken) × LeadsToFollower follower.new.seal.held g × Follows (asked_of read) f g
        × FollowerTells g (asked_of read) result answer.new ids.old ids.new }
    ensures bad { kind_of follower.old.seal.held ≢ 5
        → (result ≡ 16) × (answer.new ≡ nothing_told 0) × (ids.new ≡ ids.old) × (follower.new.seal.held ≡ follower.old.seal.held) }
{
    let Some(held) = follower.take(alloc) else {
        *answer = refused(0);
        return BAD_HANDLE;
    };
    let mut held = held;
    let number = ask_held(&mut held, read, ids, answer);
    *follower = Handle::of(held);
    number
}

// Answers what was read of a question, by what the handle leads to.
fn ask_held(held: &mut Held, read: Question, ids: &mut [u64], answer: &mut Answer) -> u32
    ensures told { (f : FeedToken) → held.old ≡ Held.Follower f
        → (g : FeedToken) × (held.new ≡ Held.Follower g) × Follows (asked_of read) f g
        × FollowerTells g (asked_of read) result answer.new ids.old ids.new }
    ensures bad { kind_of (Some held.old) ≢ 5 → (result ≡ 16) × (answer.new ≡ nothing_told 0) × (ids.new ≡ ids.old) × (held.new ≡ held.old) }
{
    let Held::Follower(follower) = held else {
        *answer = refused(0);
        return BAD_HANDLE;
    };
    match read {
        Question::Asks(frame) => {
            let mut frame = frame;
            let seen = follower.search(&mut frame);
            put_ids(frame.ids(), seen, ids, answer);
            0
        }
        Question::Refused(refusal, column) => {
            *answer = refused(column);
            refusal.number()
        }
    }
}

/// Reports how many documents are in the history that this follower knows: 0; or 16 where the
/// handle isn't that of a follower, and nothing is reported. Takes no memory.
#[unsafe(no_mangle)]
pub extern "C" fn eb_follower_seen(alloc: Global, follower: &mut Handle, seen: &mut u64) -> u32
    ensures told { (f : FeedToken) → LeadsToFollower follower.old.seal.held f → (result ≡ 0) × (seen.new ≡ counted (history_of f.log f.docs)) }
    ensures follower { follower.new.seal.held ≡ follower.old.seal.held }
    ensures bad { kind_of follower.old.seal.held ≢ 5 → (result ≡ 16) × (seen.new ≡ seen.old) }
{
    let Some(held) = follower.take(alloc) else {
        return BAD_HANDLE;
    };
    let mut held = held;
    let number = seen_by(&mut held, seen);
    *follower = Handle::of(held);
    number
}

// How many documents a follower knows: 0, or 16 where it isn't a follower.
fn seen_by(held: &mut Held, seen: &mut u64) -> u32
    ensures held { held.new ≡ held.old }
    ensures told { (f : FeedToken) → held.old ≡ Held.Follower f → (result ≡ 0) × (seen.new ≡ counted (history_of f.log f.docs)) }
    ensures bad { kind_of (Some held.old) ≢ 5 → (result ≡ 16) × (seen.new ≡ seen.old) }
{
    let Held::Follower(follower) = held else {
        return BAD_HANDLE;
    };
    *seen = follower.seen();
    0
}

/// Reports how many generations this follower holds, which its next answer is over unless news of
/// more comes: 0; or 16 where the handle isn't that of a follower, and nothing is reported. Takes
/// no memory.
#[unsafe(no_mangle)]
pub extern "C" fn eb_follower_held(alloc: Global, follower: &mut Handle, number: &mut u64) -> u32
    ensures told { (f : FeedToken) → LeadsToFollower follower.old.seal.held f → (result ≡ 0) × (number.new ≡ f.held) }
    ensures follower { follower.new.seal.held ≡ follower.old.seal.held }
    ensures bad { kind_of follower.old.seal.held ≢ 5 → (result ≡ 16) × (number.new ≡ number.old) }
{
    let Some(held) = follower.take(alloc) else {
        return BAD_HANDLE;
    };
    let mut held = held;
    let done = held_by(&mut held, number);
    *follower = Handle::of(held);
    done
}

// How many generations a follower holds: 0, or 16 where it isn't a follower.
fn held_by(held: &mut Held, number: &mut u64) -> u32
    ensures held { held.new ≡ held.old }
    ensures told { (f : FeedToken) → held.old ≡ Held.Follower f → (result ≡ 0) × (number.new ≡ f.held) }
    ensures bad { kind_of (Some held.old) ≢ 5 → (result ≡ 16) × (number.new ≡ number.old) }
{
    let Held::Follower(follower) = held else {
        return BAD_HANDLE;
    };
    *number = follower.held();
    0
}
