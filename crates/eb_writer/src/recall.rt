ghost use Rattle.std.specs.Prelude.{◌≡◌, ◌<◌, ◌≤◌, ◌+◌, ◌%◌, length, take, MatchOption};
ghost use Rattle.eb_base.specs.Document.{most_tokens};
ghost use Rattle.eb_place.specs.Placing.{hash};
ghost use Rattle.eb_place.specs.Postings.{count_of};
ghost use Rattle.eb_writer.specs.Recall.{Remembers, StoodAt, token_at, bucket_in};

use crate::plan::{BUCKETS, Recall};
use eb_base::Terms;
use eb_terms::{hash_of, home_of};

// Forgets all tokens, before those of another document.
pub(crate) fn forget(recall: &mut Recall, terms: &Terms)
    ensures { Remembers recall.new terms.now 0 }
{
    let _count = terms.len();
    recall.latest = [0; BUCKETS];
}

// The hash of the token at a place, by which its bucket and its home cell are found.
pub(crate) fn hash_at(terms: &Terms, at: usize) -> u32
    requires { at < length terms.now }
    ensures { result ≡ hash (token_at terms.now at) }
{
    hash_of(terms.get(at))
}

// The bucket of a token of this hash.
pub(crate) fn bucket_of(hashed: u32) -> usize
    ensures { result ≡ hashed % BUCKETS }
{
    home_of(hashed, BUCKETS as u32) as usize
}

// Where the term of the token at a place occurred last before it, if it did.
pub(crate) fn last_place(recall: &Recall, terms: &Terms, at: usize, bucket: usize) -> Option<usize>
    requires { (at < length terms.now) × (length terms.now ≤ most_tokens) × Remembers recall.now terms.now at × (bucket ≡ bucket_in terms.now at) }
    ensures { MatchOption result (count_of (token_at terms.now at) (take at terms.now) ≡ 0) (λ place. StoodAt terms.now at place) }
{
    let term = terms.get(at);
    let mut next = recall.latest[bucket];
    while next > 0 {
        let place = (next - 1) as usize;
        if terms.get(place) == term {
            return Some(place);
        }
        next = recall.before[place];
    }
    None
}

// Puts the token at a place after those before it.
pub(crate) fn remember(recall: &mut Recall, terms: &Terms, at: usize, bucket: usize)
    requires { (at < length terms.now) × (length terms.now ≤ most_tokens) × Remembers recall.old terms.now at × (bucket ≡ bucket_in terms.now at) }
    ensures { Remembers recall.new terms.now (at + 1) }
{
    let _term = terms.get(at);
    recall.before[at] = recall.latest[bucket];
    recall.latest[bucket] = at as u16 + 1;
}
