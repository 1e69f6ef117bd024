//! The ids of the parts' answers, from the greatest to the least.
ghost use Rattle.std.specs.Prelude.{◌≡◌, take, vec_capacity};
ghost use Rattle.eb_blend.specs.Blended.{falling};

// Keeps the greatest ids, at most this many, from the greatest to the least.
pub(crate) fn keep_greatest(ids: &mut Vec<u64>, most: usize)
    ensures ids { ids.new.items ≡ take most (falling ids.old.items) }
    ensures room { vec_capacity ids.new ≡ vec_capacity ids.old }
{
    let all = ids.as_mut_slice();
    all.sort_unstable();
    all.reverse();
    ids.truncate(most);
}
