ghost use Rattle.std.specs.Prelude.{◌≡◌};
ghost use Rattle.eb_fields.specs.Ids.{id_of};

use crate::digits::digits_at;

/// The id that a text writes: one to twenty digits of a value that 64 bits hold; leading zeros are
/// allowed. Takes no memory.
#[tactic(auto, unfolding(crate::specs::Ids::id_of))]
pub fn read_id(text: &str) -> Option<u64>
    ensures { result ≡ id_of text.now }
{
    if text.is_empty() || text.len() > 20 || digits_at(text.as_bytes()) < text.len() {
        return None;
    }
    text.parse::<u64>().ok()
}
