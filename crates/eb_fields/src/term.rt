ghost use Rattle.std.specs.Prelude.{◌≡◌, IfOk};
ghost use Rattle.eb_fields.specs.Fields as spec;

use eb_base::{NoMemory, Term};
use eb_text::folded_term;
use std::alloc::Global;

/// The most bytes of a field's value under case folding. A document with a longer one is refused.
pub const MAX_VALUE_BYTES: usize = 128;

/// The term of a field's value: a byte that is in no text, the name, a colon and the whole value,
/// which isn't cut into words, under the default case folding of Unicode. Takes memory for the
/// term; `NoMemory` where it runs out.
pub fn field_term(alloc: Global, name: &str, value: &str) -> Result<Term, NoMemory>
    ensures { IfOk result (λ term. term ≡ spec.field_term name.now value.now) }
{
    let folded = folded_term(alloc, value)?;
    let mut bytes = Vec::new(alloc);
    bytes.push(255)?;
    bytes.extend_from_slice(name.as_bytes())?;
    bytes.push(b':')?;
    bytes.extend_from_slice(folded.bytes())?;
    Term::new(alloc, bytes.as_slice())
}
