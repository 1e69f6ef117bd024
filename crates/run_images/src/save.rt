ghost use Rattle.std.specs.Prelude.{◌≡◌};
ghost use Rattle.eb_fields.specs.Dialect.{dialect_of};
ghost use Rattle.eb_io.specs.Faults.{HasRisen};
ghost use Rattle.eb_lines.specs.Passing.{Ends};
ghost use Rattle.run_images.specs.Saved.{asked, AreParts, IsSaved, HasUnsaved, HasNoUnsaved};

use crate::saving::Saving;
use eb_base::{Config, Gate};
use eb_fields::Dialect;
use eb_image::write_head;
use eb_io::{Sink, Source};
use eb_lines::{Status, pass_lines};
use std::alloc::Global;

/// Saves the documents of the lines that the source gives, read by this dialect: writes the image of this setting and of the documents that the
/// lines add to an index of the setting, each part as its document is added, and the byte 0 where the input ends (this
/// project's profile, docs/FORMATS.md). A query line is refused as a bad line; refusals write nothing.
///
/// `Done` and `Refused` say that the image is whole. After `ReadFault` and `InputTooLong` the head and the parts of the
/// documents of all whole lines are written, after `WriteFault` and `NoMemory` a prefix of an image. The gate sees each
/// add. Takes the memory of the index at once.
pub fn save_lines<S: Source, K: Sink, G: Gate>(
    alloc: Global,
    dialect: Dialect<'_>,
    config: Config,
    source: &mut S,
    out: &mut K,
    gate: &G,
) -> Status
    ensures ends { let a = asked (dialect_of dialect.entry) config in Ends (AreParts a) (IsSaved a) (HasUnsaved a) (HasNoUnsaved a) result
        (S.left source.old) (S.left source.new) (K.taken out.old) (K.taken out.new) }
    // Faults come only from outside.
    ensures read_fault { result ≡ Status.ReadFault → HasRisen (S.faults source.old) (S.faults source.new) }
    ensures write_fault { result ≡ Status.WriteFault → HasRisen (K.faults out.old) (K.faults out.new) }
{
    let Ok(head) = write_head(config).to_vec(alloc) else {
        return Status::NoMemory;
    };
    let Ok(mut saving) = Saving::new(alloc, gate, dialect, config) else {
        return Status::NoMemory;
    };
    pass_lines(alloc, &mut saving, head, source, out)
}
