ghost use Rattle.std.specs.Prelude.{◌≡◌, ◌<◌, ◌^◌, length, IfErr, IfOk, IsOkUnless, OnOk};
ghost use Rattle.em_edit.specs.Edited.{edited_from};
ghost use Rattle.em_edit.specs.Faults.{IsRefused};
ghost use Rattle.em_edit.specs.Fit.{AreApplicable};
ghost use Rattle.em_edit.specs.declared.bad_edit.BadEdit.TheVariants.{NoMemory};

use crate::bad_edit::BadEdit;
use crate::faults::check_all;
use crate::texts::edited_texts;
use em_base::{Bytes, List, Suggestion};
use std::alloc::Global;

/// The texts of the sources with the ranges of the suggestions' parts replaced by their texts. Offsets are in bytes of
/// the sources; a part whose range is empty is put in before the byte there.
///
/// The error tells the first suggestion that can't be applied behind those before it, and the first of its faults in
/// the order of `BadEdit`. Takes time n log n in the number of parts, and linear in the bytes of the texts.
pub fn apply(
    alloc: Global,
    sources: &List<Bytes>,
    taken: &List<Suggestion>,
) -> Result<List<Bytes>, BadEdit>
    requires few { length sources.now < 2 ^ 32 }
    requires few_taken { length taken.now < 2 ^ 32 }
    ensures edited { IfOk result (λ new. new ≡ edited_from 0 taken.now sources.now) }
    ensures applicable { OnOk result (AreApplicable sources.now taken.now) }
    ensures refused { IfErr result (IsRefused sources.now taken.now) }
    ensures only_memory { AreApplicable sources.now taken.now → IsOkUnless result NoMemory }
{
    check_all(alloc, sources.as_slice(), taken.as_slice())?;
    Ok(edited_texts(alloc, sources, taken)?)
}
