ghost use Rattle.std.specs.Prelude.{◌≡◌, ◌↔◌, Ok, Some, IfOk, IfErr, IsTrue};
ghost use Rattle.em_manifest.specs.Answers.{IsNotSet, IsOtherwise, ReadsAs, with_edition, with_line};
ghost use Rattle.em_manifest.specs.Values as spec;

use crate::change::edited;
use crate::manifest::{Dependency, Manifest, ManifestError, ManifestKind};
use crate::read::{document, manifest_in, read_manifest};
use crate::values::{edition_in, name_in, tells_edition};
use em_base::{Bytes, Edition};
use std::alloc::Global;

/// Whether two dependencies are equal.
fn is_same_dependency(one: &Dependency, other: &Dependency) -> bool
    ensures { IsTrue result ↔ (one.now ≡ other.now) }
{
    one.name.as_str() == other.name.as_str() && one.path.as_str() == other.path.as_str()
}

/// Whether the dependencies are equal.
fn are_same_dependencies(some: &[Dependency], others: &[Dependency]) -> bool
    ensures { IsTrue result ↔ (some.now ≡ others.now) }
{
    if some.len() != others.len() {
        return false;
    }
    for i in 0..some.len() {
        if !is_same_dependency(&some[i], &others[i]) {
            return false;
        }
    }
    true
}

/// Whether the new manifest is the old one with the edition.
fn is_with_edition(edition: Edition, old: &Manifest, new: &Manifest) -> bool
    ensures { IsTrue result ↔ (new.now ≡ with_edition edition old.now) }
{
    new.name.as_str() == old.name.as_str()
        && new.edition == edition
        && are_same_dependencies(new.dependencies.as_slice(), old.dependencies.as_slice())
}

/// The new bytes, where they read as the old manifest with the edition.
fn confirmed(
    alloc: Global,
    edition: Edition,
    old: &Manifest,
    new: Bytes,
) -> Result<Bytes, ManifestError>
    ensures same { IfOk result (λ bytes. bytes ≡ new) }
    ensures reads { IfOk result (λ bytes. spec.manifest_of bytes ≡ Ok (with_edition edition old.now)) }
    ensures otherwise { IfErr result (IsOtherwise new (with_edition edition old.now)) }
{
    match read_manifest(alloc, new.as_slice()) {
        Ok(again) => {
            if is_with_edition(edition, old, &again) {
                Ok(new)
            } else {
                Err(ManifestError::Bad(ManifestKind::EditionLine))
            }
        }
        Err(ManifestError::Bad(_)) => Err(ManifestError::Bad(ManifestKind::EditionLine)),
        Err(ManifestError::NoMemory) => Err(ManifestError::NoMemory),
    }
}

/// The manifest with another edition: the year of its edition line is replaced, or, where the edition isn't told, the
/// line `edition = "YEAR"` is put in behind the line `[package]`, with that line's end. All other bytes are kept, and
/// the new bytes read as the old manifest with the new edition.
///
/// `Bad` tells the first fault in the order of `ManifestKind`: those of `read_manifest`, and `EditionLine` where
/// - there is no line `[package]`, or more than one;
/// - the edition is told, and not exactly one line from there to the next that begins with `[` has the form
///   `edition`, spaces, `=`, spaces, a quote, the year, the same quote, spaces, and maybe a comment;
/// - `"""` or `'''` stands before the place of the change;
/// - the new bytes would read otherwise.
pub fn set_edition(alloc: Global, bytes: &[u8], edition: Edition) -> Result<Bytes, ManifestError>
    ensures line { IfOk result (λ new. with_line edition bytes.now ≡ Some new) }
    ensures reads { IfOk result (ReadsAs edition bytes.now) }
    ensures fault { IfErr result (IsNotSet edition bytes.now) }
{
    let Some(document) = document(alloc, bytes)? else {
        return Err(ManifestError::Bad(ManifestKind::NotToml));
    };
    if name_in(alloc, &document)?.is_none() {
        return Err(ManifestError::Bad(ManifestKind::NoName));
    }
    if edition_in(&document).is_none() {
        return Err(ManifestError::Bad(ManifestKind::BadEdition));
    }
    let Some(new) = edited(alloc, edition, tells_edition(&document), bytes)? else {
        return Err(ManifestError::Bad(ManifestKind::EditionLine));
    };
    let manifest = manifest_in(alloc, &document)?;
    confirmed(alloc, edition, &manifest, new)
}
