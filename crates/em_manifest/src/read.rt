ghost use Rattle.std.specs.Prelude.{◌≡◌, Ok, Some, IfOk, IfErr, IfSome, option_map};
ghost use Rattle.toml.specs.View.{table_view};
ghost use Rattle.em_manifest.specs.Answers.{IsAnswer, IsFault};
ghost use Rattle.em_manifest.specs.Values as spec;

use crate::dependencies::dependencies_in;
use crate::manifest::{Manifest, ManifestError, ManifestKind};
use crate::values::{edition_in, has_section, name_in};
use em_base::NoMemory;
use std::alloc::Global;
use toml::Table;

/// The table that the bytes are, where they are UTF-8 and a TOML document.
pub fn document(alloc: Global, bytes: &[u8]) -> Result<Option<Table>, NoMemory>
    ensures { IfOk result (λ table. option_map table_view table ≡ spec.document bytes.now) }
{
    let Ok(text) = std::str::from_utf8(bytes) else {
        return Ok(None);
    };
    match toml::table_from_str(alloc, text) {
        Ok(table) => Ok(Some(table)),
        Err(error) => {
            if error.is_memory() {
                Err(NoMemory)
            } else {
                Ok(None)
            }
        }
    }
}

/// What a document says as a manifest.
pub fn manifest_in(alloc: Global, document: &Table) -> Result<Manifest, ManifestError>
    ensures answer { IsAnswer (spec.manifest_from (Some (table_view document.now))) result }
    ensures order { IfOk result (λ _. spec.HasOrderedEntries (table_view document.now)) }
{
    let Some(name) = name_in(alloc, document)? else {
        return Err(ManifestError::Bad(ManifestKind::NoName));
    };
    let Some(edition) = edition_in(document) else {
        return Err(ManifestError::Bad(ManifestKind::BadEdition));
    };
    let Some(dependencies) = dependencies_in(alloc, document)? else {
        return Err(ManifestError::Bad(ManifestKind::BadDependency));
    };
    if has_section(document) {
        return Err(ManifestError::Bad(ManifestKind::Section));
    }
    Ok(Manifest {
        name,
        edition,
        dependencies,
    })
}

/// Reads a manifest: the package's name and edition, and its dependencies by path.
///
/// `Bad` tells the first fault in the order of `ManifestKind`, from `NotToml` to `Section` without `EditionLine`:
/// - `NotToml`: the bytes are no UTF-8, or no TOML document.
/// - `NoName`: `package.name` is no string of ASCII letters, digits, `-` and `_` that with `-` as `_` is a name.
/// - `BadEdition`: `package.edition` is there and is no string of a known year. Where it isn't there, it means 2015.
/// - `BadDependency`: an entry of `dependencies` is no table of a string `path` and maybe a `version`, its key with
///   `-` as `_` is no name or is `std`, or two keys give one name.
/// - `Section`: there is a key `lib`, `bin`, `target`, `workspace` or `build-dependencies`, or `package` has a key
///   `build` or `links`.
///
/// All else is ignored. The form of a manifest is that of the Cargo book, "The Manifest Format".
pub fn read_manifest(alloc: Global, bytes: &[u8]) -> Result<Manifest, ManifestError>
    ensures manifest { IfOk result (λ manifest. spec.manifest_of bytes.now ≡ Ok manifest) }
    ensures order { IfOk result (λ _. IfSome (spec.document bytes.now) spec.HasOrderedEntries) }
    ensures fault { IfErr result (IsFault bytes.now) }
{
    match document(alloc, bytes)? {
        Some(document) => manifest_in(alloc, &document),
        None => Err(ManifestError::Bad(ManifestKind::NotToml)),
    }
}
