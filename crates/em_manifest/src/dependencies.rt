ghost use Rattle.std.specs.Prelude.{◌≡◌, true, IfOk, option_copied, option_map, option_and_then};
ghost use Rattle.toml.specs.Data.{as_str, as_table, get_member};
ghost use Rattle.toml.specs.View.{view, table_view};
ghost use Rattle.em_manifest.specs.Values as spec;

use crate::manifest::Dependency;
use crate::values::{crate_name, text_of, value_at};
use em_base::{List, Name, NoMemory, Text};
use std::alloc::Global;
use std::collections::BTreeMap;
use toml::{Table, Value};

/// Whether the only keys are `path` and `version`.
fn has_known_keys(entry: &Table) -> bool
    ensures { result ≡ spec.has_known_keys (table_view entry.now) }
{
    for (key, _value) in entry {
        if !is_known_key(key.as_str()) {
            return false;
        }
    }
    true
}

/// Whether the key is `path` or `version`.
fn is_known_key(key: &str) -> bool
    ensures { result ≡ spec.is_known_key key.now }
{
    key == "path" || key == "version"
}

/// The path of a dependency's table, which has no other key than `path` and `version`.
fn path_in(entry: &Table) -> Option<&str>
    ensures { option_copied result ≡ spec.path_in (table_view entry.now) }
{
    if has_known_keys(entry) {
        text_of(value_at(entry, "path"))
    } else {
        None
    }
}

/// The path of a dependency.
fn path_of(value: &Value) -> Option<&str>
    ensures { option_copied result ≡ option_and_then spec.path_in (as_table (view value.now)) }
{
    match value.as_table() {
        Some(entry) => path_in(entry),
        None => None,
    }
}

/// Whether the name is `std`.
fn is_std(name: &Name) -> bool
    ensures { result ≡ spec.is_std name.now }
{
    name.as_str() == "std"
}

/// The name that a dependency's key gives.
fn dependency_name(alloc: Global, key: &str) -> Result<Option<Name>, NoMemory>
    ensures { IfOk result (λ name. name ≡ spec.dependency_name key.now) }
{
    match crate_name(alloc, key)? {
        Some(name) => {
            if is_std(&name) {
                Ok(None)
            } else {
                Ok(Some(name))
            }
        }
        None => Ok(None),
    }
}

/// The dependency of a key and its value.
fn dependency_in(alloc: Global, key: &str, value: &Value) -> Result<Option<Dependency>, NoMemory>
    ensures { IfOk result (λ dependency. dependency ≡ spec.dependency_in key.now (view value.now)) }
{
    let Some(name) = dependency_name(alloc, key)? else {
        return Ok(None);
    };
    let Some(path) = path_of(value) else {
        return Ok(None);
    };
    let path = Text::from_str(alloc, path)?;
    Ok(Some(Dependency { name, path }))
}

/// The dependencies of all entries, in byte order of their keys.
fn entries_in(alloc: Global, entries: &Table) -> Result<Option<List<Dependency>>, NoMemory>
    ensures found { IfOk result (λ found. found ≡ spec.entries_in (table_view entries.now)) }
    ensures order { IfOk result (λ _. spec.keys_ascend (table_view entries.now) ≡ true) }
{
    let mut found = List::new(alloc);
    for (key, value) in entries {
        match dependency_in(alloc, key.as_str(), value)? {
            Some(dependency) => found.push(dependency)?,
            None => return Ok(None),
        }
    }
    Ok(Some(found))
}

/// Whether no two of the dependencies have one name.
fn have_own_names(alloc: Global, dependencies: &[Dependency]) -> Result<bool, NoMemory>
    ensures { IfOk result (λ own. own ≡ spec.have_own_names dependencies.now) }
{
    let mut seen = BTreeMap::new(alloc);
    let mut at = dependencies.len();
    while at > 0 {
        at -= 1;
        if seen.insert(dependencies[at].name.as_str(), ())?.is_some() {
            return Ok(false);
        }
    }
    Ok(true)
}

/// The dependencies of all entries, where no two have one name.
fn own_dependencies(alloc: Global, entries: &Table) -> Result<Option<List<Dependency>>, NoMemory>
    ensures found { IfOk result (λ found. found ≡ spec.own_dependencies (spec.entries_in (table_view entries.now))) }
    ensures order { IfOk result (λ _. spec.keys_ascend (table_view entries.now) ≡ true) }
{
    let Some(found) = entries_in(alloc, entries)? else {
        return Ok(None);
    };
    if have_own_names(alloc, found.as_slice())? {
        Ok(Some(found))
    } else {
        Ok(None)
    }
}

/// The package's dependencies, in byte order of their keys.
pub fn dependencies_in(
    alloc: Global,
    document: &Table,
) -> Result<Option<List<Dependency>>, NoMemory>
    ensures found { IfOk result (λ found. found ≡ spec.dependencies_in (table_view document.now)) }
    ensures order { IfOk result (λ _. spec.HasOrderedEntries (table_view document.now)) }
{
    let Some(value) = value_at(document, "dependencies") else {
        return Ok(Some(List::new(alloc)));
    };
    match value.as_table() {
        Some(entries) => own_dependencies(alloc, entries),
        None => Ok(None),
    }
}
