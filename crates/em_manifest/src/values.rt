ghost use Rattle.std.specs.Prelude.{◌≡◌, IfOk, encode_utf8_all, string_bytes, is_some, option_map, option_copied, option_and_then};
ghost use Rattle.std.specs.List.{list_all};
ghost use Rattle.toml.specs.Data.{get_member, as_str};
ghost use Rattle.toml.specs.View.{view, table_view};
ghost use Rattle.em_manifest.specs.Values as spec;

use em_base::{Edition, Name, NoMemory, is_name};
use std::alloc::Global;
use toml::{Table, Value};

/// The value at a key of a table.
pub fn value_at<'a>(table: &'a Table, key: &str) -> Option<&'a Value>
    ensures { option_map (λ v. view v.now) result ≡ get_member key.now (table_view table.now) }
{
    table.get(key)
}

/// The value at a key of the table `package`.
pub fn package_value<'a>(document: &'a Table, key: &str) -> Option<&'a Value>
    ensures { option_map (λ v. view v.now) result ≡ spec.package_value key.now (table_view document.now) }
{
    match value_at(document, "package") {
        Some(package) => package.get(key),
        None => None,
    }
}

/// The text of a value that is a string.
pub fn text_of(value: Option<&Value>) -> Option<&str>
    ensures { option_copied result ≡ option_and_then as_str (option_map (λ v. view v.now) value.entry) }
{
    match value {
        Some(value) => value.as_str(),
        None => None,
    }
}

/// Whether the byte is an ASCII letter, a digit, a dash or an underscore.
fn is_package_byte(byte: u8) -> bool
    ensures { result ≡ spec.is_package_byte byte }
{
    matches!(byte, b'a'..=b'z' | b'A'..=b'Z' | b'0'..=b'9' | b'-' | b'_')
}

/// Whether each byte may stand in a package's name.
fn is_package_text(text: &[u8]) -> bool
    ensures { result ≡ list_all spec.is_package_byte text.now }
{
    text.iter().all(|byte| is_package_byte(*byte))
}

/// An underscore for a dash.
fn underscore(character: char) -> char
    ensures { result ≡ spec.underscore character }
{
    if character == '-' { '_' } else { character }
}

/// The text with underscores for dashes.
fn underscored(alloc: Global, text: &str) -> Result<String, NoMemory>
    ensures { IfOk result (λ s. string_bytes s ≡ encode_utf8_all (spec.underscored text.now)) }
{
    let text = text
        .chars()
        .map(|character| underscore(character))
        .collect(alloc)?;
    Ok(text)
}

/// The crate's name that a key gives.
pub fn crate_name(alloc: Global, key: &str) -> Result<Option<Name>, NoMemory>
    ensures { IfOk result (λ name. name ≡ spec.crate_name key.now) }
{
    let text = underscored(alloc, key)?;
    is_name(alloc, text.as_str())
}

/// The crate's name that a package's name gives.
fn package_name(alloc: Global, text: &str) -> Result<Option<Name>, NoMemory>
    ensures { IfOk result (λ name. name ≡ spec.package_name text.now) }
{
    if is_package_text(text.as_bytes()) {
        crate_name(alloc, text)
    } else {
        Ok(None)
    }
}

/// The package's name.
pub fn name_in(alloc: Global, document: &Table) -> Result<Option<Name>, NoMemory>
    ensures { IfOk result (λ name. name ≡ spec.name_in (table_view document.now)) }
{
    match text_of(package_value(document, "name")) {
        Some(text) => package_name(alloc, text),
        None => Ok(None),
    }
}

/// The edition that a year names.
fn edition_named(text: &str) -> Option<Edition>
    ensures { result ≡ spec.edition_named text.now }
{
    if text == "2015" {
        Some(Edition::E2015)
    } else if text == "2018" {
        Some(Edition::E2018)
    } else if text == "2021" {
        Some(Edition::E2021)
    } else {
        None
    }
}

/// The package's edition, which is the first where none is told.
pub fn edition_in(document: &Table) -> Option<Edition>
    ensures { result ≡ spec.edition_in (table_view document.now) }
{
    let Some(value) = package_value(document, "edition") else {
        return Some(Edition::E2015);
    };
    match value.as_str() {
        Some(text) => edition_named(text),
        None => None,
    }
}

/// Whether the document tells the edition.
pub fn tells_edition(document: &Table) -> bool
    ensures { result ≡ is_some (spec.package_value spec.edition_key (table_view document.now)) }
{
    package_value(document, "edition").is_some()
}

/// Whether a table has a value at a key.
fn has(table: &Table, key: &str) -> bool
    ensures { result ≡ is_some (get_member key.now (table_view table.now)) }
{
    value_at(table, key).is_some()
}

/// Whether the table `package` has a value at a key.
fn package_has(document: &Table, key: &str) -> bool
    ensures { result ≡ is_some (spec.package_value key.now (table_view document.now)) }
{
    package_value(document, key).is_some()
}

/// Whether a key of the top stands for what isn't accepted.
fn has_top_section(document: &Table) -> bool
    ensures { result ≡ spec.has_top_section (table_view document.now) }
{
    has(document, "lib")
        || has(document, "bin")
        || has(document, "target")
        || has(document, "workspace")
        || has(document, "build-dependencies")
}

/// Whether a section stands for what isn't accepted.
pub fn has_section(document: &Table) -> bool
    ensures { result ≡ spec.has_section (table_view document.now) }
{
    has_top_section(document) || package_has(document, "build") || package_has(document, "links")
}
