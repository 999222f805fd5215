ghost use Rattle.std.specs.Prelude.{◌≡◌, ◌++◌, List, ℕ, MatchOption, IfOk};
ghost use Rattle.std.specs.List.{list_all};
ghost use Rattle.em_fix.specs.Manifest.{is_name_byte, is_package_name, IsManifest, IsNoManifest, MovesManifest};

use em_base::{Bytes, NoMemory};
use std::alloc::Global;

/// The text behind a prefix.
fn after_prefix<'a>(text: &'a [u8], prefix: &[u8]) -> Option<&'a [u8]>
    ensures { MatchOption result ((rest : List ℕ) → text.now ≡ prefix.now ++ rest → ⊥)
        (λ rest. text.now ≡ prefix.now ++ rest.now) }
{
    text.strip_prefix(prefix)
}

/// The text before a suffix.
fn before_suffix<'a>(text: &'a [u8], suffix: &[u8]) -> Option<&'a [u8]>
    ensures { MatchOption result ((front : List ℕ) → text.now ≡ front ++ suffix.now → ⊥)
        (λ front. text.now ≡ front.now ++ suffix.now) }
{
    text.strip_suffix(suffix)
}

fn is_name_byte(byte: u8) -> bool
    ensures { result ≡ is_name_byte byte }
{
    matches!(byte, b'a'..=b'z' | b'A'..=b'Z' | b'0'..=b'9' | b'_')
}

fn are_name_bytes(text: &[u8]) -> bool
    ensures { result ≡ list_all is_name_byte text.now }
{
    text.iter().all(|b| is_name_byte(*b))
}

fn is_package_name(text: &[u8]) -> bool
    ensures { result ≡ is_package_name text.now }
{
    !text.is_empty() && are_name_bytes(text)
}

/// The name of the package whose manifest of the edition 2015 this is.
#[tactic(auto, using(crate::proofs::Manifests::no_head, crate::proofs::Manifests::no_tail, crate::proofs::Manifests::no_name))]
fn package_name(bytes: &[u8]) -> Option<&[u8]>
    ensures { MatchOption result (IsNoManifest bytes.now) (λ name. IsManifest bytes.now name.now) }
{
    let Some(rest) = after_prefix(bytes, b"[package]\nname = \"") else {
        return None;
    };
    let Some(name) = before_suffix(rest, b"\"\nedition = \"2015\"\n") else {
        return None;
    };
    if is_package_name(name) {
        Some(name)
    } else {
        None
    }
}

/// The manifest with the next year in its edition line, where it is one of the edition 2015.
pub fn next_manifest(alloc: Global, bytes: &[u8]) -> Result<Option<Bytes>, NoMemory>
    ensures { IfOk result (λ answer. MatchOption answer (IsNoManifest bytes.now)
        (λ new. MovesManifest bytes.now new)) }
{
    let Some(name) = package_name(bytes) else {
        return Ok(None);
    };
    let mut new = Bytes::from_slice(alloc, b"[package]\nname = \"")?;
    new.extend(name)?;
    new.extend(b"\"\nedition = \"2018\"\n")?;
    Ok(Some(new))
}
