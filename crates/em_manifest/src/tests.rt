mod accepted;
mod refused;

use crate::manifest::{Manifest, ManifestError, ManifestKind};
use crate::read::read_manifest;
use crate::set::set_edition;
use accepted::ACCEPTED;
use em_base::Edition;
use refused::{NO_LINE, REFUSED};
use std::test::Fail;

fn edition_of(year: &str) -> Edition {
    if year == "2015" {
        Edition::E2015
    } else if year == "2018" {
        Edition::E2018
    } else {
        Edition::E2021
    }
}

fn is_fault<T: Drop>(answer: &Result<T, ManifestError>, kind: ManifestKind) -> bool {
    match answer {
        Err(ManifestError::Bad(found)) => *found == kind,
        _ => false,
    }
}

#[test]
fn reads(rt: HostRuntime) -> Result<(), Fail> {
    let alloc = rt.alloc();
    let text =
        "[dependencies]\nb = { path = \"x/b\" }\na-c = { path = \"../a\", version = \"1\" }\na = { path = \"a\" }\n[package]\nname = \"my-crate_2\"\nedition = '2018'\n";
    let manifest = read_manifest(alloc, text.as_bytes())?;
    assert_eq!(rt; manifest.name.as_str(), "my_crate_2");
    assert!(rt; manifest.edition == Edition::E2018);
    let mut shown = String::new(alloc);
    for dependency in manifest.dependencies.as_slice() {
        shown.push_str(dependency.name.as_str())?;
        shown.push_str("=")?;
        shown.push_str(dependency.path.as_str())?;
        shown.push_str(" ")?;
    }
    assert_eq!(rt; shown.as_str(), "a=a a_c=../a b=x/b ");
    let manifest = read_manifest(alloc, b"package.name = \"_a\"")?;
    assert_eq!(rt; manifest.name.as_str(), "_a");
    assert!(rt; manifest.edition == Edition::E2015);
    assert_eq!(rt; manifest.dependencies.len(), 0);
    let text = "[package]\nname = \"a\"\n[dependencies]\n\"e\u{301}-b\" = { path = \"e\" }\n";
    let manifest = read_manifest(alloc, text.as_bytes())?;
    let name = manifest.dependencies.get(0).map(|d| d.name.as_str());
    assert!(rt; name == Some("\u{e9}_b"));
    Ok(())
}

#[test]
fn sets(rt: HostRuntime) -> Result<(), Fail> {
    let alloc = rt.alloc();
    for (old, year, new) in ACCEPTED {
        let edition = edition_of(year);
        let set = set_edition(alloc, old.as_bytes(), edition)?;
        assert_eq!(rt; set.as_slice(), new.as_bytes(), "of {old}");
        let manifest = read_manifest(alloc, set.as_slice())?;
        assert!(rt; manifest.edition == edition, "of {old}");
    }
    Ok(())
}

#[test]
fn refuses(rt: HostRuntime) -> Result<(), Fail> {
    let alloc = rt.alloc();
    for (text, kind) in REFUSED {
        assert!(rt;
            is_fault(&read_manifest(alloc, text.as_bytes()), kind),
            "of {text}"
        );
        let set = set_edition(alloc, text.as_bytes(), Edition::E2021);
        assert!(rt; is_fault(&set, kind), "of {text}");
    }
    let no_text = b"# \xff\n[package]\nname = \"a\"\n".as_slice();
    assert!(rt; is_fault(&read_manifest(alloc, no_text), ManifestKind::NotToml));
    assert!(rt;
        is_fault(
            &set_edition(alloc, no_text, Edition::E2018),
            ManifestKind::NotToml
        )
    );
    for text in NO_LINE {
        let set = set_edition(alloc, text.as_bytes(), Edition::E2021);
        assert!(rt; is_fault(&set, ManifestKind::EditionLine), "of {text}");
    }
    Ok(())
}
