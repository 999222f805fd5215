//! Manifests: what they say of a package, and the change of the line that tells its edition.
#![tactic(auto)]

mod change;
mod dependencies;
mod forms;
mod laws;
mod lines;
mod manifest;
mod read;
mod set;
#[cfg(test)]
mod tests;
mod values;

pub use laws::lines_are_all;
pub use manifest::{Dependency, Manifest, ManifestError, ManifestKind};
pub use read::read_manifest;
pub use set::set_edition;
