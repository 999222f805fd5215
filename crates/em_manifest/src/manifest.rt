use em_base::{Edition, List, Name, Text};
use thiserror::Error;

/// Why a manifest is refused, in the order in which the causes are looked for.
#[derive(Clone, Copy, Debug, Error, PartialEq, Eq)]
pub enum ManifestKind {
    /// There is no manifest.
    #[error("there is no manifest")]
    NoFile,
    /// It is no TOML document.
    #[error("the manifest is no TOML document")]
    NotToml,
    /// `package.name` is no name.
    #[error("`package.name` is no name")]
    NoName,
    /// `package.edition` is no known year.
    #[error("`package.edition` is no known year")]
    BadEdition,
    /// The line that tells the edition can't be set.
    #[error("the line of the edition can't be set")]
    EditionLine,
    /// A dependency has another form than a path, or two give one name.
    #[error("a dependency is no path with a name of its own")]
    BadDependency,
    /// It has a section or key that isn't followed: a workspace, a build script, a target with a path of its own.
    #[error("a section or key isn't followed")]
    Section,
    /// There is no target.
    #[error("there is no target")]
    NoTarget,
    /// There are both a library and a program.
    #[error("there are both a library and a program")]
    TwoTargets,
    /// A dependency reaches itself.
    #[error("a dependency reaches itself")]
    Cycle,
}

/// Why there is no answer for a manifest.
#[derive(Clone, Copy, Debug, Error, PartialEq, Eq)]
pub enum ManifestError {
    #[error("out of memory")]
    NoMemory,
    #[error("{0}")]
    Bad(ManifestKind),
}

impl From<em_base::NoMemory> for ManifestError {
    ghost use Rattle.std.specs.Prelude.{◌≡◌};
    ghost use Rattle.em_manifest.specs.declared.manifest.ManifestError.TheVariants as Refusal;

    ghost from_gives = { λ _ e. e ≡ Refusal.NoMemory };

    fn from(_error: em_base::NoMemory) -> ManifestError {
        ManifestError::NoMemory
    }
}

/// A dependency: the name that its key gives, and its folder as it is written.
#[derive(Debug, Drop)]
pub struct Dependency {
    pub name: Name,
    pub path: Text,
}

/// What a manifest says of its package. The dependencies stand in byte order of their keys.
#[derive(Debug, Drop)]
pub struct Manifest {
    pub name: Name,
    pub edition: Edition,
    pub dependencies: List<Dependency>,
}
