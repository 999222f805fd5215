use crate::manifest::ManifestKind;

/// Manifests that both calls refuse, with the first fault.
pub const REFUSED: [(&str, ManifestKind); 41] = [
    ("[package\nname = \"a\"\n", ManifestKind::NotToml),
    ("[package]\nname = a\n", ManifestKind::NotToml),
    (
        "[package]\nname = \"a\"\nname = \"a\"\n",
        ManifestKind::NotToml,
    ),
    (
        "package.name = \"a\"\n[package]\nedition = \"2015\"\n",
        ManifestKind::NotToml,
    ),
    ("", ManifestKind::NoName),
    (
        "[package]\nversion = \"1.0.0\"\nedition = 3\n",
        ManifestKind::NoName,
    ),
    ("[dependencies]\nname = \"a\"\n", ManifestKind::NoName),
    ("package = \"a\"\n", ManifestKind::NoName),
    ("[package]\nname = 3\n", ManifestKind::NoName),
    ("[package]\nname = \"\"\n", ManifestKind::NoName),
    ("[package]\nname = \"9a\"\n", ManifestKind::NoName),
    ("[package]\nname = \"a b\"\n", ManifestKind::NoName),
    ("[package]\nname = \"a.b\"\n", ManifestKind::NoName),
    ("[package]\nname = \"-\"\n", ManifestKind::NoName),
    ("[package]\nname = \"\u{e9}\"\n", ManifestKind::NoName),
    (
        "[package]\nname = \"a\"\nedition = 2015\n",
        ManifestKind::BadEdition,
    ),
    (
        "[package]\nname = \"a\"\nedition = \"2016\"\n",
        ManifestKind::BadEdition,
    ),
    (
        "[package]\nname = \"a\"\nedition = \" 2015\"\n",
        ManifestKind::BadEdition,
    ),
    (
        "[package]\nname = \"a\"\nedition.workspace = true\n[workspace]\n",
        ManifestKind::BadEdition,
    ),
    (
        "[package]\nname = \"a\"\n[dependencies]\ndep = \"1.0\"\n",
        ManifestKind::BadDependency,
    ),
    (
        "[package]\nname = \"a\"\n[dependencies]\ndep = { version = \"1\" }\n",
        ManifestKind::BadDependency,
    ),
    (
        "[package]\nname = \"a\"\n[dependencies]\ndep = { path = 3 }\n",
        ManifestKind::BadDependency,
    ),
    (
        "[package]\nname = \"a\"\n[dependencies.dep]\npath = \"dep\"\nfeatures = []\n",
        ManifestKind::BadDependency,
    ),
    (
        "[package]\nname = \"a\"\n[dependencies]\nstd = { path = \"std\" }\n",
        ManifestKind::BadDependency,
    ),
    (
        "[package]\nname = \"a\"\n[dependencies]\n9a = { path = \"x\" }\n",
        ManifestKind::BadDependency,
    ),
    (
        "[package]\nname = \"a\"\n[dependencies]\n_ = { path = \"x\" }\n",
        ManifestKind::BadDependency,
    ),
    (
        "[package]\nname = \"a\"\n[dependencies]\na-b = { path = \"x\" }\nb = { path = \"b\" }\na_b = { path = \"x\" }\n",
        ManifestKind::BadDependency,
    ),
    (
        "[package]\nname = \"a\"\n[dependencies]\n\"e\u{301}\" = { path = \"x\" }\n\"\u{e9}\" = { path = \"x\" }\n",
        ManifestKind::BadDependency,
    ),
    (
        "dependencies = []\n[package]\nname = \"a\"\n",
        ManifestKind::BadDependency,
    ),
    (
        "[package]\nname = \"a\"\n[lib]\n[dependencies]\ndep = \"1\"\n",
        ManifestKind::BadDependency,
    ),
    (
        "[package]\nname = \"a\"\n[lib]\npath = \"x.rs\"\n",
        ManifestKind::Section,
    ),
    (
        "[package]\nname = \"a\"\n[[bin]]\nname = \"b\"\n",
        ManifestKind::Section,
    ),
    ("bin = 3\n[package]\nname = \"a\"\n", ManifestKind::Section),
    (
        "[package]\nname = \"a\"\n[target.x.dependencies]\n",
        ManifestKind::Section,
    ),
    (
        "[package]\nname = \"a\"\n[workspace]\n",
        ManifestKind::Section,
    ),
    (
        "[package]\nname = \"a\"\n[build-dependencies]\n",
        ManifestKind::Section,
    ),
    (
        "[package]\nname = \"a\"\nbuild = \"b.rs\"\n",
        ManifestKind::Section,
    ),
    (
        "[package]\nname = \"a\"\nbuild = false\n",
        ManifestKind::Section,
    ),
    (
        "[package]\nname = \"a\"\nlinks = \"x\"\n",
        ManifestKind::Section,
    ),
    (
        "[package]\nname = \"a\"\nedition = \"2015\"\nlinks = \"x\"\n",
        ManifestKind::Section,
    ),
    (
        "[package]\nname = \"a\"\n[dependencies]\na-b = { path = \"x\", optional = true }\n",
        ManifestKind::BadDependency,
    ),
];

/// Manifests that can be read, and whose edition line can't be set.
pub const NO_LINE: [&str; 22] = [
    // no header, or more than one
    "package = { name = \"a\", edition = \"2015\" }\n",
    "package.name = \"a\"\npackage.edition = \"2015\"\n",
    "[ package ]\nname = \"a\"\nedition = \"2015\"\n",
    "[\"package\"]\nname = \"a\"\n",
    "\u{feff}[package]\nname = \"a\"\n",
    "[package]\nname = \"a\"\ndescription = '''\n[package]\n'''\n",
    // the edition is told, and not on exactly one line
    "[package]\nname = \"a\"\n\"edition\" = \"2015\"\n",
    "[package]\nname = \"a\"\n edition = \"2015\"\n",
    "[package]\nname = \"a\"\nedition\t= \"2015\"\n",
    "[package]\nname = \"a\"\nedition = \"\"\"2015\"\"\"\n",
    "[package]\nname = \"a\"\nedition = \"\\u0032015\"\n",
    "[package]\nname = \"a\"\nedition = \"2015\"\nmetadata = {\nedition = \"2015\"\n}\n",
    "[package]\nname = \"a\"\nedition = \"2015\"\ndescription = \"\"\"\nedition = \"2015\"\n\"\"\"\n",
    "[package]\nname = \"a\"\nmetadata.x = [\n[1],\n]\nedition = \"2015\"\n",
    // a string of several lines may have begun before
    "[package]\nname = \"a\"\ndescription = \"\"\"x\"\"\"\nedition = \"2015\"\n",
    "[package]\nname = \"a\" # '''\nedition = \"2015\"\n",
    "[features]\nx = ['''y''']\n[package]\nname = \"a\"\n",
    "description = \"\"\"\n[package]\n\"\"\"\n[\"package\"]\nname = \"a\"\n",
    // the new bytes would read otherwise
    "[package]\nname = \"a\"\n\"edition\" = \"2015\"\nmetadata = {\nedition = \"2015\"\n}\n",
    "[package]\nname = \"a\"\n\"edition\" = \"2015\"\n [package.metadata]\nedition = \"2015\"\n",
    "[package]\nname = \"a\"\n\"edition\" = \"2018\"\n\t[profile.x]\nedition = '2018'\n",
    // before a fault of a later kind
    "[ package ]\nname = \"a\"\n[dependencies]\ndep = \"1\"\n",
];
