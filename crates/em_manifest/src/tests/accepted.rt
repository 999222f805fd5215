// Each row: a manifest, the year that is set, and the manifest with that year. `tools/manifests-by-cargo` reads
// this table too.
pub const ACCEPTED: [(&str, &str, &str); 17] = [
    (
        "[package]\nname = \"a\"\nedition = \"2015\"\n",
        "2018",
        "[package]\nname = \"a\"\nedition = \"2018\"\n",
    ),
    (
        "[package]\nname = \"a\"\n",
        "2018",
        "[package]\nedition = \"2018\"\nname = \"a\"\n",
    ),
    (
        "[package]\r\nname = \"a\"\r\n",
        "2018",
        "[package]\r\nedition = \"2018\"\r\nname = \"a\"\r\n",
    ),
    (
        "[package]\r\nname = \"a\"\r\nedition = \"2018\"\r\n",
        "2021",
        "[package]\r\nname = \"a\"\r\nedition = \"2021\"\r\n",
    ),
    (
        "[package]\nname = \"a\"\r\nversion = \"1.0.0\"\n",
        "2018",
        "[package]\nedition = \"2018\"\nname = \"a\"\r\nversion = \"1.0.0\"\n",
    ),
    (
        " \t[package]\t # the 2015 package\nname = \"a\" # a name\nedition   =  '2015'  # once \"2015\"\n",
        "2018",
        " \t[package]\t # the 2015 package\nname = \"a\" # a name\nedition   =  '2018'  # once \"2015\"\n",
    ),
    (
        "[package]#\nname=\"a\"\nedition=\"2015\"#2015\n",
        "2021",
        "[package]#\nname=\"a\"\nedition=\"2021\"#2015\n",
    ),
    (
        "[package]\nname = \"a\"\nedition = '2018'",
        "2021",
        "[package]\nname = \"a\"\nedition = '2021'",
    ),
    (
        "# edition = \"2015\"\n\n[package.metadata]\nedition = \"2015\"\n[package]\nname = \"a\"\nedition = \"2015\"\n[package.metadata.x]\nedition = \"2015\"\n",
        "2018",
        "# edition = \"2015\"\n\n[package.metadata]\nedition = \"2015\"\n[package]\nname = \"a\"\nedition = \"2018\"\n[package.metadata.x]\nedition = \"2015\"\n",
    ),
    (
        "[package.metadata]\nedition = \"2015\"\n[package]\nname = \"a\"\n[package.metadata.x]\nedition = \"2015\"\n",
        "2018",
        "[package.metadata]\nedition = \"2015\"\n[package]\nedition = \"2018\"\nname = \"a\"\n[package.metadata.x]\nedition = \"2015\"\n",
    ),
    (
        "[package]\nname = \"a\"\nmetadata.edition = \"2015\"\n",
        "2018",
        "[package]\nedition = \"2018\"\nname = \"a\"\nmetadata.edition = \"2015\"\n",
    ),
    (
        "[package]\nname = \"a\"\nedition = \"2015\"\ndescription = \"\"\"\nthe edition\n\"\"\"\n",
        "2018",
        "[package]\nname = \"a\"\nedition = \"2018\"\ndescription = \"\"\"\nthe edition\n\"\"\"\n",
    ),
    (
        "dependencies = { dep = { path = \"dep\", version = \"1\" } }\n[package]\nname = \"a\"\nedition = \"2015\"\n",
        "2018",
        "dependencies = { dep = { path = \"dep\", version = \"1\" } }\n[package]\nname = \"a\"\nedition = \"2018\"\n",
    ),
    (
        "[dependencies.dep]\npath = \"../dep\"\n\n[package]\nname = \"a\"\nedition = \"2015\"\n",
        "2018",
        "[dependencies.dep]\npath = \"../dep\"\n\n[package]\nname = \"a\"\nedition = \"2018\"\n",
    ),
    (
        "[package]\nname = \"a\"\nedition = \"2015\"\n\n[dependencies]\nb.path = 'b'\na-b = { path = \"x/a-b\" }\n",
        "2021",
        "[package]\nname = \"a\"\nedition = \"2021\"\n\n[dependencies]\nb.path = 'b'\na-b = { path = \"x/a-b\" }\n",
    ),
    (
        "[package]\nname = \"a\"\nkeywords = [\n  \"x\",\n]\nedition = \"2015\"\n[dev-dependencies]\n[features]\nx = []\n",
        "2018",
        "[package]\nname = \"a\"\nkeywords = [\n  \"x\",\n]\nedition = \"2018\"\n[dev-dependencies]\n[features]\nx = []\n",
    ),
    (
        "[package]\nname = \"a\"\nedition = \"2021\"\n",
        "2015",
        "[package]\nname = \"a\"\nedition = \"2015\"\n",
    ),
];
