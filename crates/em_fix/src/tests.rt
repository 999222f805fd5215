use crate::fix::fix;
use crate::status::code;
use em_base::{Bytes, List, NoMemory, Text};
use em_disk::{Files, MemoryFiles, MemorySink};
use std::alloc::Global;
use std::process::Abort;
use std::test::Fail;

const MANIFEST: &str = "[package]\nname = \"a\"\nedition = \"2015\"\n";

const NEW_MANIFEST: &str = "[package]\nname = \"a\"\nedition = \"2018\"\n";

const KEYWORD: &str = "fn main() { let async = 1; println!(\"{}\", async); }";

const NEW_KEYWORD: &str = "fn main() { let r#async = 1; println!(\"{}\", r#async); }";

const REPORT: &str =
    "fixed src/main.rs:16: keyword\nfixed src/main.rs:42: keyword\nmigrated 2015 -> 2018\n";

fn words_of(alloc: Global, words: &[&str]) -> Result<List<Text>, NoMemory> {
    let mut list = List::new(alloc);
    for word in words {
        list.push(Text::from_str(alloc, word)?)?;
    }
    Ok(list)
}

fn numbers(alloc: Global, list: &[u64]) -> Result<List<u64>, NoMemory> {
    let numbers = Vec::from_slice(alloc, list)?;
    Ok(List::from_vec(numbers))
}

fn file(alloc: Global, name: &str, text: &str) -> Result<(Text, Bytes), NoMemory> {
    let name = Text::from_str(alloc, name)?;
    let bytes = Bytes::from_slice(alloc, text.as_bytes())?;
    Ok((name, bytes))
}

/// A package of these texts, whose calls of these numbers fail.
fn package(
    alloc: Global,
    manifest: &str,
    source: &str,
    fails: &[u64],
) -> Result<MemoryFiles, NoMemory> {
    let mut start = List::new(alloc);
    start.push(file(alloc, "Cargo.toml", manifest)?)?;
    start.push(file(alloc, "src/main.rs", source)?)?;
    let fails = numbers(alloc, fails)?;
    MemoryFiles::new(alloc, &start, &fails)
}

/// A package, the calls on its files and its sink that fail, and what `fix --edition .` has to answer, write and leave.
#[derive(Clone, Copy)]
struct Row {
    manifest: &'static str,
    source: &'static str,
    files_fail: &'static [u64],
    sink_fails: &'static [u64],
    code: u8,
    written: &'static str,
    new_manifest: &'static str,
    new_source: &'static str,
}

fn check(rt: &(impl Abort + AllocGlobal), row: &Row) -> Result<(), Fail> {
    let alloc = rt.alloc();
    let mut files = package(alloc, row.manifest, row.source, row.files_fail)?;
    let fails = numbers(alloc, row.sink_fails)?;
    let mut out = MemorySink::new(alloc, &fails)?;
    let words = words_of(alloc, &["fix", "--edition", "."])?;
    let status = fix(alloc, &words, &mut files, &mut out);
    assert_eq!(rt; code(&status), row.code);
    assert_eq!(rt; out.bytes(), row.written.as_bytes());
    let manifest = files.read(alloc, "Cargo.toml", 1000)?;
    assert_eq!(rt; manifest.as_slice(), row.new_manifest.as_bytes());
    let source = files.read(alloc, "src/main.rs", 1000)?;
    assert_eq!(rt; source.as_slice(), row.new_source.as_bytes());
    Ok(())
}

/// A package that is migrated.
const fn done(source: &'static str, written: &'static str, new_source: &'static str) -> Row {
    Row {
        manifest: MANIFEST,
        source,
        files_fail: &[],
        sink_fails: &[],
        code: 0,
        written,
        new_manifest: NEW_MANIFEST,
        new_source,
    }
}

/// A package that stays as it is.
const fn kept(
    manifest: &'static str,
    source: &'static str,
    code: u8,
    written: &'static str,
) -> Row {
    Row {
        manifest,
        source,
        files_fail: &[],
        sink_fails: &[],
        code,
        written,
        new_manifest: manifest,
        new_source: source,
    }
}

#[test]
fn migrates(rt: HostRuntime) -> Result<(), Fail> {
    let rows = [
        done(KEYWORD, REPORT, NEW_KEYWORD),
        done("fn main() {}", "migrated 2015 -> 2018\n", "fn main() {}"),
        done(
            "fn main() { let try = 1; let try = 2; println!(\"{}\", try); }",
            "fixed src/main.rs:16: keyword\nfixed src/main.rs:29: keyword\nfixed src/main.rs:53: keyword\nmigrated 2015 -> 2018\n",
            "fn main() { let r#try = 1; let r#try = 2; println!(\"{}\", r#try); }",
        ),
        done(
            "fn main() { let r#await = 2; println!(\"{}\", await); }",
            "fixed src/main.rs:44: keyword\nmigrated 2015 -> 2018\n",
            "fn main() { let r#await = 2; println!(\"{}\", r#await); }",
        ),
        done(
            "fn main() { let asyncs = 1; let dyn = 2; println!(\"{}\", asyncs); }",
            "fixed src/main.rs:32: keyword\nmigrated 2015 -> 2018\n",
            "fn main() { let asyncs = 1; let r#dyn = 2; println!(\"{}\", asyncs); }",
        ),
        done(
            "fn main() { let e\u{301} = 1; println!(\"{}\", \u{e9}); }",
            "migrated 2015 -> 2018\n",
            "fn main() { let e\u{301} = 1; println!(\"{}\", \u{e9}); }",
        ),
        done(
            "/* async */ fn main() { let async = 0x2A_u8; // async\n }",
            "fixed src/main.rs:28: keyword\nmigrated 2015 -> 2018\n",
            "/* async */ fn main() { let r#async = 0x2A_u8; // async\n }",
        ),
        done(
            "\u{feff}fn main() { let dyn = 1; }",
            "fixed src/main.rs:19: keyword\nmigrated 2015 -> 2018\n",
            "\u{feff}fn main() { let r#dyn = 1; }",
        ),
    ];
    for row in &rows {
        check(&rt, row)?;
    }
    Ok(())
}

#[test]
fn refuses(rt: HostRuntime) -> Result<(), Fail> {
    let unbuilt = "error[15]: unbuilt\n";
    let rows = [
        kept(MANIFEST, "fn main() { println!(\"{}\", y); }", 15, unbuilt),
        kept(MANIFEST, "fn main() { let a = 2147483648; }", 15, unbuilt),
        kept(MANIFEST, "fn main() {} fn main() {}", 15, unbuilt),
        kept(MANIFEST, "fn a() {}", 15, unbuilt),
        kept(
            MANIFEST,
            "fn main() { println!(\"ab",
            8,
            "error[8]: src/main.rs:21: lex Unclosed\n",
        ),
        kept(
            MANIFEST,
            "fn \u{e9}() { \\ } \"",
            8,
            "error[8]: src/main.rs:10: lex BadCharacter\n",
        ),
        kept(
            MANIFEST,
            "fn main() { let a = 1.0; }",
            8,
            "error[8]: src/main.rs:20: lex Float\n",
        ),
        kept(NEW_MANIFEST, KEYWORD, 15, unbuilt),
        kept(NEW_MANIFEST, "'", 15, unbuilt),
        kept(NEW_MANIFEST, "fn main() { let } ", 15, unbuilt),
        kept(
            "[package]\nname = \"\"\nedition = \"2015\"\n",
            KEYWORD,
            15,
            unbuilt,
        ),
        kept(
            "[package]\r\nname = \"a\"\r\nedition = \"2015\"\r\n",
            KEYWORD,
            15,
            unbuilt,
        ),
    ];
    for row in &rows {
        check(&rt, row)?;
    }
    Ok(())
}

#[test]
fn tells_where_no_item_stands(rt: HostRuntime) -> Result<(), Fail> {
    let at_start = "error[8]: src/main.rs:0: parse\n";
    let rows = [
        kept(
            MANIFEST,
            "fn a() {} fn main() {",
            8,
            "error[8]: src/main.rs:10: parse\n",
        ),
        kept(MANIFEST, "fn main() { let } ", 8, at_start),
        kept(MANIFEST, "fn main() { let as = 1; }", 8, at_start),
        kept(
            MANIFEST,
            " fn main() { println!(\"{}\", y); } }",
            8,
            "error[8]: src/main.rs:34: parse\n",
        ),
        kept(
            MANIFEST,
            "mod a { fn b() {} let }",
            8,
            "error[8]: src/main.rs:0: parse\n",
        ),
        kept(
            MANIFEST,
            "fn main() { let } \\",
            8,
            "error[8]: src/main.rs:18: lex BadCharacter\n",
        ),
    ];
    for row in &rows {
        check(&rt, row)?;
    }
    Ok(())
}

#[test]
fn names_each_fault(rt: HostRuntime) -> Result<(), Fail> {
    let rows = [
        Row {
            files_fail: &[0],
            ..kept(MANIFEST, KEYWORD, 3, "error[3]: cannot read Cargo.toml\n")
        },
        Row {
            files_fail: &[1],
            ..kept(MANIFEST, KEYWORD, 3, "error[3]: cannot read src/main.rs\n")
        },
        Row {
            files_fail: &[2],
            ..kept(MANIFEST, KEYWORD, 4, "error[4]: cannot write src/main.rs\n")
        },
        Row {
            files_fail: &[2],
            ..kept(
                MANIFEST,
                "fn main() {}",
                4,
                "error[4]: cannot write Cargo.toml\n",
            )
        },
        Row {
            files_fail: &[3],
            new_source: NEW_KEYWORD,
            ..kept(MANIFEST, KEYWORD, 4, "error[4]: cannot write Cargo.toml\n")
        },
        Row {
            sink_fails: &[0],
            code: 5,
            written: "",
            ..done(KEYWORD, REPORT, NEW_KEYWORD)
        },
        Row {
            sink_fails: &[0],
            ..kept(NEW_MANIFEST, KEYWORD, 15, "")
        },
        Row {
            files_fail: &[1],
            sink_fails: &[1],
            ..kept(MANIFEST, KEYWORD, 3, "error[3]: cannot read ")
        },
        Row {
            sink_fails: &[3],
            ..kept(MANIFEST, "'", 8, "error[8]: src/main.rs:0: lex ")
        },
    ];
    for row in &rows {
        check(&rt, row)?;
    }
    Ok(())
}

#[test]
fn takes_three_words(rt: HostRuntime) -> Result<(), Fail> {
    let alloc = rt.alloc();
    let none = numbers(alloc, &[])?;
    let mut files = package(alloc, MANIFEST, KEYWORD, &[])?;
    let mut out = MemorySink::new(alloc, &none)?;
    let words = words_of(alloc, &["fix", "."])?;
    assert_eq!(rt; code(&fix(alloc, &words, &mut files, &mut out)), 2);
    assert_eq!(rt; out.bytes(), b"error[2]: usage\n".as_slice());
    Ok(())
}

#[test]
fn wants_both_files(rt: HostRuntime) -> Result<(), Fail> {
    let alloc = rt.alloc();
    let none = numbers(alloc, &[])?;
    let words = words_of(alloc, &["fix", "--edition", "."])?;
    let mut start = List::new(alloc);
    for _ in 0..2 {
        let mut files = MemoryFiles::new(alloc, &start, &none)?;
        let mut out = MemorySink::new(alloc, &none)?;
        assert_eq!(rt; code(&fix(alloc, &words, &mut files, &mut out)), 15);
        assert_eq!(rt; out.bytes(), b"error[15]: unbuilt\n".as_slice());
        start.push(file(alloc, "Cargo.toml", MANIFEST)?)?;
    }
    Ok(())
}

/// Checks what a source is refused with.
fn check_refusal(
    rt: &(impl Abort + AllocGlobal),
    source: Bytes,
    code_now: u8,
    line: &str,
) -> Result<(), Fail> {
    let alloc = rt.alloc();
    let none = numbers(alloc, &[])?;
    let mut start = List::new(alloc);
    start.push(file(alloc, "Cargo.toml", MANIFEST)?)?;
    start.push((Text::from_str(alloc, "src/main.rs")?, source))?;
    let mut files = MemoryFiles::new(alloc, &start, &none)?;
    let mut out = MemorySink::new(alloc, &none)?;
    let words = words_of(alloc, &["fix", "--edition", "."])?;
    assert_eq!(rt; code(&fix(alloc, &words, &mut files, &mut out)), code_now);
    assert_eq!(rt; out.bytes(), line.as_bytes());
    Ok(())
}

#[test]
fn bounds_a_source(rt: HostRuntime) -> Result<(), Fail> {
    let alloc = rt.alloc();
    let mut spaces = Vec::new(alloc);
    spaces.resize(4_194_304, b' ')?;
    for (code_now, line) in [
        (15, "error[15]: unbuilt\n"),
        (10, "error[10]: FileBytes 4194304\n"),
    ] {
        let source = Bytes::from_slice(alloc, spaces.as_slice())?;
        check_refusal(&rt, source, code_now, line)?;
        spaces.push(b' ')?;
    }
    Ok(())
}

/// `inner` between so many copies of `open` and as many of `close`, and all of it between two texts.
fn nested(
    alloc: Global,
    ends: (&str, &str),
    pair: (&str, &str),
    inner: &str,
    count: usize,
) -> Result<Bytes, NoMemory> {
    let mut text = Bytes::from_slice(alloc, ends.0.as_bytes())?;
    for _ in 0..count {
        text.extend(pair.0.as_bytes())?;
    }
    text.extend(inner.as_bytes())?;
    for _ in 0..count {
        text.extend(pair.1.as_bytes())?;
    }
    text.extend(ends.1.as_bytes())?;
    Ok(text)
}

#[test]
fn bounds_nesting(rt: HostRuntime) -> Result<(), Fail> {
    let alloc = rt.alloc();
    let unbuilt = "error[15]: unbuilt\n";
    let deep = "error[10]: Nesting 200\n";
    let module = ("mod a { ", "} ");
    let modules = nested(alloc, ("", ""), module, "", 200)?;
    check_refusal(&rt, modules, 15, unbuilt)?;
    let modules = nested(alloc, ("", ""), module, "", 201)?;
    check_refusal(&rt, modules, 10, deep)?;
    let main = ("fn main() { ", "; }");
    let parentheses = nested(alloc, main, ("(", ")"), "1", 198)?;
    check_refusal(&rt, parentheses, 15, unbuilt)?;
    let parentheses = nested(alloc, main, ("(", ")"), "1", 199)?;
    check_refusal(&rt, parentheses, 10, deep)?;
    Ok(())
}
