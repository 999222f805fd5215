ghost use Rattle.std.specs.Prelude.{◌≡◌, IfOk, string_bytes};
ghost use Rattle.em_fix.specs.Report.{lint_name, fixed_line, report_of};

use em_base::{Bytes, Lint, NoMemory, Suggestion};
use std::alloc::Global;

/// The printed name of a lint.
fn lint_name(lint: Lint) -> &'static str
    ensures { result.now ≡ lint_name lint }
{
    match lint {
        Lint::Keyword => "keyword",
        Lint::Anonymous => "anonymous",
        Lint::CratePath => "crate_path",
        Lint::Prefix => "prefix",
        Lint::Pat => "pat",
        Lint::Range => "range",
        Lint::Dyn => "dyn",
        Lint::Panic => "panic",
        Lint::Array => "array",
        Lint::Prelude => "prelude",
        Lint::Capture => "capture",
    }
}

/// The line of a suggestion.
fn fixed_line(alloc: Global, suggestion: &Suggestion) -> Result<String, NoMemory>
    ensures { IfOk result (λ text. string_bytes text ≡ fixed_line suggestion.now) }
{
    let start = suggestion.anchor.start;
    let name = lint_name(suggestion.lint);
    let line = format!(in alloc; "fixed src/main.rs:{start}: {name}\n")?;
    Ok(line)
}

/// The report: a line for each suggestion, and then that of the step.
pub fn report_of(alloc: Global, found: &[Suggestion]) -> Result<Bytes, NoMemory>
    ensures { IfOk result (λ report. report ≡ report_of found.now) }
{
    let mut report = Bytes::new(alloc);
    for suggestion in found {
        let line = fixed_line(alloc, suggestion)?;
        report.extend(line.as_bytes())?;
    }
    report.extend(b"migrated 2015 -> 2018\n")?;
    Ok(report)
}
