ghost use Rattle.std.specs.Prelude.{◌≡◌, ◌≤◌};
ghost use Rattle.std.specs.List.{flat_map};
ghost use Rattle.em_fix.specs.Lines.{write_line, lex_kind_name, limit_name, limit_number, fault_line, limit_line, Wrote, TellsRefusal};

use crate::status::{Phase, Status};
use em_base::{Limit, Place, Text};
use em_disk::{Failed, Sink};
use em_lex::LexKind;
use itoa::Buffer;

/// Writes pieces in order, up to the first write that fails. Takes no memory.
fn write_pieces<S: Sink>(out: &mut S, pieces: &[&[u8]])
    ensures later { S.faults out.old ≤ S.faults out.new }
    ensures bytes { Wrote (S.written out.old) (flat_map (λ p. p.now) pieces.now) (S.written out.new)
        (S.faults out.old) (S.faults out.new) }
{
    for piece in pieces {
        match out.write(piece) {
            Ok(()) => {}
            Err(Failed) => return,
        }
    }
}

/// Writes the line of a file that can't be written.
pub fn tell_write_fault<S: Sink>(out: &mut S, name: &Text)
    ensures later { S.faults out.old ≤ S.faults out.new }
    ensures bytes { Wrote (S.written out.old) (write_line name.now) (S.written out.new)
        (S.faults out.old) (S.faults out.new) }
{
    write_pieces(out, &[b"error[4]: cannot write ", name.as_bytes(), b"\n"])
}

/// The printed name of what is wrong with a text's tokens.
fn lex_kind_name(kind: LexKind) -> &'static str
    ensures { result.now ≡ lex_kind_name kind }
{
    match kind {
        LexKind::NotUtf8 => "NotUtf8",
        LexKind::BadCharacter => "BadCharacter",
        LexKind::Unclosed => "Unclosed",
        LexKind::ReservedPrefix => "ReservedPrefix",
        LexKind::Float => "Float",
        LexKind::BadNumber => "BadNumber",
        LexKind::LiteralSuffix => "LiteralSuffix",
        LexKind::BadEscape => "BadEscape",
        LexKind::BadLifetime => "BadLifetime",
        LexKind::BadRaw => "BadRaw",
    }
}

/// The printed name of a limit.
fn limit_name(limit: Limit) -> &'static str
    ensures { result.now ≡ limit_name limit }
{
    match limit {
        Limit::FileBytes => "FileBytes",
        Limit::AllBytes => "AllBytes",
        Limit::Files => "Files",
        Limit::Crates => "Crates",
        Limit::Nesting => "Nesting",
        Limit::MacroDepth => "MacroDepth",
        Limit::Tokens => "Tokens",
        Limit::Findings => "Findings",
    }
}

/// What a count may be.
fn limit_number(limit: Limit) -> u32
    ensures { result ≡ limit_number limit }
{
    match limit {
        Limit::FileBytes => 4_194_304,
        Limit::AllBytes => 33_554_432,
        Limit::Files => 4_096,
        Limit::Crates => 256,
        Limit::Nesting => 200,
        Limit::MacroDepth => 128,
        Limit::Tokens => 2_000_000,
        Limit::Findings => 65_535,
    }
}

/// Writes the line of the first place where a package isn't accepted.
fn tell_fault<S: Sink>(out: &mut S, place: &Place, phase: &Phase)
    ensures later { S.faults out.old ≤ S.faults out.new }
    ensures bytes { Wrote (S.written out.old) (fault_line place.now phase.now) (S.written out.new)
        (S.faults out.old) (S.faults out.new) }
{
    let mut digits = Buffer::new();
    let offset = digits.format(place.offset).as_bytes();
    match phase {
        Phase::Lex(kind) => {
            let kind = lex_kind_name(*kind).as_bytes();
            write_pieces(
                out,
                &[b"error[8]: src/main.rs:", offset, b": lex ", kind, b"\n"],
            )
        }
        Phase::Parse => write_pieces(out, &[b"error[8]: src/main.rs:", offset, b": parse\n"]),
    }
}

/// Writes the line of a limit that is passed.
fn tell_limit<S: Sink>(out: &mut S, limit: Limit)
    ensures later { S.faults out.old ≤ S.faults out.new }
    ensures bytes { Wrote (S.written out.old) (limit_line limit) (S.written out.new)
        (S.faults out.old) (S.faults out.new) }
{
    let mut digits = Buffer::new();
    let number = digits.format(limit_number(limit));
    let pieces = [
        b"error[10]: ",
        limit_name(limit).as_bytes(),
        b" ",
        number.as_bytes(),
        b"\n",
    ];
    write_pieces(out, &pieces)
}

/// Writes the line of a refusal.
pub fn tell<S: Sink>(out: &mut S, status: &Status)
    ensures later { S.faults out.old ≤ S.faults out.new }
    ensures bytes { TellsRefusal status.now (S.written out.old) (S.written out.new)
        (S.faults out.old) (S.faults out.new) }
{
    match status {
        Status::Usage => write_pieces(out, &[b"error[2]: usage\n"]),
        Status::ReadFault { name } => {
            write_pieces(out, &[b"error[3]: cannot read ", name.as_bytes(), b"\n"])
        }
        Status::NoMemory => write_pieces(out, &[b"error[6]: out of memory\n"]),
        Status::NotAccepted { place, phase } => tell_fault(out, place, phase),
        Status::Limit(limit) => tell_limit(out, *limit),
        Status::Unbuilt => write_pieces(out, &[b"error[15]: unbuilt\n"]),
        Status::Done => {}
        Status::WriteFault { .. } => {}
        Status::SinkFault => {}
    }
}
