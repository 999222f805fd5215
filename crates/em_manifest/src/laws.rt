ghost use Rattle.em_manifest.specs.Laws.{LinesAreAll, LinesAreCut};

/// The lines of a manifest are its bytes, cut behind each line feed: no line's text has one, and each line but the last
/// ends with LF or CR LF.
pub fn lines_are_all()
    ensures all { LinesAreAll }
    ensures cut { LinesAreCut }
{}
