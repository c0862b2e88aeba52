ghost use Rattle.script_text.specs.Law.{LinesTellEntries, ReportsTellEntries};

/// Two entries with one line at one place are equal, where both were asked well (own profile). It does nothing else than
/// to carry this law.
#[tactic(auto, using(crate::proofs::EntryBack::lines_tell_entries))]
pub fn lines_tell_entries()
    ensures { LinesTellEntries }
{}

/// Two whole reports of a disk with one text have one list of entries (own profile). It does nothing else than to carry
/// this law.
#[tactic(auto, using(crate::proofs::ReportBack::reports_tell_entries))]
pub fn reports_tell_entries()
    ensures { ReportsTellEntries }
{}
