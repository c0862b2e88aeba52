ghost use Rattle.history_laws.specs.Laws.{HeldByteStays, PiecesInViews, OutStays, LaterIsFirst};

/// The bytes of a held group change by its holder's store alone. It does nothing else than to carry this law.
pub fn held_groups_stay()
    ensures { HeldByteStays }
{}

/// Each piece lies inside the range of an accepted request, and that inside its view on the medium of its era. It does
/// nothing else than to carry this law.
pub fn pieces_lie_inside()
    ensures { PiecesInViews }
{}

/// A medium that is out stays as it is, and one that was not yet in holds its opening bytes. It does nothing else than to
/// carry these laws.
pub fn media_stay()
    ensures out { OutStays }
    ensures later { LaterIsFirst }
{}
