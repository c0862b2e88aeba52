ghost use Rattle.shared_disk.specs.Laws.{LinesStandAtPlaces, PlacesAscend, OwnEntriesAreLines};

/// In a history that keeps a script each line that is done stands at its place, with its entry or none; the places of a
/// client never fall; and every entry of a client that is no collect is one of its lines. It does nothing else than to
/// carry these laws (own profile).
pub fn lines_stand_at_places()
    ensures stand { LinesStandAtPlaces }
    ensures ascend { PlacesAscend }
    ensures own { OwnEntriesAreLines }
{}
