/// Why no medium was inserted (own profile).
#[derive(Clone, Copy, Debug, PartialEq, Eq)]
pub enum InsertFault {
    /// A medium is in.
    Occupied,
    /// No spare is left.
    NoSpare,
}
