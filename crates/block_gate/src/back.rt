use crate::work::Work;

/// What became of a work that was given back.
pub enum Back {
    /// It was one of these gates, which have its buffers again.
    Home,
    /// Its ticket is not out here, or its block has another size.
    Foreign(Work),
}
