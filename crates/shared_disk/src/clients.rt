use history::{Order, View};

/// The part of the disk that a client's lines are for (own profile).
#[derive(Clone, Copy, Debug, PartialEq, Eq)]
pub enum Stand {
    /// The whole of the medium that a line names.
    Whole,
    /// A partition.
    Child(View),
}

/// A client: its part of the disk, and its lines in order. Client k of a desk, from 1, has the tag k.
#[derive(Drop)]
pub struct Client {
    pub stand: Stand,
    pub orders: Vec<Order>,
}
