use crate::Asked;
use byte_lists::Bytes;

/// The bytes that a line brings for its request.
#[derive(Drop)]
pub enum Payload {
    /// The bytes of a write.
    Given(Bytes),
    /// A write of so many times this byte as it asks for bytes.
    Fill(u8),
    /// A request that is no write brings none.
    Nothing,
}

/// A line of a client: what it asks next (own profile).
#[derive(Drop)]
pub enum Order {
    /// A request on the medium with this id.
    Request {
        asked: Asked,
        payload: Payload,
        media_id: u32,
    },
    /// Waits for the client's own tokens and collects them.
    Wait,
    /// Ends the outstanding requests of the line's view on the medium with this id.
    Cancel {
        media_id: u32,
    },
    /// Ends all outstanding requests.
    Reset,
    /// Takes the medium out.
    Eject,
    /// Puts the next medium in.
    Insert,
    /// Sets or lifts write protection.
    Protect {
        on: bool,
    },
}
