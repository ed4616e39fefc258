use crate::place::Place;

/// The position of a key's pair in a map, or the one to which it would go. It must only be used for calls on that map,
/// and only until the map changes.
#[derive(Clone, Copy)]
pub struct Position<'k> {
    /// The key.
    pub key: &'k [u8],
    pub(crate) place: Result<Place, Place>,
}
