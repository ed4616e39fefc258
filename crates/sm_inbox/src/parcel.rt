/// The contents of an inbox, which a worker takes out one by one.
#[derive(Drop)]
pub enum Parcel<M: Drop> {
    /// A message to serve.
    Serve(M),
    /// A word to stop.
    Stop,
}
