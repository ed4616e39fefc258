use crate::job::Job;
use sm_body::bytes::Bytes;

/// A client's request to the queue.
#[derive(Drop)]
pub enum Request {
    /// Puts the job behind those of its key.
    Push(Job),
    /// Gives out the job of the key that has waited longest.
    Take(Bytes),
    /// Counts the jobs of the key that wait.
    Length(Bytes),
}
