use crate::job::Job;

/// The replies of the queue.
#[derive(Drop)]
pub enum Reply {
    /// The job waits.
    Queued,
    /// This job is given out, and waits no longer.
    Given(Job),
    /// No job of the key waits, and nothing has changed.
    Empty,
    /// This many jobs of the key wait.
    Length(usize),
}
