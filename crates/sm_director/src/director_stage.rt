use sm_lead::{SentCommand, StoreControl};

/// How far a director has come.
#[derive(Drop)]
pub enum DirectorStage {
    /// Nothing was read yet, or everything must be read again.
    Unread,
    /// Everything was read, and this is the control.
    Stands(StoreControl),
    /// It has sent a command whose outcome wasn't told.
    Sent(SentCommand),
}
