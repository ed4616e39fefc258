/// How a run ended.
#[derive(Clone, Copy, Debug, PartialEq, Eq, Drop)]
pub enum Status {
    /// The whole script ran.
    Ran,
    /// The settings in front were refused, and nothing ran.
    BadSettings,
}
