use thiserror::Error;

/// Why a cluster gave nothing at its stop.
#[derive(Clone, Copy, Debug, PartialEq, Eq, Drop, Error)]
pub enum StopFault {
    /// A client neither came back nor was dropped. All workers were stopped.
    #[error("a client is out")]
    ClientOut,
}
