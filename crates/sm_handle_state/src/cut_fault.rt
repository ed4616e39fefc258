use sm_ranges::layout::LayoutFault;
use thiserror::Error;

/// Why parts of a text are no layout.
#[derive(Clone, Copy, Debug, Drop, Error)]
pub enum CutFault {
    /// A part isn't within the text.
    #[error("a part isn't within the text")]
    Outside,
    /// The parts are no bounds of a layout; or memory was refused.
    #[error(transparent)]
    Layout(LayoutFault),
}
