/// A part of a text: from its start up to its end, counted from 0.
#[repr(C)]
#[derive(Clone, Copy, Drop)]
pub struct TextPart {
    pub start: usize,
    pub end: usize,
}
