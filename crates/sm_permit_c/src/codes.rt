//! The codes by which calls answer C.

// By tools/library-codes, the codes of library/codes.txt:
/// A server is out of range.
pub(crate) const BAD_ARGUMENT: u32 = 2;

/// No record has the word.
pub(crate) const BAD_WORD: u32 = 4;
// End of them.
