//! Why a word is no number.

/// Why a word is not the number, or the extent, that is wanted.
#[derive(Clone, Copy, Debug, PartialEq, Eq)]
pub enum NumberFault {
    /// It is out of form.
    NoNumber,
    /// It is in form, and above what there is room for.
    TooLarge,
}
