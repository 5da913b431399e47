// Why nothing was read.
/// Why nothing was read.
#[derive(Clone, Copy, Debug, PartialEq, Eq)]
pub enum Lack {
    /// The text spells nothing of the kind.
    Spelling,
    /// No memory for what it spells.
    Memory,
}
