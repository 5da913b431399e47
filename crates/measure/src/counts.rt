// What is counted of a program.

/// The numbers of paths and of conditions of a program.
#[derive(Clone, Copy, Debug, PartialEq, Eq)]
pub struct Counts {
    pub paths: u32,
    pub conditions: u32,
}
