// Steps of paths.

/// A step of a path: a statement begins, told by its point; or a target is chosen at a fork, told by
/// the number of the fork in the graph and by the choice, which counts from 1.
#[derive(Clone, Copy, Debug)]
pub enum Step {
    At(u32),
    Choice(u32, usize),
}
