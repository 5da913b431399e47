// What is logged of names that are set.

/// A mark; or what is to be done to go back behind a name that was set: the last name was new, or the
/// name at a place weighed so much.
#[derive(Clone, Copy, Debug)]
pub(crate) enum Logged {
    Mark,
    New,
    Was(usize, u32),
}
