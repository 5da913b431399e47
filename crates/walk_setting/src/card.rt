// The card of a statement.
use crate::setting::Setting;

/// A unit of a program, and the card of a statement in it, at which checks are told.
#[derive(Drop)]
pub struct Card<'a> {
    pub setting: &'a Setting<'a>,
    pub number: u32,
}
