// What is known of a unit while its flow is made.
use fort_model::Target;
use fort_syntax::{Dialect, Unit};
use unit_points::{Labels, Turns};

/// A unit in a dialect, its labels, where its block IFs lead; what stands behind each statement, and for each DO where it leads
/// if it is not entered.
#[derive(Drop)]
pub struct Known<'a> {
    pub dialect: Dialect,
    pub unit: &'a Unit,
    pub labels: Labels,
    pub turns: Turns,
    pub behind: Vec<Target>,
    pub over: Vec<Target>,
}
