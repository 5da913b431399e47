//! Tables that are made once of a text: data names by name, statements by label, units by name.
#![tactic(auto)]

mod label_points;
mod name_places;
mod place_table;
mod unit_numbers;

pub use label_points::LabelPoints;
pub use name_places::NamePlaces;
pub use unit_numbers::UnitNumbers;
