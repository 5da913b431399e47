//! Which of many ranges of points cover a point: the one that begins last, and the one that ends first.
#![tactic(auto)]

mod beginning;
mod covering;
mod ending;

pub use covering::{Covers, cover_all};
