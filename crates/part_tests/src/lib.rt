//! Tests of the crates below the top call that no row shows: ends that fail, terms that no text is.
#![tactic(auto)]

#[cfg(test)]
mod definitions;
#[cfg(test)]
mod ends;
#[cfg(test)]
mod texts;
