//! Tests of the top call that no row shows: ends that fail, a deck that is too long, and provers of
//! a test's own.
#![tactic(auto)]

#[cfg(test)]
mod ends;
#[cfg(test)]
mod lent;
#[cfg(test)]
mod long_decks;
#[cfg(test)]
mod objects;
