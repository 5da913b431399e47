//! The language of decks: names, expressions, statements, subprograms, rules and conditions.
#![tactic(auto)]

mod cards;
mod class;
mod condition;
mod deck;
mod dialect;
mod expr;
mod name;
mod name_word;
mod plain;
mod plain_condition;
mod plain_deck;
mod plain_expr;
mod plain_stmt;
mod plain_terms;
mod refusal;
mod rows;
mod rule;
mod stmt;
mod unit;

pub use cards::{CardKind, Cards, Entry};
pub use class::Class;
pub use condition::{Condition, Kind};
pub use deck::{Deck, Placed};
pub use dialect::{BinOp, Dialect, RelOp, Sort};
pub use expr::Expr;
pub use name::Name;
pub use name_word::word_of;
pub use plain::Plain;
pub use refusal::{Fault, Refusal};
pub use rows::{
    arrays_are_misused, blocks_of_units_differ, blocks_out_of_order, dimensions_are_bad,
    dimensions_that_are_names, ends_are_missed, first_faults, heads_are_missed, ill_formed_decks,
    ill_formed_units, inc_is_read, labels_are_bad, names_are_declared_twice, names_are_misused,
    names_without_type, results_are_missed, rot_is_read, statements_out_of_order,
    subscripts_are_bad, types_are_bad, zero_is_read,
};
pub use rule::Rule;
pub use stmt::{BlockName, Dim, Group, Item, Param, Stmt};
pub use unit::{DataName, FunctionName, Line, Role, Unit};
