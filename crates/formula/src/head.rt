// What the name behind an opening bracket stands for.
ghost use Rattle.std.specs.Prelude.{◌≡◌, option_copied};
ghost use Rattle.formula.specs.Reading.{head_named};

use crate::{Arity, BuiltIn, Func, Heading, Headings};

/// What may stand behind an opening bracket: OLD, or a function with its number of arguments.
#[derive(Clone, Copy, Debug, PartialEq, Eq)]
pub enum Head {
    EntryValue,
    Function(Func, Arity),
}

/// The head of that name: OLD, a built-in function, a definition, or the definition that is being
/// read, which will have the next number.
pub fn head_of(headings: &Headings, next: Option<&Heading>, name: &[u8]) -> Option<Head>
    ensures { result ≡ head_named headings.now (option_copied next.entry) name.now }
{
    if b"OLD".as_slice() == name {
        return Some(Head::EntryValue);
    }
    if let Some(f) = BuiltIn::named(name) {
        return Some(Head::Function(Func::BuiltIn(f), f.arity()));
    }
    if let Some(head) = headings.named(name) {
        return Some(head);
    }
    let heading = next?;
    if heading.name.as_bytes() == name {
        return Some(Head::Function(
            Func::Defined(headings.count() + 1),
            Arity::Exactly(heading.count),
        ));
    }
    None
}
