// The values of parameters. Many parameters have a table of their places.
ghost use Rattle.std.specs.Prelude.{◌≡◌, List, IfOk};
ghost use Rattle.formula.specs.Adding.{definition_at};
ghost use Rattle.formula.specs.declared.definition.Definition.{Definition};
ghost use Rattle.term_worth.specs.Machine.{argument_of, params_of, params_in};

use crate::machine::{Held, Parameters};
use crate::uses::definition_at;
use edge_io::{Keys, NoMemory};
use formula::{Definitions, NameTable, Word};
use std::alloc::Global;

/// How many parameters are found without a table.
const FEW: usize = 8;

/// The parameters of the definition of number k, with a table where they are many. No definition
/// that was added has two of one name; where there are two, there is no table.
pub fn parameters_of(
    alloc: Global,
    keys: Keys,
    k: usize,
    names: &[Word],
) -> Result<Parameters, NoMemory>
    ensures { IfOk result (λ ps. (ds : List Definition) → params_of (definition_at ds k) ≡ names.now
        → params_in ds ps ≡ names.now) }
{
    if names.len() <= FEW {
        return Ok(Parameters::Of(k));
    }
    let mut table = NameTable::new(alloc, keys);
    for place in 0..names.len() {
        let is_new = table.add(names[place])?;
        if !is_new {
            return Ok(Parameters::Of(k));
        }
    }
    Ok(Parameters::Table(table))
}

/// The value of a parameter, by its place among the arguments.
pub fn parameter(definitions: &Definitions, params: &Parameters, args: &[Held], name: Word) -> Held
    ensures { result ≡ argument_of (params_in definitions.now params.now) args.now name }
{
    match params {
        Parameters::Of(k) => match definition_at(definitions, *k) {
            Some(definition) => searched(definition.params.as_slice(), args, name),
            None => Held::Undefined,
        },
        Parameters::Table(table) => tabled(table, args, name),
    }
}

/// The same of few parameters, one after another.
fn searched(params: &[Word], args: &[Held], name: Word) -> Held
    ensures { result ≡ argument_of params.now args.now name }
{
    let mut place = 0;
    while place < params.len() && place < args.len() {
        if params[place] == name {
            return args[place];
        }
        place += 1;
    }
    Held::Undefined
}

/// The same of many parameters, by their table.
fn tabled(params: &NameTable, args: &[Held], name: Word) -> Held
    ensures { result ≡ argument_of params.now args.now name }
{
    match params.place_of(name) {
        Some(place) => args.get(place).copied().unwrap_or(Held::Undefined),
        None => Held::Undefined,
    }
}
