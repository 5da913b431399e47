// Names that are read, and parameters of DOs.
ghost use Rattle.std.specs.Prelude.{◌≡◌, IfOk};
ghost use Rattle.formula.specs.Pool.{IsIn, tree_of};
ghost use Rattle.fort_model.specs.WalkExpr as steps;
ghost use Rattle.fort_model.specs.WalkStmt as forms;
ghost use Rattle.walk_state.specs.Moments.{Follows, IsWalk, moment};
ghost use Rattle.walk_values.specs.Parts.{Does, DoesWithin};

use edge_io::NoMemory;
use formula::TermId;
use fort_syntax::{Name, Param};
use walk_state::Walk;
use walk_terms::natural;
use walk_values::{constant, read};

/// The value of a name, which is read.
pub fn read_name(walk: &mut Walk, card: u32, name: &Name) -> Result<TermId, NoMemory>
    requires { IsWalk walk.old }
    ensures on { Follows walk.old walk.new }
    ensures is_in { IfOk result (λ id. IsIn walk.new.pool id) }
    ensures did { IfOk result (λ id. Does (moment walk.old) (λ w. steps.read w card
        ((moment walk.old).now name.now)) (moment walk.new) (tree_of walk.new.pool id)) }
{
    let value = walk.term(name)?;
    read(walk, card, value)?;
    Ok(value)
}

/// A parameter of a DO: a constant, or a name that is read.
pub fn parameter(walk: &mut Walk, bound: u64, card: u32, param: Param) -> Result<TermId, NoMemory>
    requires { IsWalk walk.old }
    ensures on { Follows walk.old walk.new }
    ensures is_in { IfOk result (λ id. IsIn walk.new.pool id) }
    ensures did { IfOk result (λ id. DoesWithin bound (moment walk.old)
        (λ w. forms.parameter w card (moment walk.old).now param) (moment walk.new)
        (tree_of walk.new.pool id)) }
{
    match param {
        Param::Fixed(c) => constant(walk, bound, card, c),
        Param::Named(name) => {
            let value = read_name(walk, card, &name)?;
            Ok(value)
        }
    }
}

/// The step of a DO, which is 1 where none is written.
pub fn step_value(
    walk: &mut Walk,
    bound: u64,
    card: u32,
    step: Option<Param>,
) -> Result<TermId, NoMemory>
    requires { IsWalk walk.old }
    ensures on { Follows walk.old walk.new }
    ensures is_in { IfOk result (λ id. IsIn walk.new.pool id) }
    ensures did { IfOk result (λ id. DoesWithin bound (moment walk.old)
        (λ w. forms.step_value w card (moment walk.old).now step) (moment walk.new)
        (tree_of walk.new.pool id)) }
{
    let Some(param) = step else {
        let Ok(one) = natural(&mut walk.pool, 1) else {
            return Err(NoMemory);
        };
        return Ok(one);
    };
    parameter(walk, bound, card, param)
}
