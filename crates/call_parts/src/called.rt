// A call on a walk.
ghost use Rattle.std.specs.Prelude.{◌≡◌, ◌∷◌, drop, suc};
ghost use Rattle.std.specs.Coded.{codes};
ghost use Rattle.fort_syntax.specs.contracts.expr.Expr as expr;
ghost use Rattle.fort_syntax.specs.contracts.stmt.Stmt as stmt;

use call_sites::Book;
use walk_setting::Setting;

/// A call at a card of a unit, and the called unit with its number, from 0, in the program.
#[derive(Drop)]
pub struct Called<'a> {
    pub setting: &'a Setting<'a>,
    pub card: u32,
    pub number: usize,
    pub callee: &'a Book<'a>,
    ghost callee_is: { drop number setting.now.scene.now.books.now.units.now ≡ callee.now.unit.now ∷ drop (suc number) setting.now.scene.now.books.now.units.now } by { Prim.hlevel (codes, expr.the_row.coded, stmt.the_row.coded) },
}
