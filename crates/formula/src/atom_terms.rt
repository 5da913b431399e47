// Atoms in the place of a term.
ghost use Rattle.std.specs.Prelude.{length};
ghost use Rattle.formula.specs.Pool.{trees, Grows};
ghost use Rattle.formula.specs.Reading.{atom_read, symbol_read};
ghost use Rattle.formula.specs.OpenCalls.{frames_of, CallsBelow, Leads};

use crate::open_calls::{OpenCall, Turn, given};
use crate::{ReadFault, TermPool, Word, is_number, is_same, is_symbol, number};
use edge_io::Stack;

/// An atom in the place of a symbol.
pub fn symbol_read(
    pool: &mut TermPool,
    open: &mut Stack<OpenCall>,
    atom: &[u8],
) -> Result<Turn, ReadFault>
    requires { CallsBelow (length pool.old) «open».old }
    ensures leads { Leads pool.new result «open».new (symbol_read atom.now
        (frames_of (trees pool.old) «open».old)) }
    ensures grows { Grows pool.old pool.new }
{
    if !is_symbol(atom) {
        return Err(ReadFault::BadAtom);
    }
    let Some(name) = Word::new(atom) else {
        unreachable!();
    };
    let id = pool.symbol(name)?;
    given(open, id)
}

/// An atom in the place of a term.
pub fn atom_read(
    pool: &mut TermPool,
    open: &mut Stack<OpenCall>,
    atom: &[u8],
) -> Result<Turn, ReadFault>
    requires { CallsBelow (length pool.old) «open».old }
    ensures leads { Leads pool.new result «open».new (atom_read atom.now
        (frames_of (trees pool.old) «open».old)) }
    ensures grows { Grows pool.old pool.new }
{
    if is_same(atom, b"T") {
        let id = pool.truth(true)?;
        return given(open, id);
    }
    if is_same(atom, b"F") {
        let id = pool.truth(false)?;
        return given(open, id);
    }
    if is_number(atom) {
        let n = number(atom)?;
        let id = pool.number(n)?;
        return given(open, id);
    }
    symbol_read(pool, open, atom)
}
