// Statements as plain data.
ghost use Rattle.std.specs.Prelude.{◌≡◌, ◌↔◌, IfOk, IsTrue};

use crate::plain::boxed;
use crate::{Group, Item, Plain, Stmt};
use edge_io::NoMemory;
use std::alloc::Global;

impl Plain for Item {
    fn copied(&self, alloc: Global) -> Result<Item, NoMemory> {
        Ok(Item {
            name: self.name,
            dims: self.dims.copied(alloc)?,
        })
    }

    fn is_same(&self, other: &Item) -> bool {
        self.name == other.name && self.dims.is_same(&other.dims)
    }
}

impl Plain for Group {
    fn copied(&self, alloc: Global) -> Result<Group, NoMemory> {
        Ok(Group {
            block: self.block,
            items: self.items.copied(alloc)?,
        })
    }

    fn is_same(&self, other: &Group) -> bool {
        self.block == other.block && self.items.is_same(&other.items)
    }
}

impl Plain for Stmt {
    fn copied(&self, alloc: Global) -> Result<Stmt, NoMemory> {
        copied_stmt(alloc, self)
    }

    fn is_same(&self, other: &Stmt) -> bool {
        is_same_stmt(self, other)
    }
}

fn copied_stmt(alloc: Global, stmt: &Stmt) -> Result<Stmt, NoMemory>
    ensures { IfOk result (λ c. c ≡ stmt.now) }
{
    match stmt {
        Stmt::Subroutine(name, dummies) => Ok(Stmt::Subroutine(*name, dummies.copied(alloc)?)),
        Stmt::Function(sort, name, dummies) => {
            Ok(Stmt::Function(*sort, *name, dummies.copied(alloc)?))
        }
        Stmt::Declare(sort, items) => Ok(Stmt::Declare(*sort, items.copied(alloc)?)),
        Stmt::Dimension(items) => Ok(Stmt::Dimension(items.copied(alloc)?)),
        Stmt::Common(groups) => Ok(Stmt::Common(groups.copied(alloc)?)),
        Stmt::Assign(left, right) => Ok(Stmt::Assign(left.copied(alloc)?, right.copied(alloc)?)),
        Stmt::GoTo(label) => Ok(Stmt::GoTo(*label)),
        Stmt::Computed(labels, name) => Ok(Stmt::Computed(labels.copied(alloc)?, *name)),
        Stmt::ArithIf(e, l, m, n) => Ok(Stmt::ArithIf(e.copied(alloc)?, *l, *m, *n)),
        Stmt::LogicalIf(e, carried) => {
            let e = e.copied(alloc)?;
            let carried = copied_stmt(alloc, carried.get())?;
            Ok(Stmt::LogicalIf(e, boxed(alloc, carried)?))
        }
        Stmt::Do(label, name, first, last, step) => {
            Ok(Stmt::Do(*label, *name, *first, *last, *step))
        }
        Stmt::Continue => Ok(Stmt::Continue),
        Stmt::Call(name, actuals) => Ok(Stmt::Call(*name, actuals.copied(alloc)?)),
        Stmt::Return => Ok(Stmt::Return),
        Stmt::End => Ok(Stmt::End),
        Stmt::BlockIf(e) => Ok(Stmt::BlockIf(e.copied(alloc)?)),
        Stmt::ElseIf(e) => Ok(Stmt::ElseIf(e.copied(alloc)?)),
        Stmt::Else => Ok(Stmt::Else),
        Stmt::EndIf => Ok(Stmt::EndIf),
    }
}

fn is_same_stmt(stmt: &Stmt, other: &Stmt) -> bool
    ensures { IsTrue result ↔ (stmt.now ≡ other.now) }
{
    match (stmt, other) {
        (Stmt::Subroutine(n, xs), Stmt::Subroutine(m, ys)) => *n == *m && xs.is_same(ys),
        (Stmt::Function(s, n, xs), Stmt::Function(t, m, ys)) => {
            *s == *t && *n == *m && xs.is_same(ys)
        }
        (Stmt::Declare(s, xs), Stmt::Declare(t, ys)) => *s == *t && xs.is_same(ys),
        (Stmt::Dimension(xs), Stmt::Dimension(ys)) => xs.is_same(ys),
        (Stmt::Common(xs), Stmt::Common(ys)) => xs.is_same(ys),
        (Stmt::Assign(a, b), Stmt::Assign(c, d)) => a.is_same(c) && b.is_same(d),
        (Stmt::GoTo(l), Stmt::GoTo(m)) => *l == *m,
        (Stmt::Computed(xs, n), Stmt::Computed(ys, m)) => *n == *m && xs.is_same(ys),
        (Stmt::ArithIf(a, i, j, k), Stmt::ArithIf(b, l, m, n)) => {
            *i == *l && *j == *m && *k == *n && a.is_same(b)
        }
        (Stmt::LogicalIf(a, s), Stmt::LogicalIf(b, t)) => {
            a.is_same(b) && is_same_stmt(s.get(), t.get())
        }
        (Stmt::Do(l, n, a, b, c), Stmt::Do(k, m, d, e, f)) => {
            *l == *k && *n == *m && *a == *d && *b == *e && *c == *f
        }
        (Stmt::Call(n, xs), Stmt::Call(m, ys)) => *n == *m && xs.is_same(ys),
        (Stmt::BlockIf(a), Stmt::BlockIf(b)) => a.is_same(b),
        (Stmt::ElseIf(a), Stmt::ElseIf(b)) => a.is_same(b),
        (Stmt::Continue, Stmt::Continue) => true,
        (Stmt::Return, Stmt::Return) => true,
        (Stmt::End, Stmt::End) => true,
        (Stmt::Else, Stmt::Else) => true,
        (Stmt::EndIf, Stmt::EndIf) => true,
        _ => false,
    }
}
