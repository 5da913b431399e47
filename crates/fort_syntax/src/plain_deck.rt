// Units, decks and what leads to them as plain data.
use crate::{DataName, Deck, Entry, Line, Placed, Plain, Unit};
use edge_io::NoMemory;
use std::alloc::Global;

impl Plain for Entry {
    fn copied(&self, alloc: Global) -> Result<Entry, NoMemory> {
        match self {
            Entry::Statement { card, label, text } => Ok(Entry::Statement {
                card: *card,
                label: *label,
                text: text.copied(alloc)?,
            }),
            Entry::Note { card, text } => Ok(Entry::Note {
                card: *card,
                text: text.copied(alloc)?,
            }),
        }
    }

    fn is_same(&self, other: &Entry) -> bool {
        match (self, other) {
            (
                Entry::Statement { card, label, text },
                Entry::Statement {
                    card: c,
                    label: l,
                    text: t,
                },
            ) => *card == *c && *label == *l && text.is_same(t),
            (Entry::Note { card, text }, Entry::Note { card: c, text: t }) => {
                *card == *c && text.is_same(t)
            }
            _ => false,
        }
    }
}

impl Plain for Line {
    fn copied(&self, alloc: Global) -> Result<Line, NoMemory> {
        Ok(Line {
            card: self.card,
            label: self.label,
            stmt: self.stmt.copied(alloc)?,
        })
    }

    fn is_same(&self, other: &Line) -> bool {
        self.card == other.card && self.label == other.label && self.stmt.is_same(&other.stmt)
    }
}

impl Plain for DataName {
    fn copied(&self, alloc: Global) -> Result<DataName, NoMemory> {
        Ok(DataName {
            name: self.name,
            sort: self.sort,
            dims: self.dims.copied(alloc)?,
            role: self.role,
        })
    }

    fn is_same(&self, other: &DataName) -> bool {
        self.name == other.name
            && self.sort == other.sort
            && self.role == other.role
            && self.dims.is_same(&other.dims)
    }
}

impl Plain for Unit {
    fn copied(&self, alloc: Global) -> Result<Unit, NoMemory> {
        Ok(Unit {
            name: self.name,
            sort: self.sort,
            head: self.head,
            dummies: self.dummies.copied(alloc)?,
            names: self.names.copied(alloc)?,
            functions: self.functions.copied(alloc)?,
            blocks: self.blocks.copied(alloc)?,
            lines: self.lines.copied(alloc)?,
            end: self.end,
        })
    }

    fn is_same(&self, other: &Unit) -> bool {
        self.name == other.name
            && self.sort == other.sort
            && self.head == other.head
            && self.end == other.end
            && self.dummies.is_same(&other.dummies)
            && self.names.is_same(&other.names)
            && self.functions.is_same(&other.functions)
            && self.blocks.is_same(&other.blocks)
            && self.lines.is_same(&other.lines)
    }
}

impl Plain for Placed {
    fn copied(&self, alloc: Global) -> Result<Placed, NoMemory> {
        Ok(Placed {
            card: self.card,
            text: self.text.copied(alloc)?,
            unit: self.unit,
            line: self.line,
        })
    }

    fn is_same(&self, other: &Placed) -> bool {
        self.card == other.card
            && self.unit == other.unit
            && self.line == other.line
            && self.text.is_same(&other.text)
    }
}

impl Plain for Deck {
    fn copied(&self, alloc: Global) -> Result<Deck, NoMemory> {
        Ok(Deck {
            units: self.units.copied(alloc)?,
            notes: self.notes.copied(alloc)?,
        })
    }

    fn is_same(&self, other: &Deck) -> bool {
        self.units.is_same(&other.units) && self.notes.is_same(&other.notes)
    }
}
