// What the judgement of notes looks up.
ghost use Rattle.std.specs.Prelude.{◌≡◌, IfOk, OnOk, option_copied};
ghost use Rattle.fort_notes.specs.Judging.{last_end, unit_of_number};
ghost use Rattle.note_names.specs.NameTests.{AreRolesOf};
ghost use Rattle.note_judging.specs.Items.{IsSeated};

use edge_io::{Keys, NoMemory};
use fort_syntax::{Deck, Unit};
use note_names::Roles;
use note_places::AssertPlaces;
use note_steps::Sites;
use std::alloc::Global;

// What the judgement of a note looks up, where it stands in the unit of this number.
pub(crate) struct Seat<'a> {
    pub sites: Sites<'a>,
    pub unit: u32,
}

// The card of the last END.
fn last_end(units: &[Unit]) -> u32
    ensures { result ≡ last_end 0 units.now }
{
    let mut last = 0;
    for unit in units {
        last = unit.end;
    }
    last
}

// The unit of a number, which counts from 1.
fn unit_of_number(units: &[Unit], number: u32) -> Option<&Unit>
    ensures { option_copied result ≡ unit_of_number units.now number }
{
    if number == 0 {
        return None;
    }
    units.get(number as usize - 1)
}

// The roles of the names of the unit of a number.
fn roles_at(alloc: Global, keys: Keys, deck: &Deck, number: u32) -> Result<Roles, NoMemory>
    ensures { IfOk result (AreRolesOf (unit_of_number deck.now.units number)) }
{
    let unit = unit_of_number(deck.units.as_slice(), number);
    Roles::of_unit(alloc, keys, unit)
}

// The seat of a note that stands in no unit.
pub(crate) fn first_seat<'a>(
    alloc: Global,
    keys: Keys,
    deck: &'a Deck,
) -> Result<Seat<'a>, NoMemory>
    ensures { IfOk result (IsSeated deck.now) }
{
    let Ok(asserts) = AssertPlaces::of_notes(alloc, keys, deck.notes.as_slice()) else {
        return Err(NoMemory);
    };
    let Ok(roles) = roles_at(alloc, keys, deck, 0) else {
        return Err(NoMemory);
    };
    let sites = Sites {
        alloc,
        deck,
        last_end: last_end(deck.units.as_slice()),
        asserts,
        roles,
    };
    Ok(Seat { sites, unit: 0 })
}

// Moves a seat to the unit of a number.
pub(crate) fn sit(keys: Keys, seat: &mut Seat<'_>, number: u32) -> Result<(), NoMemory>
    requires { IsSeated seat.old.sites.deck.now seat.old }
    ensures seated { OnOk result (IsSeated seat.old.sites.deck.now seat.new) }
    ensures unit { OnOk result (seat.new.unit ≡ number) }
{
    if seat.unit == number {
        return Ok(());
    }
    let Ok(roles) = roles_at(seat.sites.alloc, keys, seat.sites.deck, number) else {
        return Err(NoMemory);
    };
    seat.sites.roles = roles;
    seat.unit = number;
    Ok(())
}

// Ends a seat.
pub(crate) fn leave(seat: Seat<'_>) {
    let Seat { sites, unit: _ } = seat;
    let Sites {
        alloc: _,
        deck: _,
        last_end: _,
        asserts: _,
        roles: _,
    } = sites;
}
