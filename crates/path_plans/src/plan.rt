// The plan of a unit.
ghost use Rattle.std.specs.Prelude.{◌≡◌, ◌<◌, length, option_copied, slice_get, IfOk};
ghost use Rattle.fort_model.specs.Program.{names_if_any};
ghost use Rattle.path_plans.specs.Plans.{IsPlan};
ghost use Rattle.start_lists.specs.Smashed.{smashed_names};

use edge_io::{Keys, NoMemory};
use fort_notes::UnitSpec;
use fort_syntax::Name;
use name_tables::NameSet;
use path_scene::Scene;
use start_lists::{commons_of, dim_dummies, smashed_in_order};
use std::alloc::Global;
use walk_setting::Setting;

/// A unit, its notes, the names that it smashes, and in order its dimensions, its COMMON entities
/// and the smashed names.
#[derive(Drop)]
pub struct Plan<'a> {
    pub setting: &'a Setting<'a>,
    pub spec: &'a UnitSpec,
    pub smashed: &'a [Name],
    pub dims: Vec<Name>,
    pub commons: Vec<Name>,
    pub order: Vec<Name>,
}

/// The names that the unit of a number smashes.
fn smashed_of<'a>(scene: &Scene<'a>, number: usize) -> &'a [Name]
    ensures { result.now ≡ names_if_any (slice_get scene.now.smashes.now number) }
{
    match scene.smashes.get(number) {
        Some(set) => set.names(),
        None => &[],
    }
}

/// The set of the names that the unit of a number smashes, where the table has one.
fn table_of<'a>(scene: &Scene<'a>, number: usize) -> Option<&'a NameSet>
    ensures { option_copied result ≡ slice_get scene.now.smashes.now number }
{
    scene.smashes.get(number)
}

/// The smashed names of a unit in order.
fn order_of(alloc: Global, setting: &Setting) -> Result<Vec<Name>, NoMemory>
    ensures { IfOk result (λ names. names.items ≡ smashed_names
        (names_if_any (slice_get setting.now.scene.now.smashes.now setting.now.number))
        setting.now.book.now.unit.now) }
{
    let Some(set) = table_of(setting.scene, setting.number) else {
        return Ok(Vec::new(alloc));
    };
    smashed_in_order(alloc, setting.book.unit, set)
}

impl<'a> Plan<'a> {
    /// The plan of a unit. No answer depends on the keys.
    pub fn new(alloc: Global, keys: Keys, setting: &'a Setting<'a>) -> Result<Plan<'a>, NoMemory>
        requires within { setting.now.number < length setting.now.scene.now.notes.now }
        ensures setting { IfOk result (λ plan. plan.setting.now ≡ setting.now) }
        ensures plan { IfOk result (λ plan. IsPlan plan) }
    {
        let unit = setting.book.unit;
        let Ok(dims) = dim_dummies(alloc, keys, unit) else {
            return Err(NoMemory);
        };
        let Ok(commons) = commons_of(alloc, unit) else {
            return Err(NoMemory);
        };
        let Ok(order) = order_of(alloc, setting) else {
            return Err(NoMemory);
        };
        Ok(Plan {
            setting,
            spec: &setting.scene.notes[setting.number],
            smashed: smashed_of(setting.scene, setting.number),
            dims,
            commons,
            order,
        })
    }
}
