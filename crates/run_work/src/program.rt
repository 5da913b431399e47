// What a run goes by.
use fort_syntax::Unit;
use run_ranks::Ranks;
use run_shapes::Code;
use run_state::Setting;

/// What a run goes by: units, their code, what their runs need, and how their processor runs them.
#[derive(Drop)]
pub struct Program<'a> {
    pub units: &'a [Unit],
    pub code: &'a Code,
    pub ranks: &'a Ranks,
    pub setting: &'a Setting,
}
