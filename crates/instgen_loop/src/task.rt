// What a run is to do.
use inst_logic::Problem;

/// What a run is to do: refute or saturate the clauses of the problem within this budget, which counts the symbols and variables of
/// the entries that are appended.
#[derive(Clone, Copy)]
pub struct Task<'a> {
    pub problem: &'a Problem,
    pub budget: u64,
}
