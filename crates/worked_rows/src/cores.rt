// Cores as values, of problems of files.
ghost use Rattle.tptp_load.specs.Problems.{IsGoodProblem};
ghost use Rattle.szs_prove.specs.SubProblems.{IsDecidable};

use crate::runs::file_of;
use inst_logic::{Memory, Problem, function_free};
use outside_io::SureLibrary;
use std::alloc::Global;
use std::test::Fail;
use szs_prove::decision_laws::loaded_problems_are_printable;
use szs_prove::{CoreAnswer, core_of};
use tptp_load::load;

// Whether it is one at these places, with a saturation for each; at none where there is no core.
fn stands_at(core: &CoreAnswer, wanted: &[usize]) -> bool {
    match core {
        CoreAnswer::Core { places, rests, .. } => {
            places.as_slice() == wanted && rests.len() == wanted.len()
        }
        CoreAnswer::Satisfiable(_) => wanted.is_empty(),
    }
}

fn has_core(alloc: Global, p: &Problem, wanted: &[usize]) -> Result<bool, Memory>
    requires { IsDecidable p.now }
{
    let core = core_of(alloc, p)?;
    Ok(stands_at(&core, wanted))
}

fn loaded_has_core(alloc: Global, p: &Problem, wanted: &[usize]) -> Result<bool, Memory>
    requires { IsGoodProblem p.now }
{
    loaded_problems_are_printable();
    if function_free(p) {
        return has_core(alloc, p, wanted);
    }
    Ok(false)
}

fn text_has_core(alloc: Global, text: &str, wanted: &[usize]) -> Result<bool, Memory> {
    let files = file_of(alloc, "c.p", text.as_bytes())?;
    let mut library = SureLibrary::new(alloc, files);
    match load(alloc, &mut library, "c.p", None) {
        Ok(problem) => loaded_has_core(alloc, &problem, wanted),
        Err(_) => Ok(false),
    }
}

fn have_cores(alloc: Global) -> Result<[bool; 2], Memory> {
    Ok([
        text_has_core(
            alloc,
            "cnf(a,axiom,p(X)). cnf(b,axiom,q). cnf(c,axiom,~p(d)).",
            &[1, 3],
        )?,
        text_has_core(alloc, "cnf(a,axiom,p | q). cnf(b,axiom,~p).", &[])?,
    ])
}

#[test]
fn cores_are_found(rt: HostRuntime) -> Result<(), Fail> {
    assert_eq!(rt; have_cores(rt.alloc())?, [true; 2]);
    Ok(())
}
