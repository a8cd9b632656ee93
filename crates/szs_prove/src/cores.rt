// A core of the problem of a file: it is loaded, and the text is made whole before anything is written.
ghost use Rattle.std.specs.Prelude.{◌⊎◌, IsTrue, IfOk, IfErr, MatchOption};
ghost use Rattle.inst_logic.specs.Measure.{is_function_free};
ghost use Rattle.cert_format.specs.Printable.{IsTextName};
ghost use Rattle.outside_io.specs.Told.{Follows};
ghost use Rattle.tptp_load.specs.Problems.{IsGoodProblem};
ghost use Rattle.tptp_load.specs.Includes.{path_of};
ghost use Rattle.core_min.specs.Cores.{HasSelection, IsCore};
ghost use Rattle.szs_prove.specs.Answers.{IsRefusal, IsUnanswered, reading};
ghost use Rattle.szs_prove.specs.CoreAnswers.{HasCoreAnswer, IsUncored};
ghost use Rattle.szs_prove.specs.CoreTexts.{IsCoreText, IsNoCoreText};
ghost use Rattle.szs_prove.specs.SubProblems.{IsDecidable};

use crate::application::first_with_functions;
use crate::core_text::{text_of_core, text_of_no_core};
use crate::decision_laws::loaded_problems_are_printable;
use crate::refusal::{Reason, Refusal, problem_of_file};
use crate::sub_lists::SubLists;
use core_min::core_places;
use inst_logic::{ByteList, Memory, Problem};
use outside_io::Library;
use std::alloc::Global;

// The places of a core.
pub(crate) fn places_of(alloc: Global, p: &Problem) -> Result<Option<Vec<usize>>, Memory>
    requires { IsDecidable p.now }
    ensures { IfOk result (λ core. MatchOption core (HasSelection p.now.clauses) (λ places. IsCore p.now.clauses places.items)) }
{
    let mut lists = SubLists::new(alloc, p);
    core_places(alloc, &mut lists, p.clauses.len())
}

// The text of a core, or that there is none.
fn text_of(alloc: Global, file: &str, p: &Problem) -> Result<ByteList, Memory>
    requires { IsDecidable p.now }
    ensures { IfOk result (λ text. IsCoreText p.now file.now text ⊎ IsNoCoreText p.now file.now text) }
{
    let lists = SubLists::new(alloc, p);
    match places_of(alloc, p)? {
        Some(places) => text_of_core(alloc, &lists, file, places.as_slice()),
        None => text_of_no_core(alloc, &lists, file),
    }
}

// The answer to a problem that was loaded, or why no core is searched for.
fn answer(alloc: Global, file: &str, p: &Problem) -> Result<ByteList, Refusal>
    requires { IsGoodProblem p.now }
    ensures ok { IfOk result (λ text. IsTrue (is_function_free p.now.clauses) × (IsCoreText p.now file.now text ⊎ IsNoCoreText p.now file.now text)) }
    ensures err { IfErr result (IsUnanswered IsUncored p.now) }
{
    loaded_problems_are_printable();
    match first_with_functions(p) {
        Some(clause) => Err(Refusal::Unanswered(Reason::Functions { clause })),
        None => {
            let text = text_of(alloc, file, p)?;
            Ok(text)
        }
    }
}

/// A refuted sub-list of the clauses of the file's problem of which no clause can be spared, with certificates that show it, or the
/// saturation of the problem. The root is where includes are tried too.
pub fn core_file<L: Library>(
    alloc: Global,
    file: &str,
    root: Option<&str>,
    files: &mut L,
) -> Result<ByteList, Refusal>
    requires name { IsTextName file.now }
    ensures follows { Follows (L.told files.old) (L.told files.new) }
    ensures ok { IfOk result (HasCoreAnswer (L.told files.old).files file.now (path_of root.entry)) }
    ensures err { IfErr result (IsRefusal IsUncored (reading (L.told files.old) (L.told files.new)) file.now (path_of root.entry)) }
{
    match problem_of_file(alloc, file, root, files) {
        Ok(problem) => answer(alloc, file, &problem),
        Err(refusal) => Err(refusal),
    }
}
