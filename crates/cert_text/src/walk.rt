// The walk that prints interned terms: a list of steps stands for what is left of it, so no depth of term exhausts a stack.
ghost use Rattle.std.specs.Prelude.{◌≡◌, ◌+◌, ◌*◌, ◌≤◌, ◌<◌, ◌++◌, [], OnOk, length, map};
ghost use Rattle.inst_logic.specs.Tree.{of_list};
ghost use Rattle.inst_logic.specs.Measure.{tree_size, trees_size};
ghost use Rattle.inst_logic.specs.Printing.{tree_text, arguments_text, more_text};
ghost use Rattle.term_bank.specs.Forest.{tree_at, AreIds};
ghost use Rattle.cert_text.specs.Steps.{step_text, steps_text, step_size, steps_size, IsStep, AreSteps};

use inst_logic::Memory;
use term_bank::{Bank, Root, TermId};
use tptp_write::{push_bytes, push_name, push_number};

#[derive(Clone, Copy)]
pub enum Step {
    // The term is printed.
    Print(TermId),
    // A comma and the term are printed.
    PrintNext(TermId),
    // The closing parenthesis is printed.
    Close,
}

// Steps that print what follows an argument.
fn push_steps(bank: &Bank, steps: &mut Vec<Step>, ids: &[TermId]) -> Result<(), Memory>
    requires ids { AreIds bank.now ids.now }
    ensures text { OnOk result (steps_text bank.now steps.new.items ≡ more_text (of_list (map (tree_at bank.now) ids.now)) ++ steps_text bank.now steps.old.items) }
    ensures size { OnOk result (steps_size bank.now steps.new.items ≡ steps_size bank.now steps.old.items + 2 * trees_size (of_list (map (tree_at bank.now) ids.now)) + 1) }
    ensures steps { AreSteps bank.now steps.old.items → OnOk result (AreSteps bank.now steps.new.items) }
{
    steps.push(Step::Close)?;
    for i in (0..ids.len()).rev() {
        steps.push(Step::PrintNext(ids[i]))?;
    }
    Ok(())
}

// Prints the parenthesis before the arguments, and leaves the rest of them to the steps.
fn open(
    bank: &Bank,
    text: &mut Vec<u8>,
    steps: &mut Vec<Step>,
    ids: &[TermId],
) -> Result<(), Memory>
    requires ids { AreIds bank.now ids.now }
    requires steps { AreSteps bank.now steps.old.items }
    ensures text { OnOk result (text.new.items ++ steps_text bank.now steps.new.items ≡ text.old.items ++ (arguments_text (of_list (map (tree_at bank.now) ids.now)) ++ steps_text bank.now steps.old.items)) }
    ensures size { OnOk result (steps_size bank.now steps.new.items ≤ steps_size bank.now steps.old.items + 2 * trees_size (of_list (map (tree_at bank.now) ids.now)) + 1) }
    ensures steps { OnOk result (AreSteps bank.now steps.new.items) }
{
    if ids.is_empty() {
        return Ok(());
    }
    push_bytes(text, b"(")?;
    push_steps(bank, steps, &ids[1..])?;
    steps.push(Step::Print(ids[0]))?;
    Ok(())
}

// Prints the head of the term, and leaves its arguments to the steps.
fn print(bank: &Bank, text: &mut Vec<u8>, steps: &mut Vec<Step>, id: TermId) -> Result<(), Memory>
    requires id { id < length bank.now.trees }
    requires steps { AreSteps bank.now steps.old.items }
    ensures text { OnOk result (text.new.items ++ steps_text bank.now steps.new.items ≡ text.old.items ++ (tree_text (tree_at bank.now id) ++ steps_text bank.now steps.old.items)) }
    ensures size { OnOk result (steps_size bank.now steps.new.items + 1 ≤ steps_size bank.now steps.old.items + 2 * tree_size (tree_at bank.now id)) }
    ensures steps { OnOk result (AreSteps bank.now steps.new.items) }
{
    match bank.root(id) {
        Root::Var(n) => {
            push_bytes(text, b"X")?;
            push_number(text, n)
        }
        Root::App(sym, args) => {
            push_name(text, sym.name.bytes())?;
            open(bank, text, steps, args)
        }
    }
}

fn run_step(
    bank: &Bank,
    text: &mut Vec<u8>,
    steps: &mut Vec<Step>,
    step: Step,
) -> Result<(), Memory>
    requires step { IsStep bank.now step }
    requires steps { AreSteps bank.now steps.old.items }
    ensures text { OnOk result (text.new.items ++ steps_text bank.now steps.new.items ≡ text.old.items ++ (step_text bank.now step ++ steps_text bank.now steps.old.items)) }
    ensures size { OnOk result (steps_size bank.now steps.new.items + 1 ≤ steps_size bank.now steps.old.items + step_size bank.now step) }
    ensures steps { OnOk result (AreSteps bank.now steps.new.items) }
{
    match step {
        Step::Print(id) => print(bank, text, steps, id),
        Step::PrintNext(id) => {
            push_bytes(text, b",")?;
            print(bank, text, steps, id)
        }
        Step::Close => push_bytes(text, b")"),
    }
}

fn run_steps(bank: &Bank, text: &mut Vec<u8>, steps: &mut Vec<Step>) -> Result<(), Memory>
    requires { AreSteps bank.now steps.old.items }
    ensures { OnOk result (text.new.items ≡ text.old.items ++ steps_text bank.now steps.old.items) }
{
    while let Some(step) = steps.pop() {
        run_step(bank, text, steps, step)?;
    }
    Ok(())
}

// Puts the term at the end of the text. The steps are room that is kept from term to term.
pub fn push_term(
    bank: &Bank,
    text: &mut Vec<u8>,
    steps: &mut Vec<Step>,
    id: TermId,
) -> Result<(), Memory>
    requires id { id < length bank.now.trees }
    requires room { steps.old.items ≡ [] }
    ensures { OnOk result (text.new.items ≡ text.old.items ++ tree_text (tree_at bank.now id)) }
{
    print(bank, text, steps, id)?;
    run_steps(bank, text, steps)
}

// The arguments in parentheses, or nothing where there are none.
pub fn push_arguments(
    bank: &Bank,
    text: &mut Vec<u8>,
    steps: &mut Vec<Step>,
    ids: &[TermId],
) -> Result<(), Memory>
    requires ids { AreIds bank.now ids.now }
    requires room { steps.old.items ≡ [] }
    ensures { OnOk result (text.new.items ≡ text.old.items ++ arguments_text (of_list (map (tree_at bank.now) ids.now))) }
{
    open(bank, text, steps, ids)?;
    run_steps(bank, text, steps)
}
