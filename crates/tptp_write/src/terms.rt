// The walk that prints terms: a list of steps stands for what is left of it, so no depth of term exhausts a stack.
ghost use Rattle.std.specs.Prelude.{◌≡◌, ◌+◌, ◌*◌, ◌≤◌, ◌++◌, [], OnOk, map};
ghost use Rattle.inst_logic.specs.Tree.{of_list};
ghost use Rattle.inst_logic.specs.View.{tree};
ghost use Rattle.inst_logic.specs.Measure.{tree_size, trees_size};
ghost use Rattle.inst_logic.specs.Printing.{tree_text, arguments_text, more_text};
ghost use Rattle.tptp_write.specs.Steps.{step_text, steps_text, step_size, steps_size};

use crate::names::{push_bytes, push_name, push_number};
use inst_logic::{Memory, Term, TermList};

#[derive(Clone, Copy)]
enum Step<'a> {
    // The term is printed.
    Print(&'a Term),
    // A comma and the term are printed.
    PrintNext(&'a Term),
    // The closing parenthesis is printed.
    Close,
}

// Steps that print what follows an argument.
fn push_steps<'a>(steps: &mut Vec<Step<'a>>, terms: &'a [Term]) -> Result<(), Memory>
    ensures text { OnOk result (steps_text steps.new.items ≡ more_text (of_list (map tree terms.now)) ++ steps_text steps.old.items) }
    ensures size { OnOk result (steps_size steps.new.items ≡ steps_size steps.old.items + 2 * trees_size (of_list (map tree terms.now)) + 1) }
{
    steps.push(Step::Close)?;
    for i in (0..terms.len()).rev() {
        steps.push(Step::PrintNext(&terms[i]))?;
    }
    Ok(())
}

// Prints the parenthesis before the arguments, and leaves the rest of them to the steps.
fn open<'a>(text: &mut Vec<u8>, steps: &mut Vec<Step<'a>>, args: &'a TermList) -> Result<(), Memory>
    ensures text { OnOk result (text.new.items ++ steps_text steps.new.items ≡ text.old.items ++ (arguments_text (of_list args.now) ++ steps_text steps.old.items)) }
    ensures size { OnOk result (steps_size steps.new.items ≤ steps_size steps.old.items + 2 * trees_size (of_list args.now) + 1) }
{
    match args.as_slice() {
        [] => Ok(()),
        [first, rest @ ..] => {
            push_bytes(text, b"(")?;
            push_steps(steps, rest)?;
            steps.push(Step::Print(first))?;
            Ok(())
        }
    }
}

// Prints the head of the term, and leaves its arguments to the steps.
fn print<'a>(text: &mut Vec<u8>, steps: &mut Vec<Step<'a>>, t: &'a Term) -> Result<(), Memory>
    ensures text { OnOk result (text.new.items ++ steps_text steps.new.items ≡ text.old.items ++ (tree_text (tree t.now) ++ steps_text steps.old.items)) }
    ensures size { OnOk result (steps_size steps.new.items + 1 ≤ steps_size steps.old.items + 2 * tree_size (tree t.now)) }
{
    match t {
        Term::Var(n) => {
            push_bytes(text, b"X")?;
            push_number(text, *n)
        }
        Term::App(sym, args) => {
            push_name(text, sym.name.bytes())?;
            open(text, steps, args)
        }
    }
}

fn run_step<'a>(text: &mut Vec<u8>, steps: &mut Vec<Step<'a>>, step: Step<'a>) -> Result<(), Memory>
    ensures text { OnOk result (text.new.items ++ steps_text steps.new.items ≡ text.old.items ++ (step_text step.entry ++ steps_text steps.old.items)) }
    ensures size { OnOk result (steps_size steps.new.items + 1 ≤ steps_size steps.old.items + step_size step.entry) }
{
    match step {
        Step::Print(t) => print(text, steps, t),
        Step::PrintNext(t) => {
            push_bytes(text, b",")?;
            print(text, steps, t)
        }
        Step::Close => push_bytes(text, b")"),
    }
}

fn run_steps(text: &mut Vec<u8>, steps: &mut Vec<Step<'_>>) -> Result<(), Memory>
    ensures { OnOk result (text.new.items ≡ text.old.items ++ steps_text steps.old.items) }
{
    while let Some(step) = steps.pop() {
        run_step(text, steps, step)?;
    }
    Ok(())
}

/// Puts the term at the end, a variable as `X` with its number. Its depth costs memory and no stack.
pub fn push_term(text: &mut Vec<u8>, t: &Term) -> Result<(), Memory>
    ensures { OnOk result (text.new.items ≡ text.old.items ++ tree_text (tree t.now)) }
{
    let mut steps = Vec::new(*text.allocator());
    print(text, &mut steps, t)?;
    run_steps(text, &mut steps)
}

// The arguments in parentheses, or nothing where there are none.
pub(crate) fn push_arguments(text: &mut Vec<u8>, args: &TermList) -> Result<(), Memory>
    ensures { OnOk result (text.new.items ≡ text.old.items ++ arguments_text (of_list args.now)) }
{
    let mut steps = Vec::new(*text.allocator());
    open(text, &mut steps, args)?;
    run_steps(text, &mut steps)
}
