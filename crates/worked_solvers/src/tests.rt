// The one test, since each more costs a proof of the report that a run makes of it.
use crate::{choices, derivations, questions, trails, valuations};
use inst_logic::Memory;
use std::alloc::Global;
use std::test::Fail;

fn of_choices(alloc: Global) -> Result<[bool; 2], Memory> {
    Ok([
        choices::least_and_oldest_are_picked_in_turn(alloc)?,
        choices::a_true_place_is_kept(alloc)?,
    ])
}

fn of_derivations(alloc: Global) -> Result<[bool; 2], Memory> {
    Ok([
        derivations::last_step_is_not_empty(alloc)?,
        derivations::empty_clause_is_shown(alloc)?,
    ])
}

fn of_questions(alloc: Global) -> Result<[bool; 15], Memory> {
    Ok([
        questions::the_row_is_answered(alloc)?,
        questions::the_plain_solver_answers_the_row(alloc)?,
        questions::a_million_atoms_have_values(alloc)?,
        questions::both_solvers_refute_eight_clauses(alloc)?,
        questions::clauses_of_forty_pairs_are_left_out(alloc)?,
        questions::the_checker_accepts_what_refutes_eight_clauses(alloc)?,
        questions::a_chain_is_one_step(alloc)?,
        questions::a_fact_is_cited_alone(alloc)?,
        questions::pigeons_are_refuted_in_few_steps(alloc)?,
        questions::a_core_has_three_of_four_assumptions(alloc)?,
        questions::a_clause_comes_between_two_questions(alloc)?,
        questions::questions_that_are_refuted_again_leave_no_steps(alloc)?,
        questions::what_was_forgotten_is_learned_again(alloc)?,
        questions::new_atoms_are_tried_false_or_true_first(alloc)?,
        questions::long_questions_restart(alloc)?,
    ])
}

fn of_trails(alloc: Global) -> Result<[bool; 3], Memory> {
    Ok([
        trails::propagation_is_exact_in_any_order_of_calls(alloc)?,
        trails::a_decision_gives_the_other_literal(alloc)?,
        trails::a_forgotten_number_is_given_again(alloc)?,
    ])
}

fn of_valuations(alloc: Global) -> Result<[bool; 2], Memory> {
    Ok([
        valuations::values_are_read(alloc)?,
        valuations::changes_are_listed(alloc)?,
    ])
}

#[test]
fn answers_are_as_wanted(rt: HostRuntime) -> Result<(), Fail> {
    let alloc = rt.alloc();
    assert_eq!(rt; of_choices(alloc)?, [true; 2]);
    assert_eq!(rt; of_derivations(alloc)?, [true; 2]);
    assert_eq!(rt; of_questions(alloc)?, [true; 15]);
    assert_eq!(rt; of_trails(alloc)?, [true; 3]);
    assert_eq!(rt; of_valuations(alloc)?, [true; 2]);
    Ok(())
}
