// Clauses that statements state, and the selection of some of them by name. Clauses that hold always are kept up to the end,
// since a selection may name them.
ghost use Rattle.std.specs.Prelude.{◌≡◌, ◌∷◌, ◌++◌, [], None, All, IfOk, IfErr, OnOk, filter, option_map};
ghost use Rattle.std.specs.List.{list_any};
ghost use Rattle.std.specs.Str.{bytes_eq};
ghost use Rattle.tptp_load.specs.Includes.{first_missing, listed};
ghost use Rattle.tptp_load.specs.Selecting.{HasSame, IsOutside, IsUnselected, first_outside, names_of};

use crate::error::LoadError;
use indexmap::IndexSet;
use inst_logic::{Clause, Memory, Name, NameList};
use std::alloc::Global;
use std::marker::Model;

/// A clause with its statement's name; `always` where it holds always.
#[derive(Drop)]
pub(crate) struct StatedClause {
    pub(crate) name: Name,
    pub(crate) always: bool,
    pub(crate) clause: Clause,
}

impl Model for StatedClause {
    ghost use Rattle.tptp_load.specs.Includes.{Stated};
    ghost use Rattle.tptp_load.specs.StatedCode.{stated_code};

    ghost Value = { Stated };

    ghost coded = { stated_code };

    ghost view = { λ s. record { name = s.name; always = s.always; clause = s.clause } };
}

// Adds the name where the set does not have it.
#[tactic(auto, using(crate::proofs::Selections::same_with_key))]
fn note(names: &mut IndexSet<Name>, name: Name) -> Result<(), Memory>
    ensures { OnOk result (HasSame names.new.keys (names.old.keys ++ name ∷ [])) }
{
    names.insert(name)?;
    Ok(())
}

// The set of these names.
#[tactic(auto, using(std::proofs::lemmas::Grind::common_steps, crate::proofs::Selections::same_more))]
fn set_of(alloc: Global, names: &NameList) -> Result<IndexSet<Name>, Memory>
    ensures { IfOk result (λ set. HasSame set.keys names.now) }
{
    let mut set = IndexSet::new(alloc);
    for name in names.as_slice() {
        note(&mut set, name.clone()?)?;
    }
    Ok(set)
}

// The set of the names of these clauses.
#[tactic(auto, using(std::proofs::lemmas::Grind::common_steps, crate::proofs::Selections::same_name_more))]
fn set_of_names(alloc: Global, stated: &[StatedClause]) -> Result<IndexSet<Name>, Memory>
    ensures { IfOk result (λ set. HasSame set.keys (names_of stated.now)) }
{
    let mut set = IndexSet::new(alloc);
    for s in stated {
        let name = name_of(s)?;
        note(&mut set, name)?;
    }
    Ok(set)
}

fn name_of(stated: &StatedClause) -> Result<Name, Memory>
    ensures { IfOk result (λ n. n ≡ stated.now.name) }
{
    Ok(stated.name.clone()?)
}

fn is_in(set: &IndexSet<Name>, stated: &StatedClause) -> bool
    ensures { result ≡ list_any (bytes_eq stated.now.name) set.now.keys }
{
    set.contains(&stated.name)
}

// The clauses whose names are in the set, in order.
fn clauses_named_in(
    alloc: Global,
    set: &IndexSet<Name>,
    part: Vec<StatedClause>,
) -> Result<Vec<StatedClause>, Memory>
    ensures { IfOk result (λ v. v.items ≡ filter (λ s. list_any (bytes_eq s.name) set.now.keys) part.items) }
{
    let mut all = Vec::new(alloc);
    for stated in part {
        if is_in(set, &stated) {
            all.push(stated)?;
        }
    }
    Ok(all)
}

// Each of the names is in the set, or the first that is not is told.
#[tactic(auto, using(std::proofs::lemmas::Grind::common_steps, crate::proofs::Selections::step_in, crate::proofs::Selections::step_out, crate::proofs::Selections::all_in_set))]
fn are_found(set: &IndexSet<Name>, file: &Name, names: &NameList) -> Result<(), LoadError>
    ensures ok { OnOk result (first_outside set.now.keys names.now ≡ None) }
    ensures err { IfErr result (IsOutside set.now.keys file.now names.now) }
{
    for name in names.as_slice() {
        if !set.contains(name) {
            return Err(LoadError::NotSelected {
                file: copy_of(file)?,
                wanted: copy_of(name)?,
            });
        }
    }
    Ok(())
}

/// A copy of the name.
pub(crate) fn copy_of(name: &Name) -> Result<Name, Memory>
    ensures { IfOk result (λ n. n ≡ name.now) }
{
    Ok(name.clone()?)
}

// Moves the clauses to the end.
fn add_all(stated: &mut Vec<StatedClause>, chosen: Vec<StatedClause>) -> Result<(), Memory>
    ensures { OnOk result (stated.new.items ≡ stated.old.items ++ chosen.items) }
{
    let mut chosen = chosen;
    stated.append(&mut chosen)?;
    Ok(())
}

// The clauses of a part whose names are among these. The set is let go by a call, as below: where the scope of one ends, the proof
// takes long.
fn chosen_of(
    alloc: Global,
    names: &NameList,
    part: Vec<StatedClause>,
) -> Result<Vec<StatedClause>, Memory>
    ensures { IfOk result (λ v. v.items ≡ listed names.now part.items) }
{
    match set_of(alloc, names) {
        Ok(wanted) => {
            let chosen = clauses_named_in(alloc, &wanted, part);
            drop(wanted);
            chosen
        }
        Err(Memory) => {
            drop(part);
            Err(Memory)
        }
    }
}

// Each of the names is that of a chosen clause, or the first that is not is told.
fn are_chosen(
    alloc: Global,
    file: &Name,
    names: &NameList,
    chosen: &[StatedClause],
) -> Result<(), LoadError>
    ensures ok { OnOk result (first_outside (names_of chosen.now) names.now ≡ None) }
    ensures err { IfErr result (IsOutside (names_of chosen.now) file.now names.now) }
{
    let found = set_of_names(alloc, chosen)?;
    let told = are_found(&found, file, names);
    drop(found);
    told
}

// Moves the chosen clauses to the end, where each of the names is that of one.
fn add_chosen(
    alloc: Global,
    file: &Name,
    names: &NameList,
    chosen: Vec<StatedClause>,
    stated: &mut Vec<StatedClause>,
) -> Result<(), LoadError>
    ensures complete { OnOk result (first_outside (names_of chosen.items) names.now ≡ None) }
    ensures added { OnOk result (stated.new.items ≡ stated.old.items ++ chosen.items) }
    ensures err { IfErr result (IsOutside (names_of chosen.items) file.now names.now) }
{
    match are_chosen(alloc, file, names, chosen.as_slice()) {
        Ok(()) => {
            add_all(stated, chosen)?;
            Ok(())
        }
        Err(error) => {
            drop(chosen);
            Err(error)
        }
    }
}

/// Adds the clauses of a part whose names are selected. Each of the names must be that of a statement of the part.
pub(crate) fn select(
    alloc: Global,
    file: &Name,
    names: &NameList,
    part: Vec<StatedClause>,
    stated: &mut Vec<StatedClause>,
) -> Result<(), LoadError>
    ensures complete { OnOk result (first_missing part.items names.now ≡ None) }
    ensures added { OnOk result (stated.new.items ≡ stated.old.items ++ listed names.now part.items) }
    ensures err { IfErr result (IsUnselected part.items file.now names.now) }
{
    let chosen = chosen_of(alloc, names, part)?;
    add_chosen(alloc, file, names, chosen, stated)
}
