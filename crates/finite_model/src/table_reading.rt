// All tables of a problem, read by a truth test that makes its flattened form true.
ghost use Rattle.std.specs.Prelude.{◌≡◌, ◌<◌, All, Contains, IfOk, length, map, slice_index_or};
ghost use Rattle.inst_logic.specs.declared.symbol.Sym.{Sym};
ghost use Rattle.inst_logic.specs.WellFormed.{AreFormedClauses};
ghost use Rattle.inst_calculus.specs.Models.{Makes};
ghost use Rattle.finite_model.specs.Flattening.{function_predicate, flattened, identity};
ghost use Rattle.finite_model.specs.Reading.{AreRead, AreReadBy, HasValues, IsReadFunction, IsReadPredicate};
ghost use Rattle.finite_model.specs.Tables.{IsModel};

use crate::cell_reading::{TruthTest, function_cells, predicate_cells};
use crate::numbering::Numbering;
use crate::tables::{Table, TableList, Tables};
use inst_logic::{Memory, Problem, Sym};
use std::alloc::Global;

fn function_table<T: TruthTest>(
    alloc: Global,
    numbering: &Numbering,
    test: &mut T,
    f: &Sym,
    k: usize,
) -> Result<Table, Memory>
    requires values { HasValues (T.members test.old) k f.now.arity (function_predicate numbering.now f.now) }
    requires ready { T.ready test.old }
    ensures read { IfOk result (λ t. IsReadFunction (T.members test.old) k numbering.now t) }
    ensures symbol { IfOk result (λ t. t.sym ≡ f.now) }
    ensures same { T.members test.new ≡ T.members test.old }
    ensures ready { T.ready test.new }
    ensures keeps { T.keeps test.old test.new }
{
    let sym = numbering.of_function(alloc, f)?;
    let cells = function_cells(alloc, test, &sym, f.arity, k)?;
    Ok(Table {
        sym: f.clone()?,
        cells,
    })
}

fn predicate_table<T: TruthTest>(
    alloc: Global,
    numbering: &Numbering,
    test: &mut T,
    p: &Sym,
    k: usize,
) -> Result<Table, Memory>
    requires ready { T.ready test.old }
    ensures read { IfOk result (λ t. IsReadPredicate (T.members test.old) k numbering.now t) }
    ensures symbol { IfOk result (λ t. t.sym ≡ p.now) }
    ensures same { T.members test.new ≡ T.members test.old }
    ensures ready { T.ready test.new }
    ensures keeps { T.keeps test.old test.new }
{
    let sym = numbering.of_predicate(alloc, p)?;
    let cells = predicate_cells(alloc, test, &sym, p.arity, k)?;
    Ok(Table {
        sym: p.clone()?,
        cells,
    })
}

// The table of function number `i`, counted from 0.
fn function_table_at<T: TruthTest>(
    alloc: Global,
    numbering: &Numbering,
    test: &mut T,
    i: usize,
    k: usize,
) -> Result<Table, Memory>
    requires within { i < length numbering.now.functions }
    requires values { HasValues (T.members test.old) k (slice_index_or numbering.now.functions i identity).arity (function_predicate numbering.now (slice_index_or numbering.now.functions i identity)) }
    requires ready { T.ready test.old }
    ensures read { IfOk result (λ t. IsReadFunction (T.members test.old) k numbering.now t) }
    ensures symbol { IfOk result (λ t. t.sym ≡ slice_index_or numbering.now.functions i identity) }
    ensures same { T.members test.new ≡ T.members test.old }
    ensures ready { T.ready test.new }
    ensures keeps { T.keeps test.old test.new }
{
    match numbering.functions.get_index(i) {
        Some(f) => function_table(alloc, numbering, test, f, k),
        None => unreachable!(),
    }
}

fn function_tables<T: TruthTest>(
    alloc: Global,
    numbering: &Numbering,
    test: &mut T,
    k: usize,
) -> Result<TableList, Memory>
    requires values { (f : Sym) → Contains numbering.now.functions f → HasValues (T.members test.old) k f.arity (function_predicate numbering.now f) }
    requires ready { T.ready test.old }
    ensures symbols { IfOk result (λ ts. map (λ t. t.sym) ts ≡ numbering.now.functions) }
    ensures read { IfOk result (λ ts. All (IsReadFunction (T.members test.old) k numbering.now) ts) }
    ensures same { T.members test.new ≡ T.members test.old }
    ensures ready { T.ready test.new }
    ensures keeps { T.keeps test.old test.new }
{
    let mut tables = TableList::new(alloc);
    for i in 0..numbering.functions.len() {
        let table = function_table_at(alloc, numbering, test, i, k)?;
        tables.push(table)?;
    }
    Ok(tables)
}

// The table of predicate number `i`, counted from 0.
fn predicate_table_at<T: TruthTest>(
    alloc: Global,
    numbering: &Numbering,
    test: &mut T,
    i: usize,
    k: usize,
) -> Result<Table, Memory>
    requires within { i < length numbering.now.predicates }
    requires ready { T.ready test.old }
    ensures read { IfOk result (λ t. IsReadPredicate (T.members test.old) k numbering.now t) }
    ensures symbol { IfOk result (λ t. t.sym ≡ slice_index_or numbering.now.predicates i identity) }
    ensures same { T.members test.new ≡ T.members test.old }
    ensures ready { T.ready test.new }
    ensures keeps { T.keeps test.old test.new }
{
    match numbering.predicates.get_index(i) {
        Some(p) => predicate_table(alloc, numbering, test, p, k),
        None => unreachable!(),
    }
}

fn predicate_tables<T: TruthTest>(
    alloc: Global,
    numbering: &Numbering,
    test: &mut T,
    k: usize,
) -> Result<TableList, Memory>
    requires ready { T.ready test.old }
    ensures symbols { IfOk result (λ ts. map (λ t. t.sym) ts ≡ numbering.now.predicates) }
    ensures read { IfOk result (λ ts. All (IsReadPredicate (T.members test.old) k numbering.now) ts) }
    ensures same { T.members test.new ≡ T.members test.old }
    ensures ready { T.ready test.new }
    ensures keeps { T.keeps test.old test.new }
{
    let mut tables = TableList::new(alloc);
    for i in 0..numbering.predicates.len() {
        let table = predicate_table_at(alloc, numbering, test, i, k)?;
        tables.push(table)?;
    }
    Ok(tables)
}

// The tables of the symbols of this numbering.
fn tables_by<T: TruthTest>(
    alloc: Global,
    numbering: &Numbering,
    test: &mut T,
    k: usize,
) -> Result<Tables, Memory>
    requires values { (f : Sym) → Contains numbering.now.functions f → HasValues (T.members test.old) k f.arity (function_predicate numbering.now f) }
    requires ready { T.ready test.old }
    ensures read { IfOk result (AreReadBy (T.members test.old) k numbering.now) }
    ensures same { T.members test.new ≡ T.members test.old }
    ensures ready { T.ready test.new }
    ensures keeps { T.keeps test.old test.new }
{
    let functions = function_tables(alloc, numbering, test, k)?;
    match predicate_tables(alloc, numbering, test, k) {
        Ok(predicates) => Ok(Tables {
            functions,
            predicates,
        }),
        Err(Memory) => {
            drop(functions);
            Err(Memory)
        }
    }
}

/// The tables of the problem over `k` elements, where the test's clauses make its flattened form true: they are a model. The test is
/// asked once for each cell of a predicate, and at most `k` times for each cell of a function.
pub fn read_tables<T: TruthTest>(
    alloc: Global,
    p: &Problem,
    test: &mut T,
    k: usize,
) -> Result<Tables, Memory>
    requires formed { AreFormedClauses p.now.clauses }
    requires makes { All (Makes (T.members test.old)) (flattened k p.now.clauses) }
    requires ready { T.ready test.old }
    ensures model { IfOk result (λ ts. IsModel k p.now.clauses ts) }
    ensures read { IfOk result (λ ts. AreRead k p.now.clauses (T.members test.old) ts) }
    ensures same { T.members test.new ≡ T.members test.old }
    ensures ready { T.ready test.new }
    ensures keeps { T.keeps test.old test.new }
{
    let numbering = Numbering::of(alloc, &p.clauses)?;
    let tables = tables_by(alloc, &numbering, test, k);
    // Let go by a call: where its scope ends, the proof takes long.
    drop(numbering);
    tables
}
