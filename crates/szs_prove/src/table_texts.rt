// Tables as text: a line that names what they are, and one for each cell, written as the cells are walked.
ghost use Rattle.std.specs.Prelude.{◌≡◌, ◌++◌, ◌^◌, All, IfOk, OnOk, codes, decimal, length};
ghost use Rattle.std.specs.List.{flat_map};
ghost use Rattle.szs_prove.specs.TableTexts.{cell_line, elements_text, more_elements, no_tables_line, table_lines, tables_line, tables_text, truth_line, value_line};

use finite_model::{Table, TableList, Tables, cells_in_order, row_at};
use inst_logic::{ByteList, Kind, Memory, Sym};
use std::alloc::Global;
use tptp_write::{push_bytes, push_name, push_number, push_sign};

// The elements behind the first, and the parenthesis that closes.
fn push_more(text: &mut Vec<u8>, es: &[usize]) -> Result<(), Memory>
    ensures { OnOk result (text.new.items ≡ text.old.items ++ more_elements es.now) }
{
    for e in es {
        push_bytes(text, b",")?;
        push_number(text, *e)?;
    }
    push_bytes(text, b")")
}

// The arguments of a cell.
fn push_elements(text: &mut Vec<u8>, es: &[usize]) -> Result<(), Memory>
    ensures { OnOk result (text.new.items ≡ text.old.items ++ elements_text es.now) }
{
    match es {
        [] => Ok(()),
        [first, rest @ ..] => {
            push_bytes(text, b"(")?;
            push_number(text, *first)?;
            push_more(text, rest)
        }
    }
}

fn push_value(text: &mut Vec<u8>, f: &Sym, es: &[usize], cell: usize) -> Result<(), Memory>
    ensures { OnOk result (text.new.items ≡ text.old.items ++ value_line f.now es.now cell) }
{
    push_name(text, f.name.bytes())?;
    push_elements(text, es)?;
    push_bytes(text, b" = ")?;
    push_number(text, cell)?;
    push_bytes(text, b"\n")
}

fn push_truth(text: &mut Vec<u8>, p: &Sym, es: &[usize], cell: usize) -> Result<(), Memory>
    ensures { OnOk result (text.new.items ≡ text.old.items ++ truth_line p.now es.now cell) }
{
    push_sign(text, cell == 1)?;
    push_name(text, p.name.bytes())?;
    push_elements(text, es)?;
    push_bytes(text, b"\n")
}

// The line of a cell.
fn push_cell(text: &mut Vec<u8>, sym: &Sym, es: &[usize], cell: usize) -> Result<(), Memory>
    ensures { OnOk result (text.new.items ≡ text.old.items ++ cell_line sym.now.kind sym.now es.now cell) }
{
    match sym.kind {
        Kind::Function => push_value(text, sym, es, cell),
        Kind::Predicate | Kind::Equality => push_truth(text, sym, es, cell),
    }
}

// The lines of a table.
fn push_table(alloc: Global, text: &mut Vec<u8>, k: usize, table: &Table) -> Result<(), Memory>
    requires full { length table.now.cells ≡ k ^ table.now.sym.arity }
    ensures { OnOk result (text.new.items ≡ text.old.items ++ table_lines k table.now) }
{
    cells_in_order();
    let cells = table.cells.as_slice();
    for row in 0..cells.len() {
        let es = row_at(alloc, k, table.sym.arity, row)?;
        push_cell(text, &table.sym, es.as_slice(), cells[row])?;
    }
    Ok(())
}

// The lines of each table.
fn push_tables(
    alloc: Global,
    text: &mut Vec<u8>,
    k: usize,
    tables: &TableList,
) -> Result<(), Memory>
    requires full { All (λ t. length t.cells ≡ k ^ t.sym.arity) tables.now }
    ensures { OnOk result (text.new.items ≡ text.old.items ++ flat_map (table_lines k) tables.now) }
{
    let list = tables.as_slice();
    for table in list {
        push_table(alloc, text, k, table)?;
    }
    Ok(())
}

// The number of elements and the file's name, behind what is said of them.
fn push_line(text: &mut Vec<u8>, words: &[u8], k: usize, file: &[u8]) -> Result<(), Memory>
    ensures { OnOk result (text.new.items ≡ text.old.items ++ (words.now ++ decimal k ++ codes " for " ++ file.now ++ codes "\n")) }
{
    push_bytes(text, words)?;
    push_number(text, k)?;
    push_bytes(text, b" for ")?;
    push_bytes(text, file)?;
    push_bytes(text, b"\n")
}

/// The text of tables, functions first.
pub fn tables_text(
    alloc: Global,
    k: usize,
    file: &[u8],
    tables: &Tables,
) -> Result<ByteList, Memory>
    requires functions { All (λ t. length t.cells ≡ k ^ t.sym.arity) tables.now.functions }
    requires predicates { All (λ t. length t.cells ≡ k ^ t.sym.arity) tables.now.predicates }
    ensures { IfOk result (λ text. text ≡ tables_text k file.now tables.now) }
{
    let mut text = Vec::new(alloc);
    push_line(&mut text, b"% tables ", k, file)?;
    push_tables(alloc, &mut text, k, &tables.functions)?;
    push_tables(alloc, &mut text, k, &tables.predicates)?;
    Ok(ByteList::from(text))
}

/// The text of what shows that there are no tables, behind the line that says so.
pub fn no_tables_text(
    alloc: Global,
    k: usize,
    file: &[u8],
    refutation: &ByteList,
) -> Result<ByteList, Memory>
    ensures { IfOk result (λ text. text ≡ no_tables_line k file.now ++ refutation.now) }
{
    let mut text = Vec::new(alloc);
    push_line(&mut text, b"% no tables ", k, file)?;
    push_bytes(&mut text, refutation.as_slice())?;
    Ok(ByteList::from(text))
}
