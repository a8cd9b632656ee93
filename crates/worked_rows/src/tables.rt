// The tables of all files. A table is one text and no array, since a function that uses an array is proved anew for each of its
// entries.
use crate::{certificates, checks, further_rows, refused_texts, refutations, rows};
use inst_logic::Memory;
use std::alloc::Global;
use std::test::Fail;

/// How the rows of a table are compared.
#[derive(Clone, Copy)]
enum Kind {
    Answers,
    Unread,
    Parts,
    Refutations,
    Refusals,
    Checks,
    Beginnings,
}

fn is_right(alloc: Global, kind: Kind, row: &str) -> Result<bool, Memory> {
    match kind {
        Kind::Answers => rows::is_right(alloc, row),
        Kind::Unread => rows::is_unread(alloc, row),
        Kind::Parts => certificates::is_right(alloc, row),
        Kind::Refutations => refutations::is_right(alloc, row),
        Kind::Refusals => refused_texts::is_right(alloc, row),
        Kind::Checks => checks::is_right(alloc, row),
        Kind::Beginnings => further_rows::is_right(alloc, row),
    }
}

// The place of the first row that is not answered so, from 1.
fn first_wrong(alloc: Global, kind: Kind, table: &str) -> Result<Option<usize>, Memory> {
    for (i, row) in table.split('#').enumerate() {
        if i > 0 && !is_right(alloc, kind, row)? {
            return Ok(Some(i));
        }
    }
    Ok(None)
}

// The place of the first wrong row of each table. In a table a row begins with `#`, and `@` stands between its parts.
fn wrong_rows(alloc: Global) -> Result<[Option<usize>; 9], Memory> {
    Ok([
        first_wrong(alloc, Kind::Answers, rows::ROWS)?,
        first_wrong(alloc, Kind::Answers, rows::DIMACS)?,
        first_wrong(alloc, Kind::Unread, rows::UNREAD)?,
        first_wrong(alloc, Kind::Parts, certificates::ROWS)?,
        first_wrong(alloc, Kind::Refutations, refutations::ROWS)?,
        first_wrong(alloc, Kind::Refusals, refused_texts::ROWS)?,
        first_wrong(alloc, Kind::Checks, checks::ROWS)?,
        first_wrong(alloc, Kind::Answers, further_rows::WHOLE)?,
        first_wrong(alloc, Kind::Beginnings, further_rows::BEGINNINGS)?,
    ])
}

#[test]
fn words_have_these_answers(rt: HostRuntime) -> Result<(), Fail> {
    assert_eq!(rt; wrong_rows(rt.alloc())?, [None; 9]);
    Ok(())
}
