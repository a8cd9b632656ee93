// Rows of the table of certificates.
use crate::judging::{Change, push_judgement};
use crate::tables::{PIECES, ROWS};
use inst_logic::Memory;
use std::alloc::Global;
use std::test::Fail;
use tptp_write::push_bytes;

fn piece_of<'a>(name: &'a str) -> &'a str {
    for row in PIECES.split('#') {
        if let Some((known, piece)) = row.split_once("@") {
            if known == name {
                return piece;
            }
        }
    }
    name
}

fn push_pieces(text: &mut Vec<u8>, names: &str) -> Result<(), Memory> {
    for name in names.split('+') {
        push_bytes(text, piece_of(name).as_bytes())?;
    }
    Ok(())
}

fn change_of(word: &str) -> Change {
    match word {
        "u" => Change::Unshown,
        "w" => Change::WithoutInputs,
        _ => Change::None,
    }
}

fn is_judged_by(
    alloc: Global,
    text: &mut Vec<u8>,
    answer: &mut Vec<u8>,
    names: &str,
    change: Change,
) -> Result<(), Memory> {
    push_pieces(text, names)?;
    push_judgement(alloc, answer, text.as_slice(), change)
}

fn is_judged(alloc: Global, change: &str, names: &str, wanted: &str) -> Result<bool, Memory> {
    let mut text = Vec::new(alloc);
    let mut answer = Vec::new(alloc);
    is_judged_by(alloc, &mut text, &mut answer, names, change_of(change))?;
    Ok(answer.as_slice() == wanted.as_bytes())
}

fn parts_of(row: &str) -> Option<(&str, &str, &str)> {
    let (_, rest) = row.split_once("@")?;
    let (change, rest) = rest.split_once("@")?;
    let (names, wanted) = rest.split_once("@")?;
    Some((change, names, wanted))
}

fn is_right(alloc: Global, row: &str) -> Result<bool, Memory> {
    match parts_of(row) {
        Some((change, names, wanted)) => is_judged(alloc, change, names, wanted),
        None => Ok(false),
    }
}

// The place of the first row that is not answered so, from 1.
fn first_wrong(alloc: Global) -> Result<Option<usize>, Memory> {
    for (i, row) in ROWS.split('#').enumerate() {
        if i > 0 && !is_right(alloc, row)? {
            return Ok(Some(i));
        }
    }
    Ok(None)
}

#[test]
fn certificates_have_these_answers(rt: HostRuntime) -> Result<(), Fail> {
    assert_eq!(rt; first_wrong(rt.alloc())?, None);
    Ok(())
}
