// What each value may be.
ghost use Rattle.std.specs.Prelude.{◌≡◌, ◌≤◌, ◌↔◌, ℕ, List, Option, IfOk, IsTrue, option_map, MatchOption};
ghost use Rattle.std.specs.Char.{is_ascii_digit};
ghost use Rattle.std.specs.List.{list_all};
ghost use Rattle.inst_logic.specs.LiteralView.{literal};
ghost use Rattle.inst_logic.specs.Tree.{Tree};
ghost use Rattle.inst_logic.specs.declared.signed.Signed.{Signed};
ghost use Rattle.cert_format.specs.Printable.{IsTextName};
ghost use Rattle.tptp_read.specs.Atoms.{ReadsAtom};
ghost use Rattle.command_words.specs.Asked.{IsSet, SaysAtom, SaysBudget, SaysFile, SaysNumber, SaysOther};
ghost use Rattle.command_words.specs.Errors as wanting;
ghost use Rattle.command_words.specs.Numbers.{IsNumber};

use inst_logic::{Literal, Memory};
use std::alloc::Global;
use tptp_read::{ReadError, read_atom};

// 1 to 4,096 bytes without control bytes.
fn is_name(word: &str) -> bool
    ensures { IsTrue result ↔ IsTextName word.now }
{
    let bytes = word.as_bytes();
    if bytes.is_empty() || bytes.len() > 4096 {
        return false;
    }
    bytes.iter().all(|&byte| byte >= b' ' && byte != 127)
}

fn are_digits(word: &str) -> bool
    ensures { result ≡ list_all is_ascii_digit word.now }
{
    word.as_bytes().iter().all(|byte| byte.is_ascii_digit())
}

// The number that the word is, in 1 to `most` digits.
fn number_up_to(greatest: u64, most: usize, word: &str) -> Option<u64>
    ensures { MatchOption result ((n : ℕ) → ¬ (IsNumber most word.now n × (n ≤ greatest)))
        (λ n. IsNumber most word.now n × (n ≤ greatest)) }
{
    if word.is_empty() || word.len() > most || !are_digits(word) {
        return None;
    }
    match word.parse::<u64>() {
        Ok(number) => {
            if number <= greatest {
                Some(number)
            } else {
                None
            }
        }
        Err(_) => None,
    }
}

// The file that is named, which has to be.
pub(crate) fn file_in<'a>(word: Option<&'a str>) -> Option<&'a str>
    ensures { MatchOption result ((f : List ℕ) → ¬ SaysFile (option_map (λ w. w.now) word.entry) f)
        (λ f. SaysFile (option_map (λ w. w.now) word.entry) f.now) }
{
    match word {
        Some(name) => { if is_name(name) { Some(name) } else { None } }
        None => None,
    }
}

// The file or folder that is named, where one is; `None` where it can be none.
pub(crate) fn other_in<'a>(word: Option<&'a str>) -> Option<Option<&'a str>>
    ensures { MatchOption result ((r : Option (List ℕ)) → ¬ SaysOther (option_map (λ w. w.now) word.entry) r)
        (λ r. SaysOther (option_map (λ w. w.now) word.entry) (option_map (λ w. w.now) r)) }
{
    match word {
        Some(name) => {
            if is_name(name) {
                Some(Some(name))
            } else {
                None
            }
        }
        None => Some(None),
    }
}

// Whether the flag is set, of which the parser gives a word in either case.
pub(crate) fn is_set(word: Option<&str>) -> bool
    ensures { IsTrue result ↔ IsSet (option_map (λ w. w.now) word.entry) }
{
    match word {
        Some(text) => text == "true",
        None => false,
    }
}

pub(crate) fn budget_in(word: Option<&str>) -> Option<u64>
    ensures { MatchOption result ((n : ℕ) → ¬ SaysBudget (option_map (λ w. w.now) word.entry) n)
        (SaysBudget (option_map (λ w. w.now) word.entry)) }
{
    match word {
        Some(text) => number_up_to(1_000_000_000_000, 13, text),
        None => Some(10_000_000),
    }
}

fn wants_memory(error: &ReadError) -> bool
    ensures { result ≡ wanting.wants_memory error.now }
{
    match error {
        ReadError::Memory => true,
        ReadError::Syntax { .. }
        | ReadError::Language { .. }
        | ReadError::Feature { .. }
        | ReadError::Role { .. }
        | ReadError::Limit { .. } => false,
    }
}

// The ground atom that the text is.
fn atom_of(alloc: Global, text: &str) -> Result<Option<Literal>, Memory>
    ensures { IfOk result (λ r. MatchOption r ((l : Signed Tree) → ¬ ReadsAtom text.now l) (λ l. ReadsAtom text.now (literal l))) }
{
    match read_atom(alloc, text.as_bytes()) {
        Ok(atom) => Ok(Some(atom)),
        Err(error) => {
            if wants_memory(&error) {
                Err(Memory)
            } else {
                Ok(None)
            }
        }
    }
}

// The ground atom whose text is given, which has to be.
pub(crate) fn atom_in(alloc: Global, word: Option<&str>) -> Result<Option<Literal>, Memory>
    ensures { IfOk result (λ r. MatchOption r ((l : Signed Tree) → ¬ SaysAtom (option_map (λ w. w.now) word.entry) l)
        (λ l. SaysAtom (option_map (λ w. w.now) word.entry) (literal l))) }
{
    match word {
        Some(text) => atom_of(alloc, text),
        None => Ok(None),
    }
}

// The number within these bounds that the word is, in 1 to `most` digits.
fn number_within(least: u64, greatest: u64, most: usize, word: &str) -> Option<usize>
    ensures { MatchOption result ((n : ℕ) → ¬ (IsNumber most word.now n × (least ≤ n) × (n ≤ greatest)))
        (λ n. IsNumber most word.now n × (least ≤ n) × (n ≤ greatest)) }
{
    match number_up_to(greatest, most, word) {
        Some(number) => {
            if number < least {
                None
            } else {
                Some(number as usize)
            }
        }
        None => None,
    }
}

// The number within these bounds that is given, which has to be, in 1 to `most` digits.
pub(crate) fn number_in(least: u64, greatest: u64, most: usize, word: Option<&str>) -> Option<usize>
    ensures { MatchOption result ((n : ℕ) → ¬ SaysNumber least greatest most (option_map (λ w. w.now) word.entry) n)
        (SaysNumber least greatest most (option_map (λ w. w.now) word.entry)) }
{
    match word {
        Some(text) => number_within(least, greatest, most, text),
        None => None,
    }
}
