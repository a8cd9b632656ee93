// What is asked, and how it is read of the words, command by command: how `clap` is told the command, and what its values say.
ghost use Rattle.std.specs.Prelude.{◌≡◌, ℕ, List, true, Some, IfOk, IfSome, IfNone, MatchOption, codes, map, slice_get, string_bytes};
ghost use Rattle.clap.specs.Words.{app_of, first_value, found_of, is_simple_and_free};
ghost use Rattle.command_words.specs.Asked.{Asked, GivesFile, IsAsked, IsUnread, Says, SaysFile, ask_command, asked, check_command, fmodel_command, prove_command, stress_command, word_of};

use crate::commands::{make_of_file, make_of_problem, with_flag, with_option, with_word};
use crate::judges::{atom_in, budget_in, file_in, is_set, number_in, other_in};
use crate::matched::matches_of;
use clap::{ArgMatches, Command};
use inst_logic::{Literal, Memory};
use std::alloc::Global;

/// What the words ask. Names are as they were given; a budget counts symbols; an atom is a positive literal without variables; the
/// number of a chain is that of its constants; elements are those of a model.
#[derive(Drop)]
pub enum Request<'a> {
    Prove {
        file: &'a str,
        root: Option<&'a str>,
        budget: u64,
    },
    Sat {
        file: &'a str,
    },
    Check {
        cert: &'a str,
        problem: Option<&'a str>,
        root: Option<&'a str>,
    },
    /// Checked like that, and then written in the newest format.
    Rewrite {
        cert: &'a str,
        problem: Option<&'a str>,
        root: Option<&'a str>,
    },
    Ask {
        cert: &'a str,
        atom: Literal,
    },
    Stress {
        number: usize,
    },
    Qbf {
        file: &'a str,
    },
    Fmodel {
        elements: usize,
        file: &'a str,
        root: Option<&'a str>,
    },
    Core {
        file: &'a str,
        root: Option<&'a str>,
    },
}

// ---- prove

fn make_prove<'a>(alloc: Global) -> Result<Command<'a>, Memory>
    ensures told { IfOk result (λ c. app_of c ≡ prove_command) }
    ensures simple { IfOk result (λ c. is_simple_and_free (app_of c) ≡ true) }
{
    let command = make_of_problem(alloc, "prove")?;
    with_option(alloc, command, "budget")
}

fn prove_request<'a>(matches: &ArgMatches<'a>) -> Option<Request<'a>>
    ensures says { IfSome result (λ q. Says (first_value (found_of matches.now)) (asked q) × (word_of (asked q) ≡ codes "prove")) }
    ensures none { IfNone result ((a : Asked) → word_of a ≡ codes "prove" → ¬ Says (first_value (found_of matches.now)) a) }
{
    let file = file_in(matches.get_str("file"))?;
    let root = other_in(matches.get_str("root"))?;
    let budget = budget_in(matches.get_str("budget"))?;
    Some(Request::Prove { file, root, budget })
}

fn read_prove<'a>(alloc: Global, words: &'a [String]) -> Result<Option<Request<'a>>, Memory>
    requires { slice_get (map string_bytes words.now) 0 ≡ Some (codes "prove") }
    ensures asked { IfOk result (λ r. IfSome r (λ q. IsAsked (map string_bytes words.now) (asked q))) }
    ensures unread { IfOk result (λ r. IfNone r (IsUnread (map string_bytes words.now))) }
{
    let command = make_prove(alloc)?;
    match matches_of(command, words)? {
        Some(matches) => Ok(prove_request(&matches)),
        None => Ok(None),
    }
}

// ---- sat and qbf

// The file that the words name by this command, which takes nothing else.
fn file_given<'a>(
    alloc: Global,
    word: &'a str,
    words: &'a [String],
) -> Result<Option<&'a str>, Memory>
    ensures { IfOk result (λ r. MatchOption r ((f : List ℕ) → ¬ GivesFile word.now (map string_bytes words.now) f)
        (λ f. GivesFile word.now (map string_bytes words.now) f.now)) }
{
    let command = make_of_file(alloc, word)?;
    match matches_of(command, words)? {
        Some(matches) => Ok(file_in(matches.get_str("file"))),
        None => Ok(None),
    }
}

fn read_sat<'a>(alloc: Global, words: &'a [String]) -> Result<Option<Request<'a>>, Memory>
    requires { slice_get (map string_bytes words.now) 0 ≡ Some (codes "sat") }
    ensures asked { IfOk result (λ r. IfSome r (λ q. IsAsked (map string_bytes words.now) (asked q))) }
    ensures unread { IfOk result (λ r. IfNone r (IsUnread (map string_bytes words.now))) }
{
    match file_given(alloc, "sat", words)? {
        Some(file) => Ok(Some(Request::Sat { file })),
        None => Ok(None),
    }
}

fn read_qbf<'a>(alloc: Global, words: &'a [String]) -> Result<Option<Request<'a>>, Memory>
    requires { slice_get (map string_bytes words.now) 0 ≡ Some (codes "qbf") }
    ensures asked { IfOk result (λ r. IfSome r (λ q. IsAsked (map string_bytes words.now) (asked q))) }
    ensures unread { IfOk result (λ r. IfNone r (IsUnread (map string_bytes words.now))) }
{
    match file_given(alloc, "qbf", words)? {
        Some(file) => Ok(Some(Request::Qbf { file })),
        None => Ok(None),
    }
}

// ---- check, with or without its rewriting

fn make_check<'a>(alloc: Global) -> Result<Command<'a>, Memory>
    ensures told { IfOk result (λ c. app_of c ≡ check_command) }
    ensures simple { IfOk result (λ c. is_simple_and_free (app_of c) ≡ true) }
{
    let command = with_word(alloc, Command::new(alloc, "check"), "cert")?;
    let command = with_option(alloc, command, "problem")?;
    let command = with_option(alloc, command, "root")?;
    with_flag(alloc, command, "rewrite")
}

fn check_request<'a>(matches: &ArgMatches<'a>) -> Option<Request<'a>>
    ensures says { IfSome result (λ q. Says (first_value (found_of matches.now)) (asked q) × (word_of (asked q) ≡ codes "check")) }
    ensures none { IfNone result ((a : Asked) → word_of a ≡ codes "check" → ¬ Says (first_value (found_of matches.now)) a) }
{
    let cert = file_in(matches.get_str("cert"))?;
    let problem = other_in(matches.get_str("problem"))?;
    let root = other_in(matches.get_str("root"))?;
    if is_set(matches.get_str("rewrite")) {
        return Some(Request::Rewrite {
            cert,
            problem,
            root,
        });
    }
    Some(Request::Check {
        cert,
        problem,
        root,
    })
}

fn read_check<'a>(alloc: Global, words: &'a [String]) -> Result<Option<Request<'a>>, Memory>
    requires { slice_get (map string_bytes words.now) 0 ≡ Some (codes "check") }
    ensures asked { IfOk result (λ r. IfSome r (λ q. IsAsked (map string_bytes words.now) (asked q))) }
    ensures unread { IfOk result (λ r. IfNone r (IsUnread (map string_bytes words.now))) }
{
    let command = make_check(alloc)?;
    match matches_of(command, words)? {
        Some(matches) => Ok(check_request(&matches)),
        None => Ok(None),
    }
}

// ---- ask

fn make_ask<'a>(alloc: Global) -> Result<Command<'a>, Memory>
    ensures told { IfOk result (λ c. app_of c ≡ ask_command) }
    ensures simple { IfOk result (λ c. is_simple_and_free (app_of c) ≡ true) }
{
    let command = with_word(alloc, Command::new(alloc, "ask"), "cert")?;
    with_word(alloc, command, "atom")
}

// What is asked of a certificate that is named.
fn ask_cert<'a>(
    alloc: Global,
    cert: &'a str,
    matches: &ArgMatches<'a>,
) -> Result<Option<Request<'a>>, Memory>
    requires { SaysFile (first_value (found_of matches.now) (codes "cert")) cert.now }
    ensures says { IfOk result (λ r. IfSome r (λ q. Says (first_value (found_of matches.now)) (asked q) × (word_of (asked q) ≡ codes "ask"))) }
    ensures none { IfOk result (λ r. IfNone r ((a : Asked) → word_of a ≡ codes "ask" → ¬ Says (first_value (found_of matches.now)) a)) }
{
    match atom_in(alloc, matches.get_str("atom")) {
        Ok(Some(atom)) => Ok(Some(Request::Ask { cert, atom })),
        Ok(None) => Ok(None),
        Err(Memory) => Err(Memory),
    }
}

fn ask_request<'a>(alloc: Global, matches: &ArgMatches<'a>) -> Result<Option<Request<'a>>, Memory>
    ensures says { IfOk result (λ r. IfSome r (λ q. Says (first_value (found_of matches.now)) (asked q) × (word_of (asked q) ≡ codes "ask"))) }
    ensures none { IfOk result (λ r. IfNone r ((a : Asked) → word_of a ≡ codes "ask" → ¬ Says (first_value (found_of matches.now)) a)) }
{
    match file_in(matches.get_str("cert")) {
        Some(cert) => ask_cert(alloc, cert, matches),
        None => Ok(None),
    }
}

fn read_ask<'a>(alloc: Global, words: &'a [String]) -> Result<Option<Request<'a>>, Memory>
    requires { slice_get (map string_bytes words.now) 0 ≡ Some (codes "ask") }
    ensures asked { IfOk result (λ r. IfSome r (λ q. IsAsked (map string_bytes words.now) (asked q))) }
    ensures unread { IfOk result (λ r. IfNone r (IsUnread (map string_bytes words.now))) }
{
    let command = make_ask(alloc)?;
    match matches_of(command, words)? {
        Some(matches) => ask_request(alloc, &matches),
        None => Ok(None),
    }
}

// ---- stress

fn make_stress<'a>(alloc: Global) -> Result<Command<'a>, Memory>
    ensures told { IfOk result (λ c. app_of c ≡ stress_command) }
    ensures simple { IfOk result (λ c. is_simple_and_free (app_of c) ≡ true) }
{
    with_word(alloc, Command::new(alloc, "stress"), "number")
}

fn stress_request<'a>(matches: &ArgMatches<'a>) -> Option<Request<'a>>
    ensures says { IfSome result (λ q. Says (first_value (found_of matches.now)) (asked q) × (word_of (asked q) ≡ codes "stress")) }
    ensures none { IfNone result ((a : Asked) → word_of a ≡ codes "stress" → ¬ Says (first_value (found_of matches.now)) a) }
{
    let number = number_in(2, 100_000, 6, matches.get_str("number"))?;
    Some(Request::Stress { number })
}

fn read_stress<'a>(alloc: Global, words: &'a [String]) -> Result<Option<Request<'a>>, Memory>
    requires { slice_get (map string_bytes words.now) 0 ≡ Some (codes "stress") }
    ensures asked { IfOk result (λ r. IfSome r (λ q. IsAsked (map string_bytes words.now) (asked q))) }
    ensures unread { IfOk result (λ r. IfNone r (IsUnread (map string_bytes words.now))) }
{
    let command = make_stress(alloc)?;
    match matches_of(command, words)? {
        Some(matches) => Ok(stress_request(&matches)),
        None => Ok(None),
    }
}

// ---- fmodel

fn make_fmodel<'a>(alloc: Global) -> Result<Command<'a>, Memory>
    ensures told { IfOk result (λ c. app_of c ≡ fmodel_command) }
    ensures simple { IfOk result (λ c. is_simple_and_free (app_of c) ≡ true) }
{
    let command = with_word(alloc, Command::new(alloc, "fmodel"), "number")?;
    let command = with_word(alloc, command, "file")?;
    with_option(alloc, command, "root")
}

fn fmodel_request<'a>(matches: &ArgMatches<'a>) -> Option<Request<'a>>
    ensures says { IfSome result (λ q. Says (first_value (found_of matches.now)) (asked q) × (word_of (asked q) ≡ codes "fmodel")) }
    ensures none { IfNone result ((a : Asked) → word_of a ≡ codes "fmodel" → ¬ Says (first_value (found_of matches.now)) a) }
{
    let elements = number_in(1, 64, 2, matches.get_str("number"))?;
    let file = file_in(matches.get_str("file"))?;
    let root = other_in(matches.get_str("root"))?;
    Some(Request::Fmodel {
        elements,
        file,
        root,
    })
}

fn read_fmodel<'a>(alloc: Global, words: &'a [String]) -> Result<Option<Request<'a>>, Memory>
    requires { slice_get (map string_bytes words.now) 0 ≡ Some (codes "fmodel") }
    ensures asked { IfOk result (λ r. IfSome r (λ q. IsAsked (map string_bytes words.now) (asked q))) }
    ensures unread { IfOk result (λ r. IfNone r (IsUnread (map string_bytes words.now))) }
{
    let command = make_fmodel(alloc)?;
    match matches_of(command, words)? {
        Some(matches) => Ok(fmodel_request(&matches)),
        None => Ok(None),
    }
}

// ---- core

fn core_request<'a>(matches: &ArgMatches<'a>) -> Option<Request<'a>>
    ensures says { IfSome result (λ q. Says (first_value (found_of matches.now)) (asked q) × (word_of (asked q) ≡ codes "core")) }
    ensures none { IfNone result ((a : Asked) → word_of a ≡ codes "core" → ¬ Says (first_value (found_of matches.now)) a) }
{
    let file = file_in(matches.get_str("file"))?;
    let root = other_in(matches.get_str("root"))?;
    Some(Request::Core { file, root })
}

fn read_core<'a>(alloc: Global, words: &'a [String]) -> Result<Option<Request<'a>>, Memory>
    requires { slice_get (map string_bytes words.now) 0 ≡ Some (codes "core") }
    ensures asked { IfOk result (λ r. IfSome r (λ q. IsAsked (map string_bytes words.now) (asked q))) }
    ensures unread { IfOk result (λ r. IfNone r (IsUnread (map string_bytes words.now))) }
{
    let command = make_of_problem(alloc, "core")?;
    match matches_of(command, words)? {
        Some(matches) => Ok(core_request(&matches)),
        None => Ok(None),
    }
}

// ---- all commands

// What the words ask, of which this is the first.
fn read_command<'a>(
    alloc: Global,
    word: &str,
    words: &'a [String],
) -> Result<Option<Request<'a>>, Memory>
    requires { slice_get (map string_bytes words.now) 0 ≡ Some word.now }
    ensures asked { IfOk result (λ r. IfSome r (λ q. IsAsked (map string_bytes words.now) (asked q))) }
    ensures unread { IfOk result (λ r. IfNone r (IsUnread (map string_bytes words.now))) }
{
    match word {
        "prove" => read_prove(alloc, words),
        "sat" => read_sat(alloc, words),
        "check" => read_check(alloc, words),
        "ask" => read_ask(alloc, words),
        "stress" => read_stress(alloc, words),
        "qbf" => read_qbf(alloc, words),
        "fmodel" => read_fmodel(alloc, words),
        "core" => read_core(alloc, words),
        _ => Ok(None),
    }
}

/// What the words ask, of which the first is the command word and not the program's name; `None` where they ask nothing.
pub fn read_words(alloc: Global, words: &[String]) -> Result<Option<Request<'_>>, Memory>
    ensures asked { IfOk result (λ r. IfSome r (λ q. IsAsked (map string_bytes words.now) (asked q))) }
    ensures unread { IfOk result (λ r. IfNone r (IsUnread (map string_bytes words.now))) }
{
    match words.first() {
        Some(word) => read_command(alloc, word.as_str(), words),
        None => Ok(None),
    }
}
