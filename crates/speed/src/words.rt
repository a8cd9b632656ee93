// What the words ask for.
use crate::asking::Queries;
use crate::atoms::Kind;
use std::alloc::Global;
use std::env;
use std::env::Env;

/// The part that is to run, and on what.
#[derive(Clone, Copy)]
pub enum Task<'a> {
    Index(Queries),
    Engine { file: &'a str, budget: u32 },
}

/// The words of the command line, the program's name among them.
pub fn words<E: Env>(env: &E, alloc: Global) -> Option<Vec<String>> {
    let mut all = Vec::new(alloc);
    for word in env::args(&(env, alloc)).ok()? {
        all.push(word).ok()?;
    }
    Some(all)
}

fn number(words: &[String], place: usize) -> Option<usize> {
    words.get(place)?.parse::<usize>().ok()
}

fn kind_of(word: &str) -> Option<Kind> {
    match word {
        "unary" => Some(Kind::Unary),
        "first" => Some(Kind::First),
        "second" => Some(Kind::Second),
        _ => None,
    }
}

fn queries_of(words: &[String]) -> Option<Queries> {
    Some(Queries {
        kind: kind_of(words.get(2)?.as_str())?,
        constants: number(words, 3)?,
        stored: number(words, 4)?,
        rounds: number(words, 5)?,
    })
}

/// What the words behind the program's name ask for.
pub fn task_of(words: &[String]) -> Option<Task> {
    match words.get(1)?.as_str() {
        "index" => Some(Task::Index(queries_of(words)?)),
        "engine" => Some(Task::Engine {
            file: words.get(2)?.as_str(),
            budget: words.get(3)?.parse::<u32>().ok()?,
        }),
        _ => None,
    }
}
