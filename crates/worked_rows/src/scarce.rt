// Runs in which a write wants memory: nothing more is written then.
ghost use Rattle.std.specs.Prelude.{None, true};

use crate::runs::{answer_of, files_of, told_of, words_of};
use inst_logic::Memory;
use outside_io::{Sink, SureLibrary, Trouble};
use std::alloc::Global;
use std::test::Fail;
use szs_prove::run;

const FILES: &str = "\
r.p@cnf(one,axiom,p(X)). cnf(two,axiom,~p(c)).@\
d.cnf@p cnf 1 1\n1 0\n";

// An output that takes 16 bytes at most at a time, and refuses each write after the first ones.
#[derive(Drop)]
struct ScarceSink {
    bytes: Vec<u8>,
    left: usize,
    refusals: usize,
}

impl Sink for ScarceSink {
    ghost seen = { λ s. record { taken = None; faults = 0; may_want = true } };

    fn write(&mut self, piece: &[u8]) -> Result<usize, Trouble> {
        if self.left == 0 {
            self.refusals = self.refusals.saturating_add(1);
            return Err(Trouble::Memory);
        }
        self.left -= 1;
        let count = piece.len().min(16);
        match self.bytes.extend_from_slice(&piece[..count]) {
            Ok(()) => Ok(count),
            Err(_) => Err(Trouble::Memory),
        }
    }
}

// How many writes were refused in the answer to the words, with the exit and what was taken before.
fn refused(alloc: Global, words: &str, left: usize) -> Result<(usize, Vec<u8>), Memory> {
    let words = words_of(alloc, words)?;
    let mut library = SureLibrary::new(alloc, files_of(alloc, FILES)?);
    let mut out = ScarceSink {
        bytes: Vec::new(alloc),
        left,
        refusals: 0,
    };
    let exit = run(alloc, words.as_slice(), &mut library, &mut out);
    let told = told_of(alloc, exit, out.bytes.as_slice())?;
    Ok((out.refusals, told))
}

// Whether one write is refused, the status is that of memory that is wanted, and a front of the text was taken.
fn is_left_off(found: &(usize, Vec<u8>), text: &[u8]) -> bool {
    match found.1.strip_prefix(b"6 ") {
        Some(taken) => found.0 == 1 && text.starts_with(taken) && taken.len() < text.len(),
        None => false,
    }
}

// Whether writing ends with the first refusal, whichever of so many writes it is.
fn each_ends(alloc: Global, words: &str, text: &[u8], writes: usize) -> Result<bool, Memory> {
    for left in 0..writes {
        if !is_left_off(&refused(alloc, words, left)?, text) {
            return Ok(false);
        }
    }
    let whole = refused(alloc, words, writes)?;
    Ok(whole.0 == 0)
}

// Whether writing ends with the first refusal for an answer that has this status, which is written by so many writes, or by as
// many as take a text that is whole.
fn all_end(
    alloc: Global,
    words: &str,
    status: &str,
    writes: Option<usize>,
) -> Result<bool, Memory> {
    let answer = answer_of(alloc, words, files_of(alloc, FILES)?)?;
    match answer.strip_prefix(status.as_bytes()) {
        Some(text) => {
            let whole = text.len().saturating_add(15) / 16;
            each_ends(alloc, words, text, writes.unwrap_or(whole))
        }
        None => Ok(false),
    }
}

fn all_answers_end(alloc: Global) -> Result<[bool; 4], Memory> {
    Ok([
        all_end(alloc, "|prove|r.p", "0 ", None)?,
        all_end(alloc, "|sat|d.cnf", "10 ", None)?,
        all_end(alloc, "|check|d", "2 ", Some(8))?,
        all_end(alloc, "|stress|2", "0 ", Some(9))?,
    ])
}

#[test]
fn writes_that_want_memory(rt: HostRuntime) -> Result<(), Fail> {
    assert_eq!(rt; all_answers_end(rt.alloc())?, [true; 4]);
    Ok(())
}
