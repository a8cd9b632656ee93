// What comes of what the words ask, what is told of it or why there is nothing, and how the program ends with it, command by command.
// Only here an answer meets the sink. A text is whole before its first byte is written, or is told in pieces that take no memory.
ghost use Rattle.std.specs.Prelude.{◌≡◌, codes};
ghost use Rattle.outside_io.specs.Notices.{notice_text};
ghost use Rattle.outside_io.specs.Pieces.{text_of};
ghost use Rattle.outside_io.specs.declared.notices.Status.TheVariants as status;
ghost use Rattle.szs_prove.specs.Answered.{ask_exit, ask_text, check_exit, check_text, exit_for, problem_exit, judgement_exit, qbf_exit, qbf_text, reply_exit, rewriting_exit, rewriting_text, sat_exit, sat_text, stress_exit, stress_text, text_for, problem_text, unjudged_reason, unjudged_status, value_exit, value_text};
ghost use Rattle.szs_prove.specs.Texts.{want_text};
ghost use Rattle.szs_prove.specs.Written.{IsWritten, exit_after};

use crate::exit::{Exit, exit_of};
use crate::formula::FormulaAnswer;
use crate::refusal::{Refusal, load_reason, load_status};
use crate::sizes::{Size, size_lines};
use cert_front::{
    CertFault, CheckFault, Form, Judgement, Reply, Rewriting, judgement_line, reply_line,
};
use dimacs_front::{SatAnswer, SatError};
use inst_logic::{ByteList, Memory};
use outside_io::{
    Line, Pieces, Sink, Status, Trouble, notice, one_line, text_line, whole_text, write_pieces,
};

/// What comes of what the words ask. Each but the last two and `Rewrite` is that of the command of its name.
#[derive(Drop)]
pub enum Answer {
    /// The text of a verdict.
    Prove(Result<ByteList, Refusal>),
    Sat(Result<SatAnswer, SatError>),
    Check(Result<(Form, Judgement), CheckFault>),
    /// The answer of `check` with the flag that asks for the certificate in the newest format.
    Rewrite(Result<Rewriting, CheckFault>),
    Ask(Result<Reply, CertFault>),
    Stress(Result<Size, Memory>),
    Qbf(Result<FormulaAnswer, SatError>),
    /// The text of tables, or of that there are none.
    Fmodel(Result<ByteList, Refusal>),
    /// The text of a core, or of that there is none.
    Core(Result<ByteList, Refusal>),
    /// The words ask nothing.
    Unread,
    /// Memory was wanted before the words were read.
    NoWords,
}

impl Answer {
    // What is told of it, under this name.
    fn pieces<'a>(&'a self, name: &'a [u8]) -> Pieces<'a>
        ensures { text_of result ≡ text_for name.now self.now }
    {
        match self {
            Answer::Prove(outcome) => problem_pieces(name, outcome),
            Answer::Sat(outcome) => sat_pieces(name, outcome),
            Answer::Check(outcome) => check_pieces(name, outcome),
            Answer::Rewrite(outcome) => rewriting_pieces(name, outcome),
            Answer::Ask(outcome) => ask_pieces(name, outcome),
            Answer::Stress(outcome) => stress_pieces(name, outcome),
            Answer::Qbf(outcome) => qbf_pieces(name, outcome),
            Answer::Fmodel(outcome) => problem_pieces(name, outcome),
            Answer::Core(outcome) => problem_pieces(name, outcome),
            Answer::Unread => usage(name),
            Answer::NoWords => want(name),
        }
    }

    // How the program ends once that is written whole.
    fn exit(&self) -> Exit
        ensures { result ≡ exit_for self.now }
    {
        match self {
            Answer::Prove(outcome) => problem_exit(outcome),
            Answer::Sat(outcome) => sat_exit(outcome),
            Answer::Check(outcome) => check_exit(outcome),
            Answer::Rewrite(outcome) => rewriting_exit(outcome),
            Answer::Ask(outcome) => ask_exit(outcome),
            Answer::Stress(outcome) => stress_exit(outcome),
            Answer::Qbf(outcome) => qbf_exit(outcome),
            Answer::Fmodel(outcome) => problem_exit(outcome),
            Answer::Core(outcome) => problem_exit(outcome),
            Answer::Unread => Exit::Usage,
            Answer::NoWords => Exit::Memory,
        }
    }
}

// The exit for a text that was written like this, and that is to end like that.
fn exit_after(written: Result<(), Trouble>, wanted: Exit) -> Exit
    ensures { result ≡ exit_after written wanted }
{
    match written {
        Ok(()) => wanted,
        Err(Trouble::Failed) => Exit::WriteFault,
        Err(Trouble::Memory) => Exit::Memory,
    }
}

/// Writes what is told of the answer under this name, and gives the exit. It takes no memory.
pub fn tell<K: Sink>(out: &mut K, name: &[u8], answer: &Answer) -> Exit
    ensures { IsWritten (K.seen out.old) (K.seen out.new) (text_for name.now answer.now) (exit_for answer.now) result }
{
    let pieces = answer.pieces(name);
    let written = write_pieces(out, &pieces);
    exit_after(written, answer.exit())
}

// ---- all commands

// The line that tells that memory is wanted.
fn want(name: &[u8]) -> Pieces<'_>
    ensures { text_of result ≡ want_text name.now }
{
    notice(Status::MemoryOut, name, text_line(b""))
}

// The line that tells that the words are not read.
fn usage(name: &[u8]) -> Pieces<'_>
    ensures { text_of result ≡ notice_text status.UsageError name.now (codes "% usage\n") }
{
    notice(Status::UsageError, name, text_line(b"% usage\n"))
}

// ---- prove, fmodel, core

fn problem_pieces<'a>(name: &'a [u8], outcome: &'a Result<ByteList, Refusal>) -> Pieces<'a>
    ensures { text_of result ≡ problem_text name.now outcome.now }
{
    match outcome {
        Ok(text) => whole_text(text.as_slice()),
        Err(why) => notice(why.status(), name, why.reason()),
    }
}

fn problem_exit(outcome: &Result<ByteList, Refusal>) -> Exit
    ensures { result ≡ problem_exit outcome.now }
{
    match outcome {
        Ok(_) => Exit::Decided,
        Err(why) => exit_of(why.status()),
    }
}

// ---- sat

fn sat_pieces<'a>(name: &'a [u8], outcome: &'a Result<SatAnswer, SatError>) -> Pieces<'a>
    ensures { text_of result ≡ sat_text name.now outcome.now }
{
    match outcome {
        Ok(SatAnswer::Satisfiable(text)) => whole_text(text.as_slice()),
        Ok(SatAnswer::Unsatisfiable(text)) => whole_text(text.as_slice()),
        Err(error) => notice(error.status(), name, error.reason(name)),
    }
}

fn sat_exit(outcome: &Result<SatAnswer, SatError>) -> Exit
    ensures { result ≡ sat_exit outcome.now }
{
    match outcome {
        Ok(SatAnswer::Satisfiable(_)) => Exit::Sat,
        Ok(SatAnswer::Unsatisfiable(_)) => Exit::Unsat,
        Err(error) => exit_of(error.status()),
    }
}

// ---- check, with or without its rewriting

fn unjudged_status(why: &CheckFault) -> Status
    ensures { result ≡ unjudged_status why.now }
{
    match why {
        CheckFault::Cert(fault) => fault.status(),
        CheckFault::Problem(error) => load_status(error),
        CheckFault::Memory => Status::MemoryOut,
    }
}

// Where the problem is refused, its reason stands under the certificate's name.
fn unjudged_reason<'a>(name: &'a [u8], why: &'a CheckFault) -> Line<'a>
    ensures { text_of result ≡ unjudged_reason name.now why.now }
{
    match why {
        CheckFault::Cert(fault) => fault.reason(name),
        CheckFault::Problem(error) => load_reason(error),
        CheckFault::Memory => text_line(b""),
    }
}

fn judgement_exit(judgement: Judgement) -> Exit
    ensures { result ≡ judgement_exit judgement }
{
    match judgement {
        Judgement::Valid => Exit::Decided,
        Judgement::Problem { .. } | Judgement::Invalid(_) => Exit::CheckFailed,
    }
}

fn check_pieces<'a>(
    name: &'a [u8],
    outcome: &'a Result<(Form, Judgement), CheckFault>,
) -> Pieces<'a>
    ensures { text_of result ≡ check_text name.now outcome.now }
{
    match outcome {
        Ok(found) => one_line(judgement_line(found.0, found.1)),
        Err(why) => notice(unjudged_status(why), name, unjudged_reason(name, why)),
    }
}

fn check_exit(outcome: &Result<(Form, Judgement), CheckFault>) -> Exit
    ensures { result ≡ check_exit outcome.now }
{
    match outcome {
        Ok(found) => judgement_exit(found.1),
        Err(why) => exit_of(unjudged_status(why)),
    }
}

fn rewriting_pieces<'a>(name: &'a [u8], outcome: &'a Result<Rewriting, CheckFault>) -> Pieces<'a>
    ensures { text_of result ≡ rewriting_text name.now outcome.now }
{
    match outcome {
        Ok(Rewriting::Text(text)) => whole_text(text.as_slice()),
        Ok(Rewriting::Refused(form, judgement)) => one_line(judgement_line(*form, *judgement)),
        Err(why) => notice(unjudged_status(why), name, unjudged_reason(name, why)),
    }
}

fn rewriting_exit(outcome: &Result<Rewriting, CheckFault>) -> Exit
    ensures { result ≡ rewriting_exit outcome.now }
{
    match outcome {
        Ok(Rewriting::Text(_)) => Exit::Decided,
        Ok(Rewriting::Refused(_, judgement)) => judgement_exit(*judgement),
        Err(why) => exit_of(unjudged_status(why)),
    }
}

// ---- ask

fn ask_pieces<'a>(name: &'a [u8], outcome: &'a Result<Reply, CertFault>) -> Pieces<'a>
    ensures { text_of result ≡ ask_text name.now outcome.now }
{
    match outcome {
        Ok(reply) => one_line(reply_line(*reply)),
        Err(fault) => notice(fault.status(), name, fault.reason(name)),
    }
}

fn reply_exit(reply: Reply) -> Exit
    ensures { result ≡ reply_exit reply }
{
    match reply {
        Reply::True | Reply::False => Exit::Decided,
        Reply::Invalid(_) => Exit::CheckFailed,
    }
}

fn ask_exit(outcome: &Result<Reply, CertFault>) -> Exit
    ensures { result ≡ ask_exit outcome.now }
{
    match outcome {
        Ok(reply) => reply_exit(*reply),
        Err(fault) => exit_of(fault.status()),
    }
}

// ---- stress

fn stress_pieces<'a>(name: &'a [u8], outcome: &'a Result<Size, Memory>) -> Pieces<'a>
    ensures { text_of result ≡ stress_text name.now outcome.now }
{
    match outcome {
        Ok(size) => one_line(size_lines(*size)),
        Err(Memory) => want(name),
    }
}

fn stress_exit(outcome: &Result<Size, Memory>) -> Exit
    ensures { result ≡ stress_exit outcome.now }
{
    match outcome {
        Ok(_) => Exit::Decided,
        Err(Memory) => Exit::Memory,
    }
}

// ---- qbf

fn value_text(found: &FormulaAnswer) -> &[u8]
    ensures { result.now ≡ value_text found.now }
{
    match found {
        FormulaAnswer::True(text) => text.as_slice(),
        FormulaAnswer::False(text) => text.as_slice(),
    }
}

fn value_exit(found: &FormulaAnswer) -> Exit
    ensures { result ≡ value_exit found.now }
{
    match found {
        FormulaAnswer::True(_) => Exit::Sat,
        FormulaAnswer::False(_) => Exit::Unsat,
    }
}

fn qbf_pieces<'a>(name: &'a [u8], outcome: &'a Result<FormulaAnswer, SatError>) -> Pieces<'a>
    ensures { text_of result ≡ qbf_text name.now outcome.now }
{
    match outcome {
        Ok(found) => whole_text(value_text(found)),
        Err(error) => notice(error.status(), name, error.reason(name)),
    }
}

fn qbf_exit(outcome: &Result<FormulaAnswer, SatError>) -> Exit
    ensures { result ≡ qbf_exit outcome.now }
{
    match outcome {
        Ok(found) => value_exit(found),
        Err(error) => exit_of(error.status()),
    }
}
