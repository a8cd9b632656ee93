// The top call.
ghost use Rattle.std.specs.Prelude.{◌≡◌, IfNone, IfSome, map, string_bytes};
ghost use Rattle.outside_io.specs.Causes.{Rose};
ghost use Rattle.outside_io.specs.Told.{Follows};
ghost use Rattle.command_words.specs.Asked.{IsAsked, IsUnread, asked, check, name_of};
ghost use Rattle.szs_prove.specs.Answered.{Answered, AnsweredUnder, AsksAtom, AsksChain, AsksCheck, AsksClauses, AsksCore, AsksFormula, AsksModel, AsksProof, AsksRewriting, EndsChain, IsAnswer, IsExact, IsInterrupted, TellsValue, TookCertificate, WantsMemory, WritesCertificate, WritesComplaint, WritesCore, WritesFormula, WritesJudgement, WritesModel, WritesNumbers, WritesReply, WritesRewriting, WritesSize, WritesSolved, name_for, writing};
ghost use Rattle.szs_prove.specs.Answers.{reading};

use crate::answer::{Answer, tell};
use crate::cores::core_file;
use crate::deciding::stress;
use crate::exit::Exit;
use crate::formula::answer_formula_file;
use crate::model::model_file;
use crate::prove::prove;
use cert_front::{ask_file, atoms_are_variable_free, check_file, findings_are_one, rewrite_file};
use command_words::laws::asked_once;
use command_words::{Request, read_words};
use dimacs_front::answer_file;
use dimacs_front::laws::{formula_or_refused, one_spelling, read_or_refused};
use inst_logic::Memory;
use outside_io::{Library, Sink};
use std::alloc::Global;
use tptp_load::laws::one_loading;

// The name that the answer speaks of.
fn name_of<'a>(request: &Request<'a>) -> &'a str
    ensures { result.now ≡ name_of (asked request.now) }
{
    match request {
        Request::Prove { file, .. } => *file,
        Request::Sat { file } => *file,
        Request::Check { cert, .. } => *cert,
        Request::Rewrite { cert, .. } => *cert,
        Request::Ask { cert, .. } => *cert,
        Request::Stress { .. } => "stress",
        Request::Qbf { file } => *file,
        Request::Fmodel { file, .. } => *file,
        Request::Core { file, .. } => *file,
    }
}

// What comes of what is asked, each command by its own call.
fn answer<L: Library>(
    alloc: Global,
    request: Request<'_>,
    _words: &[String],
    files: &mut L,
) -> Answer
    requires { IsAsked (map string_bytes _words.now) (asked request) }
    ensures follows { Follows (L.told files.old) (L.told files.new) }
    ensures answer { IsAnswer (map string_bytes _words.now) (reading (L.told files.old) (L.told files.new)) (name_of (asked request.entry)) result }
{
    asked_once();
    atoms_are_variable_free();
    match request {
        Request::Prove { file, root, budget } => {
            Answer::Prove(prove(alloc, file, root, budget, files))
        }
        Request::Sat { file } => Answer::Sat(answer_file(alloc, files, file)),
        Request::Check {
            cert,
            problem,
            root,
        } => Answer::Check(check_file(alloc, files, cert, problem, root)),
        Request::Rewrite {
            cert,
            problem,
            root,
        } => Answer::Rewrite(rewrite_file(alloc, files, cert, problem, root)),
        Request::Ask { cert, atom } => Answer::Ask(ask_file(alloc, files, cert, &atom)),
        Request::Stress { number } => Answer::Stress(stress(alloc, number)),
        Request::Qbf { file } => Answer::Qbf(answer_formula_file(alloc, files, file)),
        Request::Fmodel {
            elements,
            file,
            root,
        } => Answer::Fmodel(model_file(alloc, elements, file, root, files)),
        Request::Core { file, root } => Answer::Core(core_file(alloc, file, root, files)),
    }
}

// Answers what the words ask, or tells that they ask nothing. An answer to a request is under its name, also where memory is wanted.
fn answer_request<L: Library, K: Sink>(
    alloc: Global,
    request: Option<Request<'_>>,
    words: &[String],
    files: &mut L,
    out: &mut K,
) -> Exit
    requires asked { IfSome request (λ q. IsAsked (map string_bytes words.now) (asked q)) }
    requires unread { IfNone request (IsUnread (map string_bytes words.now)) }
    ensures follows { Follows (L.told files.old) (L.told files.new) }
    ensures answered { AnsweredUnder (name_for request.entry) (map string_bytes words.now) (reading (L.told files.old) (L.told files.new)) (writing (K.seen out.old) (K.seen out.new)) result }
{
    match request {
        Some(request) => {
            let name = name_of(&request);
            let answer = answer(alloc, request, words, files);
            let exit = tell(out, name.as_bytes(), &answer);
            // Let go by a call: where the scope of so many cases ends, the proof takes long.
            drop(answer);
            exit
        }
        None => tell(out, b"instgen", &Answer::Unread),
    }
}

// Reads the words and answers what they ask. Where memory is wanted before they are read, no file has a name yet.
fn answer_words<L: Library, K: Sink>(
    alloc: Global,
    words: &[String],
    files: &mut L,
    out: &mut K,
) -> Exit
    ensures follows { Follows (L.told files.old) (L.told files.new) }
    ensures answered { Answered (map string_bytes words.now) (reading (L.told files.old) (L.told files.new)) (writing (K.seen out.old) (K.seen out.new)) result }
{
    match read_words(alloc, words) {
        Ok(request) => answer_request(alloc, request, words, files, out),
        Err(Memory) => tell(out, b"instgen", &Answer::NoWords),
    }
}

/// Reads the words, and the files that they name, does what the words ask, and writes the answer.
pub fn run<L: Library, K: Sink>(alloc: Global, words: &[String], files: &mut L, out: &mut K) -> Exit
    // The library's files stay.
    ensures follows { Follows (L.told files.old) (L.told files.new) }
    // There is an answer with its cause, and the exit and what was taken are that answer's.
    ensures answered { Answered (map string_bytes words.now) (reading (L.told files.old) (L.told files.new)) (writing (K.seen out.old) (K.seen out.new)) result }
    // Where the files are told, the exit is one that is wanted in some situation that stands, and in each that stands it is one
    // that is wanted there, but for faults and memory.
    ensures exact { IfSome (L.told files.old).files (λ all. IsExact (map string_bytes words.now) all (reading (L.told files.old) (L.told files.new)) (writing (K.seen out.old) (K.seen out.new)) result) }
    // A verdict is written as the text of a certificate, which shows what its status says, and comes from a run.
    ensures decided { AsksProof (map string_bytes words.now) → result ≡ Exit.Decided → WritesCertificate (map string_bytes words.now) (L.told files.old).files (K.seen out.old).taken (K.seen out.new).taken }
    // And where the text of a printable certificate was taken whole, the answer was written whole.
    ensures verdict { TookCertificate (K.seen out.old).taken (K.seen out.new).taken → result ≡ Exit.Decided }
    // A budget that ran out is told by the numbers of a run that ended for want of it.
    ensures resource_out { result ≡ Exit.ResourceOut → WritesNumbers (map string_bytes words.now) (L.told files.old).files (K.seen out.old).taken (K.seen out.new).taken }
    // A certificate that is checked is told to be valid only where it is, and one of the problem where one is named.
    ensures checked { AsksCheck (map string_bytes words.now) → result ≡ Exit.Decided → WritesJudgement check (map string_bytes words.now) (L.told files.old).files (K.seen out.old).taken (K.seen out.new).taken Exit.Decided }
    // And a certificate is written in the newest format, under its own name, only where it is.
    ensures rewritten { AsksRewriting (map string_bytes words.now) → result ≡ Exit.Decided → WritesRewriting (map string_bytes words.now) (L.told files.old).files (K.seen out.old).taken (K.seen out.new).taken }
    // An atom is told to be true or false by a saturation that is valid.
    ensures asked { AsksAtom (map string_bytes words.now) → result ≡ Exit.Decided → WritesReply (map string_bytes words.now) (L.told files.old).files (K.seen out.old).taken (K.seen out.new).taken Exit.Decided }
    // What is complained of a certificate is the first that applies.
    ensures check_failed { result ≡ Exit.CheckFailed → WritesComplaint (map string_bytes words.now) (L.told files.old).files (K.seen out.old).taken (K.seen out.new).taken }
    // Of a chain the size of a valid refutation is told.
    ensures stressed { AsksChain (map string_bytes words.now) → result ≡ Exit.Decided → WritesSize (map string_bytes words.now) (K.seen out.old).taken (K.seen out.new).taken }
    // A chain ends so whatever the library tells.
    ensures chain { AsksChain (map string_bytes words.now) → EndsChain result }
    // Of clauses in the DIMACS form truth values are told that make them true, or a derivation that there are none.
    ensures solved { AsksClauses (map string_bytes words.now) → TellsValue result → WritesSolved (map string_bytes words.now) (L.told files.old).files (K.seen out.old).taken (K.seen out.new).taken result }
    // Of a formula its value is told, with the certificate that shows it.
    ensures formula { AsksFormula (map string_bytes words.now) → TellsValue result → WritesFormula (map string_bytes words.now) (L.told files.old).files (K.seen out.old).taken (K.seen out.new).taken result }
    // Of models with so many elements one is written, or the refutation that shows that there are none.
    ensures model { AsksModel (map string_bytes words.now) → result ≡ Exit.Decided → WritesModel (map string_bytes words.now) (L.told files.old).files (K.seen out.old).taken (K.seen out.new).taken }
    // A core is told with the certificates that show that it is one, or that there is none.
    ensures core { AsksCore (map string_bytes words.now) → result ≡ Exit.Decided → WritesCore (map string_bytes words.now) (L.told files.old).files (K.seen out.old).taken (K.seen out.new).taken }
    ensures usage { result ≡ Exit.Usage → IsUnread (map string_bytes words.now) }
    ensures read_fault { result ≡ Exit.ReadFault → Rose (L.told files.old).faults (L.told files.new).faults }
    ensures write_fault { result ≡ Exit.WriteFault → Rose (K.seen out.old).faults (K.seen out.new).faults }
    // Where writing failed, a prefix of the answer's text was taken.
    ensures interrupted { result ≡ Exit.WriteFault → IsInterrupted (map string_bytes words.now) (reading (L.told files.old) (L.told files.new)) (K.seen out.old).taken (K.seen out.new).taken }
    // Where memory is wanted, the text that says so was taken, whole, under the name of what the words ask, or under the program's
    // where the library was not called; but where the sink may want memory, that may be a prefix of an answer's text.
    ensures memory { result ≡ Exit.Memory → WantsMemory (map string_bytes words.now) (reading (L.told files.old) (L.told files.new)) (writing (K.seen out.old) (K.seen out.new)) }
{
    one_loading();
    asked_once();
    findings_are_one();
    one_spelling();
    read_or_refused();
    formula_or_refused();
    answer_words(alloc, words, files, out)
}
