// The problem of a file, or why it has no answer, and what is told of that. All commands that begin with such a problem load and
// refuse by this.
ghost use Rattle.std.specs.Prelude.{◌≡◌, ◌∷◌, [], codes, IfErr, IfOk};
ghost use Rattle.std.specs.List.{concat};
ghost use Rattle.outside_io.specs.Pieces.{bytes_of, text_of};
ghost use Rattle.outside_io.specs.Told.{Follows};
ghost use Rattle.tptp_load.specs.Includes.{path_of};
ghost use Rattle.szs_prove.specs.Answers.{IsProblemOf, IsUnloaded, reading};
ghost use Rattle.szs_prove.specs.Texts.{budget_line, functions_line, load_reason, load_status, reason_line, reason_of, reason_status, statement_line, status_of, text_reason, text_status, which_word};
ghost use Rattle.szs_prove.specs.declared.refusal.Refusal.TheVariants as why;

use inst_logic::{Memory, Name, Problem};
use outside_io::{Library, Line, Piece, Status, text_line};
use std::alloc::Global;
use tptp_load::LoadError;
use tptp_read::{ReadError, Which};

/// Why a problem that was loaded has no answer.
#[derive(Clone, Copy, Debug, PartialEq, Eq)]
pub enum Reason {
    /// No conclusion that is open fits into what is left of the budget; the size of the least of them is wanted. All three
    /// count symbols and variables.
    OutOfBudget { budget: u64, left: u64, wanted: u64 },
    /// The tables of a model would have more than a million cells.
    TooWide,
    /// No core is searched for: the first clause that has a function symbol with arguments, counted from 1.
    Functions { clause: usize },
}

/// Why the problem of a file has no answer.
#[derive(Debug, Drop)]
pub enum Refusal {
    /// The file gives no problem. The error is never want of memory.
    Load(LoadError),
    /// The problem has no answer.
    Unanswered(Reason),
    Memory,
}

impl From<Memory> for Refusal {
    ghost from_gives = { λ _ r. r ≡ why.Memory };

    fn from(_e: Memory) -> Refusal {
        Refusal::Memory
    }
}

/// The problem of the file. The root is where includes are tried too.
pub(crate) fn problem_of_file<L: Library>(
    alloc: Global,
    file: &str,
    root: Option<&str>,
    files: &mut L,
) -> Result<Problem, Refusal>
    ensures follows { Follows (L.told files.old) (L.told files.new) }
    ensures ok { IfOk result (IsProblemOf (L.told files.old).files file.now (path_of root.entry)) }
    ensures err { IfErr result (IsUnloaded (reading (L.told files.old) (L.told files.new)) file.now (path_of root.entry)) }
{
    match tptp_load::load(alloc, files, file, root) {
        Ok(problem) => Ok(problem),
        Err(LoadError::Memory) => Err(Refusal::Memory),
        Err(error) => Err(Refusal::Load(error)),
    }
}

fn text_status(fault: &ReadError) -> Status
    ensures { result ≡ text_status fault.now }
{
    match fault {
        ReadError::Syntax { .. } => Status::SyntaxError,
        ReadError::Language { .. } | ReadError::Feature { .. } | ReadError::Role { .. } => {
            Status::Inappropriate
        }
        ReadError::Limit { .. } => Status::InputError,
        ReadError::Memory => Status::MemoryOut,
    }
}

/// The status that is told of a file that gives no problem.
pub fn load_status(error: &LoadError) -> Status
    ensures { result ≡ load_status error.now }
{
    match error {
        LoadError::Text { fault, .. } => text_status(fault),
        LoadError::Absent { .. }
        | LoadError::NotSelected { .. }
        | LoadError::IncludeDepth { .. }
        | LoadError::TooLong => Status::InputError,
        LoadError::ReadFault => Status::OsError,
        LoadError::Memory => Status::MemoryOut,
    }
}

// A lead and a name in a line.
fn name_line<'a>(lead: &'a [u8], name: &'a [u8]) -> Line<'a>
    ensures { text_of result ≡ concat (lead.now ∷ name.now ∷ codes "\n" ∷ []) }
{
    let none = Piece::Text(b"");
    [
        Piece::Text(lead),
        Piece::Text(name),
        Piece::Text(b"\n"),
        none,
        none,
        none,
        none,
    ]
}

// A lead, a word, and where their statement stands.
fn statement_line<'a>(lead: &'a [u8], word: &'a [u8], statement: usize, file: &'a [u8]) -> Line<'a>
    ensures { text_of result ≡ statement_line lead.now word.now statement file.now }
{
    [
        Piece::Text(lead),
        Piece::Text(word),
        Piece::Text(b": statement "),
        Piece::Number(statement as u64),
        Piece::Text(b" of "),
        Piece::Text(file),
        Piece::Text(b"\n"),
    ]
}

// A line that names a word of the text, and where its statement stands.
fn said_line<'a>(lead: &'a [u8], word: &'a Name, statement: usize, file: &'a [u8]) -> Line<'a>
    ensures { text_of result ≡ statement_line lead.now word.now statement file.now }
{
    statement_line(lead, word.bytes(), statement, file)
}

// A limit, and where the statement stands that passes it.
fn limit_line(which: Which, statement: usize, file: &[u8]) -> Line<'_>
    ensures { text_of result ≡ statement_line (codes "% limit ") (which_word which) statement file.now }
{
    match which {
        Which::Nesting => statement_line(b"% limit ", b"nesting", statement, file),
        Which::Arity => statement_line(b"% limit ", b"arity", statement, file),
        Which::Variables => statement_line(b"% limit ", b"variables", statement, file),
    }
}

// The reason why a text is not read.
fn text_reason<'a>(file: &'a [u8], fault: &'a ReadError) -> Line<'a>
    ensures { text_of result ≡ text_reason file.now fault.now }
{
    match fault {
        ReadError::Syntax { statement } => statement_line(b"% syntax", b"", *statement, file),
        ReadError::Language { statement, word } => {
            said_line(b"% language ", word, *statement, file)
        }
        ReadError::Feature { statement, word } => {
            said_line(b"% feature ", word, *statement, file)
        }
        ReadError::Role { statement, word } => said_line(b"% role ", word, *statement, file),
        ReadError::Limit { statement, which } => limit_line(*which, *statement, file),
        ReadError::Memory => text_line(b""),
    }
}

// A name that was wanted of a file.
fn selection_line<'a>(wanted: &'a [u8], file: &'a [u8]) -> Line<'a>
    ensures { text_of result ≡ concat (codes "% not selected: " ∷ wanted.now ∷ codes " in " ∷ file.now ∷ codes "\n" ∷ []) }
{
    let none = Piece::Text(b"");
    [
        Piece::Text(b"% not selected: "),
        Piece::Text(wanted),
        Piece::Text(b" in "),
        Piece::Text(file),
        Piece::Text(b"\n"),
        none,
        none,
    ]
}

/// The line that tells why a file gives no problem. Want of memory has none.
pub fn load_reason(error: &LoadError) -> Line<'_>
    ensures { text_of result ≡ load_reason error.now }
{
    match error {
        LoadError::Text { file, fault } => text_reason(file.bytes(), fault),
        LoadError::Absent { wanted } => name_line(b"% absent: ", wanted.bytes()),
        LoadError::NotSelected { file, wanted } => selection_line(wanted.bytes(), file.bytes()),
        LoadError::IncludeDepth { file } => name_line(b"% limit include depth: ", file.bytes()),
        LoadError::TooLong => text_line(b"% limit bytes\n"),
        LoadError::ReadFault => text_line(b"% read fault\n"),
        LoadError::Memory => text_line(b""),
    }
}

// The numbers of a run that ended for want of budget.
fn budget_line<'a>(budget: u64, left: u64, wanted: u64) -> Line<'a>
    ensures { text_of result ≡ budget_line budget left wanted }
{
    [
        Piece::Text(b"% budget "),
        Piece::Number(budget),
        Piece::Text(b", left "),
        Piece::Number(left),
        Piece::Text(b", least conclusion "),
        Piece::Number(wanted),
        Piece::Text(b"\n"),
    ]
}

// The number of the first clause that has functions.
fn functions_line<'a>(clause: usize) -> Line<'a>
    ensures { text_of result ≡ functions_line clause }
{
    let none = Piece::Text(b"");
    [
        Piece::Text(b"% functions: clause "),
        Piece::Number(clause as u64),
        Piece::Text(b"\n"),
        none,
        none,
        none,
        none,
    ]
}

impl Reason {
    fn status(self) -> Status
        ensures { result ≡ reason_status self }
    {
        match self {
            Reason::OutOfBudget { .. } => Status::ResourceOut,
            Reason::TooWide => Status::InputError,
            Reason::Functions { .. } => Status::Inappropriate,
        }
    }

    fn line<'a>(self) -> Line<'a>
        ensures { text_of result ≡ reason_line self }
    {
        match self {
            Reason::OutOfBudget {
                budget,
                left,
                wanted,
            } => budget_line(budget, left, wanted),
            Reason::TooWide => text_line(b"% limit tables\n"),
            Reason::Functions { clause } => functions_line(clause),
        }
    }
}

impl Refusal {
    /// The status that is told.
    pub fn status(&self) -> Status
        ensures { result ≡ status_of self.now }
    {
        match self {
            Refusal::Load(error) => load_status(error),
            Refusal::Unanswered(reason) => reason.status(),
            Refusal::Memory => Status::MemoryOut,
        }
    }

    /// The line that tells the reason. Want of memory has none.
    pub fn reason(&self) -> Line<'_>
        ensures { text_of result ≡ reason_of self.now }
    {
        match self {
            Refusal::Load(error) => load_reason(error),
            Refusal::Unanswered(reason) => reason.line(),
            Refusal::Memory => text_line(b""),
        }
    }
}
