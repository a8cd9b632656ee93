// How the program ends. Only here an end has a number.
ghost use Rattle.std.specs.Prelude.{◌≡◌};
ghost use Rattle.szs_prove.specs.Texts.{code_of, exit_of};

use outside_io::Status;

/// How the program ends.
#[derive(Clone, Copy, Debug, PartialEq, Eq)]
pub enum Exit {
    /// The text of a verdict was written whole, or `valid`, `true`, `false`, or the numbers of a chain.
    Decided,
    /// The budget ran out, and the numbers that say so were written whole.
    ResourceOut,
    /// The file gives no problem, no clauses, or no certificate that is asked for.
    Refused,
    /// The words are not read.
    Usage,
    /// A file could not be read: the library's count of faults rose, or stands at its last value.
    ReadFault,
    /// The answer was not written whole: the sink's count of faults rose, or stands at its last value.
    WriteFault,
    /// Memory was wanted.
    Memory,
    /// Truth values for the clauses of a file in the DIMACS form were written whole.
    Sat,
    /// A derivation that there are none was written whole.
    Unsat,
    /// A complaint about a certificate was written whole: it is not valid, or not one of the problem.
    CheckFailed,
}

impl Exit {
    /// The status of the process, as the byte that the system takes: Decided 0, ResourceOut 1, Refused 2, Usage 3, ReadFault 4,
    /// WriteFault 5, Memory 6, CheckFailed 7, Sat 10, Unsat 20. With 0, 7, 10 and 20 what was asked
    /// for was written whole.
    pub fn code(self) -> u8
        ensures { result ≡ code_of self }
    {
        match self {
            Exit::Decided => 0,
            Exit::ResourceOut => 1,
            Exit::Refused => 2,
            Exit::Usage => 3,
            Exit::ReadFault => 4,
            Exit::WriteFault => 5,
            Exit::Memory => 6,
            Exit::Sat => 10,
            Exit::Unsat => 20,
            Exit::CheckFailed => 7,
        }
    }
}

/// The exit where this status is told, whatever the command.
pub fn exit_of(status: Status) -> Exit
    ensures { result ≡ exit_of status }
{
    match status {
        Status::SyntaxError | Status::Inappropriate | Status::InputError => Exit::Refused,
        Status::OsError => Exit::ReadFault,
        Status::UsageError => Exit::Usage,
        Status::ResourceOut => Exit::ResourceOut,
        Status::MemoryOut => Exit::Memory,
    }
}
