// Whether the certificate of a file is valid, and one of the problem of another file.
ghost use Rattle.std.specs.Prelude.{◌≡◌, ◌≤◌, IfOk, IfErr, IfSome, option_copied};
ghost use Rattle.std.specs.Option.{ForSome};
ghost use Rattle.outside_io.specs.Told.{Follows};
ghost use Rattle.inst_logic.specs.WellFormed.{AreFormedClauses};
ghost use Rattle.cert_front.specs.Judgements.{IsJudgement};
ghost use Rattle.cert_reader.specs.Reads.{IsWholeCertificate, value_of};
ghost use Rattle.cert_front.specs.Checks.{IsCheckFault, IsExactCheck, IsJudged, IsJudgedAs, IsProblemFault, IsProblemOf, IsUnjudged, form_of, of_cert, of_load};
ghost use Rattle.cert_front.specs.declared.check.CheckFault.TheVariants as faults;
ghost use Rattle.tptp_load.specs.Includes.{path_of};

use crate::fault::CertFault;
use crate::file::read_file;
use crate::file_laws::findings_are_one;
use crate::judgement::{Judgement, judge};
use crate::kind::Kind;
use crate::words::Form;
use cert_reader::Certificate;
use inst_logic::{Memory, Problem};
use outside_io::Library;
use std::alloc::Global;
use thiserror::Error;
use tptp_load::{LoadError, load};

/// Why a certificate is not judged.
#[derive(Debug, Drop, Error)]
pub enum CheckFault {
    /// The file gives no certificate. The fault is never want of memory, and never that it is no saturation.
    #[error("the file gives no certificate")]
    Cert(CertFault),
    /// The file of the problem gives none. The error is never want of memory.
    #[error("the file gives no problem")]
    Problem(LoadError),
    /// Memory was wanted and not given.
    #[error("out of memory")]
    Memory,
}

impl From<CertFault> for CheckFault {
    ghost from_gives = { λ f e. e ≡ of_cert f };

    fn from(fault: CertFault) -> CheckFault {
        match fault {
            CertFault::Memory => CheckFault::Memory,
            fault => CheckFault::Cert(fault),
        }
    }
}

impl From<LoadError> for CheckFault {
    ghost from_gives = { λ l e. e ≡ of_load l };

    fn from(error: LoadError) -> CheckFault {
        match error {
            LoadError::Memory => CheckFault::Memory,
            error => CheckFault::Problem(error),
        }
    }
}

impl From<Memory> for CheckFault {
    ghost from_gives = { λ _ e. e ≡ faults.Memory };

    fn from(_e: Memory) -> CheckFault {
        CheckFault::Memory
    }
}

// What the certificate is found to be. It is dropped.
fn judgement<C: Kind>(
    alloc: Global,
    cert: C,
    problem: Option<&Problem>,
) -> Result<Judgement, Memory>
    requires whole { C.whole cert }
    requires problem { ForSome problem (λ p. AreFormedClauses p.now.clauses) }
    ensures { IfOk result (IsJudgement (option_copied problem.entry) (C.value cert)) }
{
    match judge(alloc, cert, problem) {
        Ok(Ok(_)) => Ok(Judgement::Valid),
        Ok(Err(judgement)) => Ok(judgement),
        Err(Memory) => Err(Memory),
    }
}

// The problem of the file, where one is named.
pub(crate) fn load_named<L: Library>(
    alloc: Global,
    files: &mut L,
    problem: Option<&str>,
    root: Option<&str>,
) -> Result<Option<Problem>, LoadError>
    ensures follows { Follows (L.told files.old) (L.told files.new) }
    ensures formed { IfOk result (λ p. IfSome p (λ q. AreFormedClauses q.clauses)) }
    ensures loads { IfOk result (IsProblemOf (L.told files.old).files (path_of problem.entry) (path_of root.entry)) }
    ensures refused { IfErr result (IsProblemFault (L.told files.old).files (L.told files.old).faults (L.told files.new).faults (path_of problem.entry) (path_of root.entry)) }
{
    match problem {
        Some(file) => {
            let loaded = load(alloc, files, file, root)?;
            Ok(Some(loaded))
        }
        None => Ok(None),
    }
}

// What a certificate is found to be for the problem of the file, where one is named, with its form.
fn judge_against<L: Library, C: Kind>(
    alloc: Global,
    files: &mut L,
    cert: C,
    problem: Option<&str>,
    root: Option<&str>,
) -> Result<(Form, Judgement), CheckFault>
    requires { C.whole cert }
    ensures follows { Follows (L.told files.old) (L.told files.new) }
    ensures judged { IfOk result (IsJudgedAs (L.told files.old).files (path_of problem.entry) (path_of root.entry) (C.value cert)) }
    ensures refused { IfErr result (IsUnjudged (L.told files.old).files (L.told files.old).faults (L.told files.new).faults (path_of problem.entry) (path_of root.entry)) }
{
    let form = cert.form();
    let problem = load_named(alloc, files, problem, root)?;
    let judgement = judgement(alloc, cert, problem.as_ref())?;
    Ok((form, judgement))
}

// The judgement of a certificate of any kind.
fn judge_for<L: Library>(
    alloc: Global,
    files: &mut L,
    certificate: Certificate,
    problem: Option<&str>,
    root: Option<&str>,
) -> Result<(Form, Judgement), CheckFault>
    requires { IsWholeCertificate certificate }
    ensures follows { Follows (L.told files.old) (L.told files.new) }
    ensures judged { IfOk result (IsJudgedAs (L.told files.old).files (path_of problem.entry) (path_of root.entry) (value_of certificate)) }
    ensures refused { IfErr result (IsUnjudged (L.told files.old).files (L.told files.old).faults (L.told files.new).faults (path_of problem.entry) (path_of root.entry)) }
{
    match certificate {
        Certificate::First(cert) => judge_against(alloc, files, cert, problem, root),
        Certificate::Refutation(cert) => judge_against(alloc, files, cert, problem, root),
        Certificate::Saturation(cert) => judge_against(alloc, files, cert, problem, root),
        Certificate::Covered(cert) => judge_against(alloc, files, cert, problem, root),
    }
}

// The judgement of the certificate of the file of this name.
fn judge_file<L: Library>(
    alloc: Global,
    files: &mut L,
    name: &str,
    problem: Option<&str>,
    root: Option<&str>,
) -> Result<(Form, Judgement), CheckFault>
    ensures follows { Follows (L.told files.old) (L.told files.new) }
    ensures judged { IfOk result (IsJudged (L.told files.old).files name.now (path_of problem.entry) (path_of root.entry)) }
    ensures refused { IfErr result (IsCheckFault (L.told files.old).files (L.told files.old).faults (L.told files.new).faults name.now (path_of problem.entry) (path_of root.entry)) }
{
    match read_file(alloc, files, name) {
        Ok(certificate) => judge_for(alloc, files, certificate, problem, root),
        Err(fault) => Err(CheckFault::from(fault)),
    }
}

/// What the certificate of a file is found to be, with its form: valid, or the first reason why it is not. Where a problem is
/// named, its file is loaded, with the root for its includes, and the certificate has to be one of it. The file of the
/// certificate is read first.
pub fn check_file<L: Library>(
    alloc: Global,
    files: &mut L,
    name: &str,
    problem: Option<&str>,
    root: Option<&str>,
) -> Result<(Form, Judgement), CheckFault>
    ensures follows { Follows (L.told files.old) (L.told files.new) }
    ensures judged { IfOk result (IsJudged (L.told files.old).files name.now (path_of problem.entry) (path_of root.entry)) }
    ensures refused { IfErr result (IsCheckFault (L.told files.old).files (L.told files.old).faults (L.told files.new).faults name.now (path_of problem.entry) (path_of root.entry)) }
    // Where the files are told, it is the answer that they give, but for faults and want of memory.
    ensures exact { IfSome (L.told files.old).files (λ told. IsExactCheck told (L.told files.old).faults (L.told files.new).faults name.now (path_of problem.entry) (path_of root.entry) result) }
{
    findings_are_one();
    judge_file(alloc, files, name, problem, root)
}
