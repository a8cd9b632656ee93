// The certificate of a file in the format in which certificates are written.
ghost use Rattle.std.specs.Prelude.{◌≡◌, ◌≤◌, ℕ, IfOk, IfErr, IfSome};
ghost use Rattle.outside_io.specs.Told.{Follows};
ghost use Rattle.cert_format.specs.Printable.{IsPrintable};
ghost use Rattle.cert_reader.specs.Reads.{IsWholeCertificate, value_of};
ghost use Rattle.cert_front.specs.Checks.{IsCheckFault, IsUnjudged};
ghost use Rattle.cert_front.specs.Rewritings.{IsExactRewriting, IsRewritten, IsRewrittenAs};
ghost use Rattle.tptp_load.specs.Includes.{path_of};

use crate::check::{CheckFault, load_named};
use crate::file::read_named;
use crate::file_laws::findings_are_one;
use crate::kind::Uncovered;
use crate::rewriting::{Rewritable, Rewriting, rewrite_as};
use cert_reader::{Certificate, ReadCert};
use outside_io::Library;
use std::alloc::Global;

// The rewriting of a certificate, under this name, for the problem of the file, where one is named.
fn rewrite_against<L: Library, C: Rewritable>(
    alloc: Global,
    files: &mut L,
    name: &[u8],
    cert: C,
    problem: Option<&str>,
    root: Option<&str>,
) -> Result<Rewriting, CheckFault>
    requires whole { C.whole cert }
    requires printable { (format : ℕ) × IsPrintable format (C.value cert) }
    ensures follows { Follows (L.told files.old) (L.told files.new) }
    ensures rewritten { IfOk result (IsRewrittenAs (L.told files.old).files (path_of problem.entry) (path_of root.entry) name.now (C.value cert)) }
    ensures refused { IfErr result (IsUnjudged (L.told files.old).files (L.told files.old).faults (L.told files.new).faults (path_of problem.entry) (path_of root.entry)) }
{
    let problem = load_named(alloc, files, problem, root)?;
    let rewriting = rewrite_as(alloc, name, cert, problem.as_ref())?;
    Ok(rewriting)
}

// The certificate of any kind in another form, under the name that was read with it.
fn rewrite_for<L: Library>(
    alloc: Global,
    files: &mut L,
    read: ReadCert,
    problem: Option<&str>,
    root: Option<&str>,
) -> Result<Rewriting, CheckFault>
    requires whole { IsWholeCertificate read.cert }
    requires printable { (format : ℕ) × IsPrintable format (value_of read.cert) }
    ensures follows { Follows (L.told files.old) (L.told files.new) }
    ensures rewritten { IfOk result (IsRewrittenAs (L.told files.old).files (path_of problem.entry) (path_of root.entry) read.name (value_of read.cert)) }
    ensures refused { IfErr result (IsUnjudged (L.told files.old).files (L.told files.old).faults (L.told files.new).faults (path_of problem.entry) (path_of root.entry)) }
{
    let ReadCert { name, cert, .. } = read;
    let name = name.bytes();
    match cert {
        Certificate::First(cert) => rewrite_against(alloc, files, name, cert, problem, root),
        Certificate::Refutation(cert) => rewrite_against(alloc, files, name, cert, problem, root),
        Certificate::Saturation(cert) => {
            rewrite_against(alloc, files, name, Uncovered(cert), problem, root)
        }
        Certificate::Covered(cert) => rewrite_against(alloc, files, name, cert, problem, root),
    }
}

// The certificate of the file of this name in another form.
fn rewrite_named<L: Library>(
    alloc: Global,
    files: &mut L,
    file: &str,
    problem: Option<&str>,
    root: Option<&str>,
) -> Result<Rewriting, CheckFault>
    ensures follows { Follows (L.told files.old) (L.told files.new) }
    ensures rewritten { IfOk result (IsRewritten (L.told files.old).files file.now (path_of problem.entry) (path_of root.entry)) }
    ensures refused { IfErr result (IsCheckFault (L.told files.old).files (L.told files.old).faults (L.told files.new).faults file.now (path_of problem.entry) (path_of root.entry)) }
{
    match read_named(alloc, files, file) {
        Ok(read) => rewrite_for(alloc, files, read, problem, root),
        Err(fault) => Err(CheckFault::from(fault)),
    }
}

/// The certificate of a file in the format in which certificates are written, under its own name, where it is valid; and the first
/// reason why it is not. Where a problem is named, its file is loaded, with the root for its includes, and the certificate has to be
/// one of it. The file of the certificate is read first.
pub fn rewrite_file<L: Library>(
    alloc: Global,
    files: &mut L,
    file: &str,
    problem: Option<&str>,
    root: Option<&str>,
) -> Result<Rewriting, CheckFault>
    ensures follows { Follows (L.told files.old) (L.told files.new) }
    ensures rewritten { IfOk result (IsRewritten (L.told files.old).files file.now (path_of problem.entry) (path_of root.entry)) }
    ensures refused { IfErr result (IsCheckFault (L.told files.old).files (L.told files.old).faults (L.told files.new).faults file.now (path_of problem.entry) (path_of root.entry)) }
    // Where the files are told, it says what a check finds in them, but for faults and want of memory.
    ensures exact { IfSome (L.told files.old).files (λ told. IsExactRewriting told (L.told files.old).faults (L.told files.new).faults file.now (path_of problem.entry) (path_of root.entry) result) }
{
    findings_are_one();
    rewrite_named(alloc, files, file, problem, root)
}
