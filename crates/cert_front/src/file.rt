// The certificate of a file. Its bytes are dropped once it is read.
ghost use Rattle.std.specs.Prelude.{◌≡◌, ◌≤◌, IfOk, IfErr};
ghost use Rattle.outside_io.specs.Told.{Follows};
ghost use Rattle.cert_reader.specs.Reads.{IsTextOf, IsWholeCertificate, value_of};
ghost use Rattle.cert_front.specs.Certificates.{IsCertFault, IsCertificateOf, IsTextFault, IsTextIn, limit};

use crate::fault::{CertFault, of_file, of_text};
use cert_reader::{Certificate, ReadCert, read_certificate};
use outside_io::{Library, read_whole};
use std::alloc::Global;

// The most bytes of a certificate's file.
const LIMIT: usize = 268_435_456;

// The certificate whose text this is.
fn read_text(alloc: Global, text: &[u8]) -> Result<ReadCert, CertFault>
    ensures read { IfOk result (λ r. IsTextOf text.now r.format r.name (value_of r.cert)) }
    ensures whole { IfOk result (λ r. IsWholeCertificate r.cert) }
    ensures refused { IfErr result (IsTextFault text.now) }
{
    match read_certificate(alloc, text) {
        Ok(read) => Ok(read),
        Err(error) => Err(of_text(error)),
    }
}

// The certificate of the file of this name, with the name and the format that its text gives.
pub(crate) fn read_named<L: Library>(
    alloc: Global,
    files: &mut L,
    name: &str,
) -> Result<ReadCert, CertFault>
    ensures follows { Follows (L.told files.old) (L.told files.new) }
    ensures read { IfOk result (λ r. IsTextIn (L.told files.old).files name.now r.format r.name (value_of r.cert)) }
    ensures whole { IfOk result (λ r. IsWholeCertificate r.cert) }
    ensures refused { IfErr result (IsCertFault (L.told files.old).files (L.told files.old).faults (L.told files.new).faults name.now) }
{
    match read_whole(alloc, files, name, LIMIT) {
        Ok(text) => read_text(alloc, text.as_slice()),
        Err(error) => Err(of_file(error)),
    }
}

/// The certificate of the file of this name. Nobody has checked it.
pub fn read_file<L: Library>(
    alloc: Global,
    files: &mut L,
    name: &str,
) -> Result<Certificate, CertFault>
    ensures follows { Follows (L.told files.old) (L.told files.new) }
    ensures read { IfOk result (λ c. IsCertificateOf (L.told files.old).files name.now (value_of c)) }
    ensures whole { IfOk result IsWholeCertificate }
    ensures refused { IfErr result (IsCertFault (L.told files.old).files (L.told files.old).faults (L.told files.new).faults name.now) }
{
    match read_named(alloc, files, name) {
        Ok(ReadCert { cert, .. }) => Ok(cert),
        Err(fault) => Err(fault),
    }
}
