// What the saturation of a file says of a ground atom.
ghost use Rattle.std.specs.Prelude.{◌≡◌, ◌≤◌, false, true, Err, IfOk, IfErr, IfSome, OnOk};
ghost use Rattle.outside_io.specs.Told.{Follows};
ghost use Rattle.inst_logic.specs.LiteralView.{literal};
ghost use Rattle.inst_logic.specs.WellFormed.{IsAtom};
ghost use Rattle.term_bank.specs.Forest.{is_ground};
ghost use Rattle.cert_format.specs.ValueLines.{is_refutation};
ghost use Rattle.cert_reader.specs.Reads.{IsWholeCertificate, value_of};
ghost use Rattle.cert_values.specs.Wholes.{AreLight};
ghost use Rattle.cert_front.specs.Kinds.{selected_of};
ghost use Rattle.cert_front.specs.Replies.{IsReply};
ghost use Rattle.cert_front.specs.Queries.{IsAskFault, IsExactReply, IsReplied, IsUnasked};
ghost use Rattle.cert_front.specs.declared.fault.CertFault.TheVariants as faults;

use crate::fault::CertFault;
use crate::file::read_file;
use crate::file_laws::findings_are_one;
use crate::laws::short_texts_are_light;
use crate::reply::{Reply, Truthful, ask};
use cert_reader::Certificate;
use inst_logic::Literal;
use outside_io::Library;
use std::alloc::Global;

// The reply of a saturation, which is dropped.
fn reply<C: Truthful>(alloc: Global, cert: C, atom: &Literal) -> Result<Reply, CertFault>
    requires whole { C.whole cert }
    requires light { AreLight (selected_of (C.value cert)) }
    requires atom { IsAtom (literal atom.now).atom }
    requires variable_free { is_ground (literal atom.now).atom ≡ true }
    ensures replied { IfOk result (IsReply (C.value cert) (literal atom.now).atom) }
    ensures refused { IfErr result (λ e. e ≡ faults.Memory) }
{
    let reply = ask(alloc, cert, atom)?;
    Ok(reply)
}

// A refutation gives no reply. It is dropped.
fn no_reply<C: Drop>(_cert: C) -> Result<Reply, CertFault>
    ensures { result ≡ Err faults.NoSaturation }
{
    Err(CertFault::NoSaturation)
}

// The reply of a certificate, which is dropped. A refutation has none.
fn reply_of(alloc: Global, certificate: Certificate, atom: &Literal) -> Result<Reply, CertFault>
    requires whole { IsWholeCertificate certificate }
    requires light { AreLight (selected_of (value_of certificate)) }
    requires atom { IsAtom (literal atom.now).atom }
    requires variable_free { is_ground (literal atom.now).atom ≡ true }
    ensures saturation { OnOk result (is_refutation (value_of certificate) ≡ false) }
    ensures replied { IfOk result (IsReply (value_of certificate) (literal atom.now).atom) }
    ensures refused { IfErr result (IsUnasked (value_of certificate)) }
{
    match certificate {
        Certificate::Saturation(cert) => reply(alloc, cert, atom),
        Certificate::Covered(cert) => reply(alloc, cert, atom),
        Certificate::First(cert) => no_reply(cert),
        Certificate::Refutation(cert) => no_reply(cert),
    }
}

// The reply of the certificate of the file of this name.
fn reply_of_file<L: Library>(
    alloc: Global,
    files: &mut L,
    name: &str,
    atom: &Literal,
) -> Result<Reply, CertFault>
    requires atom { IsAtom (literal atom.now).atom }
    requires variable_free { is_ground (literal atom.now).atom ≡ true }
    ensures follows { Follows (L.told files.old) (L.told files.new) }
    ensures replied { IfOk result (IsReplied (L.told files.old).files name.now (literal atom.now).atom) }
    ensures refused { IfErr result (IsAskFault (L.told files.old).files (L.told files.old).faults (L.told files.new).faults name.now) }
{
    short_texts_are_light();
    match read_file(alloc, files, name) {
        Ok(certificate) => reply_of(alloc, certificate, atom),
        Err(fault) => Err(fault),
    }
}

/// What the saturation of a file says of the ground atom: true or false, or the first complaint where it is not valid. The
/// literal's sign is not asked for.
pub fn ask_file<L: Library>(
    alloc: Global,
    files: &mut L,
    name: &str,
    atom: &Literal,
) -> Result<Reply, CertFault>
    requires atom { IsAtom (literal atom.now).atom }
    requires variable_free { is_ground (literal atom.now).atom ≡ true }
    ensures follows { Follows (L.told files.old) (L.told files.new) }
    ensures replied { IfOk result (IsReplied (L.told files.old).files name.now (literal atom.now).atom) }
    ensures refused { IfErr result (IsAskFault (L.told files.old).files (L.told files.old).faults (L.told files.new).faults name.now) }
    // Where the files are told, it is the answer that they give, but for faults and want of memory.
    ensures exact { IfSome (L.told files.old).files (λ told. IsExactReply told (L.told files.old).faults (L.told files.new).faults name.now (literal atom.now).atom result) }
{
    findings_are_one();
    reply_of_file(alloc, files, name, atom)
}
