// What the files say is one thing. It is proved of the definitions, whoever reads the files.
ghost use Rattle.std.specs.Prelude.{◌≡◌, ℕ, List, Option, Result, true};
ghost use Rattle.outside_io.specs.declared.library.NamedFile.{NamedFile};
ghost use Rattle.inst_logic.specs.Tree.{Tree};
ghost use Rattle.inst_logic.specs.declared.signed.Signed.{Signed};
ghost use Rattle.term_bank.specs.Forest.{is_ground};
ghost use Rattle.tptp_read.specs.Atoms.{ReadsAtom};
ghost use Rattle.cert_front.specs.declared.judgement.Judgement.{Judgement};
ghost use Rattle.cert_front.specs.declared.reply.Reply.{Reply};
ghost use Rattle.cert_front.specs.declared.words.Form.{Form};
ghost use Rattle.cert_front.specs.Checks.{IsFound};
ghost use Rattle.cert_front.specs.Queries.{IsFoundReply};
ghost use Rattle.cert_front.specs.declared.check.CheckFault.{CheckFault};
ghost use Rattle.cert_front.specs.declared.fault.CertFault.{CertFault};

use crate::laws::{judgements_are_one, replies_are_one};
use cert_format::texts_are_one;
use cert_reader::readings_are_one;
use tptp_load::laws::one_loading;

/// Files give one answer to a check, and one to a question.
pub fn findings_are_one()
    ensures checks { (files : List NamedFile) (name : List ℕ) (problem root : Option (List ℕ)) (a b : Result (Form × Judgement) CheckFault)
        → IsFound files name problem root a → IsFound files name problem root b → a ≡ b }
    ensures replies { (files : List NamedFile) (name : List ℕ) (t : Tree) (a b : Result Reply CertFault)
        → IsFoundReply files name t a → IsFoundReply files name t b → a ≡ b }
{
    texts_are_one();
    readings_are_one();
    judgements_are_one();
    replies_are_one();
    one_loading();
}

/// The atom of a text that is read as one has no variables.
pub fn atoms_are_variable_free()
    ensures { (text : List ℕ) (l : Signed Tree) → ReadsAtom text l → is_ground l.atom ≡ true }
{}
