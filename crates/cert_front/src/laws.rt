// What holds of judgements and replies, whoever makes them.
ghost use Rattle.std.specs.Prelude.{◌≡◌, ◌<◌, ◌^◌, ℕ, List, Option, length};
ghost use Rattle.inst_logic.specs.Tree.{Tree};
ghost use Rattle.inst_logic.specs.declared.clause.Problem.{Problem};
ghost use Rattle.cert_format.specs.Certificate.{Certificate};
ghost use Rattle.cert_format.specs.Formats.{written_format};
ghost use Rattle.cert_format.specs.Text.{certificate_text};
ghost use Rattle.cert_reader.specs.Reads.{IsTextOf};
ghost use Rattle.cert_values.specs.Wholes.{AreLight};
ghost use Rattle.cert_front.specs.Judgements.{IsJudgement};
ghost use Rattle.cert_front.specs.Kinds.{selected_of};
ghost use Rattle.cert_front.specs.Replies.{IsReply};
ghost use Rattle.cert_front.specs.Rewritings.{IsNewText};
ghost use Rattle.cert_front.specs.declared.judgement.Judgement.{Judgement};
ghost use Rattle.cert_front.specs.declared.reply.Reply.{Reply};

/// A certificate has at most one judgement for a problem: where it is one, each that is found is that one.
pub fn judgements_are_one()
    ensures { (p : Option Problem) (c : Certificate) (i j : Judgement) → IsJudgement p c i → IsJudgement p c j → i ≡ j }
{}

/// A saturation says one thing of an atom.
pub fn replies_are_one()
    ensures { (c : Certificate) (a : Tree) (i j : Reply) → IsReply c a i → IsReply c a j → i ≡ j }
{}

/// The selected literals of a saturation whose text is not too long are light: a literal has at most as many function symbols
/// as its text has bytes.
pub fn short_texts_are_light()
    ensures { (format : ℕ) (name : List ℕ) (c : Certificate) → length (certificate_text format name c) < 2 ^ 63 → AreLight (selected_of c) }
{}

/// The text of a certificate that has the format in which certificates are written already is its own text in this format.
pub fn newest_texts_stay()
    ensures { (text : List ℕ) (name : List ℕ) (c : Certificate) (new : List ℕ) → IsTextOf text written_format name c → IsNewText name c new → new ≡ text }
{}
