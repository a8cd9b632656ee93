// The line that says what was found.
ghost use Rattle.std.specs.Prelude.{◌≡◌, [], ◌∷◌, codes, decimal};
ghost use Rattle.outside_io.specs.Pieces.{text_of};
ghost use Rattle.cert_front.specs.Words.{complaint_words, form_word, invalid_line, judgement_line, line_of, reply_line};

use crate::judgement::Judgement;
use crate::reply::Reply;
use cert_check::Complaint;
use outside_io::{Line, Piece};

/// The form of a certificate.
#[derive(Clone, Copy, Debug, PartialEq, Eq)]
pub enum Form {
    Refutation,
    Saturation,
}

// The line of these words.
fn line<'a>(first: &'a [u8], second: &'a [u8]) -> Line<'a>
    ensures { text_of result ≡ line_of (first.now ∷ second.now ∷ []) }
{
    let none = Piece::Text(b"");
    [
        Piece::Text(first),
        Piece::Text(second),
        Piece::Text(b"\n"),
        none,
        none,
        none,
        none,
    ]
}

// The line of a valid certificate of this form.
fn valid_line<'a>(form: Form) -> Line<'a>
    ensures { text_of result ≡ line_of (codes "valid " ∷ form_word form ∷ []) }
{
    match form {
        Form::Refutation => line(b"valid ", b"CNFRefutation"),
        Form::Saturation => line(b"valid ", b"Saturation"),
    }
}

// The line of a complaint that has this word and number.
fn numbered_line(word: &[u8], number: usize) -> Line<'_>
    ensures { text_of result ≡ invalid_line (word.now ∷ decimal number ∷ []) }
{
    let none = Piece::Text(b"");
    [
        Piece::Text(b"invalid: "),
        Piece::Text(word),
        Piece::Number(number as u64),
        Piece::Text(b"\n"),
        none,
        none,
        none,
    ]
}

// The line of a complaint about two members.
fn pair_line<'a>(left: usize, right: usize) -> Line<'a>
    ensures { text_of result ≡ invalid_line (codes "pair " ∷ decimal left ∷ codes " " ∷ decimal right ∷ []) }
{
    [
        Piece::Text(b"invalid: "),
        Piece::Text(b"pair "),
        Piece::Number(left as u64),
        Piece::Text(b" "),
        Piece::Number(right as u64),
        Piece::Text(b"\n"),
        Piece::Text(b""),
    ]
}

// The line of a complaint.
fn complaint_line<'a>(complaint: Complaint) -> Line<'a>
    ensures { text_of result ≡ invalid_line (complaint_words complaint) }
{
    match complaint {
        Complaint::Axiom { n } => numbered_line(b"axiom ", n),
        Complaint::Member { n } => numbered_line(b"member ", n),
        Complaint::Bot => line(b"invalid: ", b"constant"),
        Complaint::Ground { n } => numbered_line(b"ground ", n),
        Complaint::Step { n } => numbered_line(b"step ", n),
        Complaint::NotEmpty => line(b"invalid: ", b"no empty clause"),
        Complaint::Place { n } => numbered_line(b"place ", n),
        Complaint::Input { k } => numbered_line(b"input ", k),
        Complaint::Pair { left, right } => pair_line(left, right),
        Complaint::Cover { n } => numbered_line(b"cover ", n),
    }
}

/// The line of the judgement of a certificate of this form.
pub fn judgement_line<'a>(form: Form, judgement: Judgement) -> Line<'a>
    ensures { text_of result ≡ judgement_line form judgement }
{
    match judgement {
        Judgement::Valid => valid_line(form),
        Judgement::Problem { n } => numbered_line(b"problem ", n),
        Judgement::Invalid(complaint) => complaint_line(complaint),
    }
}

/// The line of the reply.
pub fn reply_line<'a>(reply: Reply) -> Line<'a>
    ensures { text_of result ≡ reply_line reply }
{
    match reply {
        Reply::True => line(b"true", b""),
        Reply::False => line(b"false", b""),
        Reply::Invalid(complaint) => complaint_line(complaint),
    }
}
