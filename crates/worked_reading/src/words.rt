// Words, and what they ask.
use command_words::{Request, read_words};
use inst_logic::{Literal, Memory};
use std::alloc::Global;
use tptp_write::{push_bytes, push_literal, push_number};

// Each word stands behind a bar.
pub const ROWS: &str = "\
#|prove|f.p@prove f.p budget 10000000\
#|prove|--root|d|f.p@prove f.p root d budget 10000000\
#|prove|f.p|--root=d@prove f.p root d budget 10000000\
#|prove|f.p|--budget=4@prove f.p budget 4\
#|prove|f.p|--budget|007@prove f.p budget 7\
#|prove|--budget|1000000000000|f.p|--root|d@prove f.p root d budget 1000000000000\
#|prove|--|-f@prove -f budget 10000000\
#|prove|-@prove - budget 10000000\
#|sat|x@sat x\
#|check|c@check c\
#|check|c|--problem|f.p@check c problem f.p\
#|check|--problem=f.p|c@check c problem f.p\
#|check|--root|d|c@check c root d\
#|check|--root=d|c|--problem|f.p@check c problem f.p root d\
#|check|--|--problem@check --problem\
#|check|c|--rewrite@rewrite c\
#|check|--rewrite|c@rewrite c\
#|check|--root|d|--rewrite|c|--problem|f.p@rewrite c problem f.p root d\
#|check|--|--rewrite@check --rewrite\
#|ask|c|p@ask c p\
#|ask|c|p(a,f(b))@ask c p(a,f(b))\
#|ask|c| 'P' ( a ) % a comment@ask c 'P'(a)\
#|ask|c|a = b@ask c a = b\
#|ask|--|c|p(a)@ask c p(a)\
#|stress|300@stress 300\
#|stress|2@stress 2\
#|stress|0002@stress 2\
#|stress|000002@stress 2\
#|stress|100000@stress 100000\
#|qbf|x@qbf x\
#|qbf|--|-f@qbf -f\
#|fmodel|2|m.p@fmodel 2 m.p\
#|fmodel|01|m.p@fmodel 1 m.p\
#|fmodel|64|m.p|--root|d@fmodel 64 m.p root d\
#|fmodel|--root=d|3|m.p@fmodel 3 m.p root d\
#|core|f.p@core f.p\
#|core|--root|d|f.p@core f.p root d\
#@nothing\
#|--help@nothing\
#|help@nothing\
#|prove@nothing\
#|prove|@nothing\
#|prove|a|b@nothing\
#|prove|-f@nothing\
#|prove|a\nb@nothing\
#|prove|--help@nothing\
#|prove|f.p|--version@nothing\
#|prove|f.p|--root@nothing\
#|prove|f.p|--root|@nothing\
#|prove|f.p|--root|a|--root|b@nothing\
#|prove|f.p|--budget|1000000000001@nothing\
#|prove|f.p|--budget|00000000000001@nothing\
#|prove|f.p|--budget|+5@nothing\
#|sat@nothing\
#|sat|x|--root|d@nothing\
#|check@nothing\
#|check|@nothing\
#|check|a|b@nothing\
#|check|a\tb@nothing\
#|check|a\u{7f}@nothing\
#|check|a|--problem@nothing\
#|check|a|--problem|@nothing\
#|check|a|--problem|b\n@nothing\
#|check|a|--problem|b|--problem|b@nothing\
#|check|a|--root|@nothing\
#|check|a|--budget|4@nothing\
#|check|--rewrite@nothing\
#|check|a|--rewrite|--rewrite@nothing\
#|check|a|--rewrite=true@nothing\
#|check|a|--rewrite|true@nothing\
#|prove|a|--rewrite@nothing\
#|ask|a|p|--rewrite@nothing\
#|check|--problem|a@nothing\
#|check|--help@nothing\
#|ask@nothing\
#|ask|a@nothing\
#|ask|a|p|q@nothing\
#|ask||p@nothing\
#|ask|a|p(@nothing\
#|ask|a|p(X)@nothing\
#|ask|a|~p@nothing\
#|ask|a|p(7)@nothing\
#|ask|a|$true@nothing\
#|ask|a|@nothing\
#|ask|a|p|--root|d@nothing\
#|ask|--help@nothing\
#|stress@nothing\
#|stress|1@nothing\
#|stress|0@nothing\
#|stress|100001@nothing\
#|stress|0000002@nothing\
#|stress|+2@nothing\
#|stress|2|3@nothing\
#|stress|--help@nothing\
#|qbf@nothing\
#|qbf|@nothing\
#|qbf|x|y@nothing\
#|qbf|x|--root|d@nothing\
#|fmodel@nothing\
#|fmodel|2@nothing\
#|fmodel|m.p|2@nothing\
#|fmodel|0|m.p@nothing\
#|fmodel|65|m.p@nothing\
#|fmodel|002|m.p@nothing\
#|fmodel|+2|m.p@nothing\
#|fmodel|2|m.p|--budget|4@nothing\
#|fmodel|--help@nothing\
#|core@nothing\
#|core|a|b@nothing\
#|core|a|--root|@nothing\
#|core|a|--budget|4@nothing\
#|core|--help@nothing\
";

fn push_owned(alloc: Global, words: &mut Vec<String>, text: &str) -> Result<(), Memory> {
    for (i, word) in text.split('|').enumerate() {
        if i > 0 {
            words.push(String::from_str(alloc, word)?)?;
        }
    }
    Ok(())
}

fn push_word(answer: &mut Vec<u8>, label: &[u8], word: &str) -> Result<(), Memory> {
    push_bytes(answer, label)?;
    push_bytes(answer, word.as_bytes())
}

fn push_given(answer: &mut Vec<u8>, label: &[u8], word: Option<&str>) -> Result<(), Memory> {
    match word {
        Some(word) => push_word(answer, label, word),
        None => Ok(()),
    }
}

fn push_counted(answer: &mut Vec<u8>, label: &[u8], n: usize) -> Result<(), Memory> {
    push_bytes(answer, label)?;
    push_number(answer, n)
}

fn push_ask(answer: &mut Vec<u8>, cert: &str, atom: &Literal) -> Result<(), Memory> {
    push_word(answer, b"ask ", cert)?;
    push_bytes(answer, b" ")?;
    push_literal(answer, atom)
}

fn push_check(
    answer: &mut Vec<u8>,
    label: &[u8],
    cert: &str,
    problem: Option<&str>,
    root: Option<&str>,
) -> Result<(), Memory> {
    push_word(answer, label, cert)?;
    push_given(answer, b" problem ", problem)?;
    push_given(answer, b" root ", root)
}

fn push_request(answer: &mut Vec<u8>, request: &Request<'_>) -> Result<(), Memory> {
    match request {
        Request::Prove { file, root, budget } => {
            push_word(answer, b"prove ", file)?;
            push_given(answer, b" root ", *root)?;
            push_counted(answer, b" budget ", *budget as usize)
        }
        Request::Sat { file } => push_word(answer, b"sat ", file),
        Request::Check {
            cert,
            problem,
            root,
        } => push_check(answer, b"check ", cert, *problem, *root),
        Request::Rewrite {
            cert,
            problem,
            root,
        } => push_check(answer, b"rewrite ", cert, *problem, *root),
        Request::Ask { cert, atom } => push_ask(answer, cert, atom),
        Request::Stress { number } => push_counted(answer, b"stress ", *number),
        Request::Qbf { file } => push_word(answer, b"qbf ", file),
        Request::Fmodel {
            elements,
            file,
            root,
        } => {
            push_counted(answer, b"fmodel ", *elements)?;
            push_word(answer, b" ", file)?;
            push_given(answer, b" root ", *root)
        }
        Request::Core { file, root } => {
            push_word(answer, b"core ", file)?;
            push_given(answer, b" root ", *root)
        }
    }
}

fn push_asked(
    answer: &mut Vec<u8>,
    outcome: &Result<Option<Request<'_>>, Memory>,
) -> Result<(), Memory> {
    match outcome {
        Ok(Some(request)) => push_request(answer, request),
        Ok(None) => push_bytes(answer, b"nothing"),
        Err(Memory) => Err(Memory),
    }
}

fn push_words_by(
    alloc: Global,
    answer: &mut Vec<u8>,
    words: &mut Vec<String>,
    text: &str,
) -> Result<(), Memory> {
    push_owned(alloc, words, text)?;
    let outcome = read_words(alloc, words.as_slice());
    push_asked(answer, &outcome)
}

/// Puts what the words of the text ask at the end of the answer.
pub fn push_words(alloc: Global, answer: &mut Vec<u8>, text: &str) -> Result<(), Memory> {
    let mut words = Vec::new(alloc);
    push_words_by(alloc, answer, &mut words, text)
}
