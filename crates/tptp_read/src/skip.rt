// Blanks and comments. Of a comment that is not closed nothing is skipped, so that no token begins there.
ghost use Rattle.std.specs.Prelude.{◌≡◌, ◌≤◌, ◌+◌, length};
ghost use Rattle.tptp_read.specs.Gap.{block, piece, gap};

use crate::runs::{comment_end, is_blank, line_len};

fn block_len(bytes: &[u8]) -> usize
    ensures is { result ≡ block bytes.now }
    ensures within { result ≤ length bytes.now + 1 }
{
    match bytes {
        [b'*', rest @ ..] => match comment_end(rest) {
            Some(n) => n + 2,
            None => 0,
        },
        _ => 0,
    }
}

// How long the blank or the comment at the front is.
#[tactic(auto, unfolding(crate::specs::Gap::piece))]
fn piece_len(bytes: &[u8]) -> usize
    ensures is { result ≡ piece bytes.now }
    ensures within { result ≤ length bytes.now }
{
    match bytes {
        [] => 0,
        [b, rest @ ..] => {
            if is_blank(*b) {
                1
            } else if *b == b'%' {
                line_len(rest) + 1
            } else if *b == b'/' {
                block_len(rest)
            } else {
                0
            }
        }
    }
}

// How many bytes of blanks and comments are at the front.
pub(crate) fn gap_len(bytes: &[u8]) -> usize
    ensures is { result ≡ gap bytes.now }
    ensures within { result ≤ length bytes.now }
{
    let mut n = 0;
    loop {
        let rest = &bytes[n..];
        let k = piece_len(rest);
        if k == 0 {
            return n;
        }
        n += k;
    }
}
