// A text, written piece by piece, so that it need not be made in memory first.
ghost use Rattle.std.specs.Prelude.{◌≡◌};
ghost use Rattle.outside_io.specs.Pieces.{bytes_of, text_of};
ghost use Rattle.outside_io.specs.Seen.{Writes};

use crate::library::Trouble;
use crate::sink::{Sink, write_all};
use itoa::Buffer;

/// A piece of a text: bytes as they are, or a number in decimal.
#[derive(Clone, Copy)]
pub enum Piece<'a> {
    Text(&'a [u8]),
    Number(u64),
}

// Writes a piece, and takes no memory.
fn write_piece<K: Sink>(out: &mut K, piece: Piece<'_>) -> Result<(), Trouble>
    ensures { Writes (K.seen out.old) (K.seen out.new) (bytes_of piece.entry) result }
{
    match piece {
        Piece::Text(text) => write_all(out, text),
        Piece::Number(number) => {
            let mut digits = Buffer::new();
            write_all(out, digits.format(number).as_bytes())
        }
    }
}

/// Writes the pieces, one after the other, and takes no memory.
pub fn write_pieces<K: Sink>(out: &mut K, pieces: &[Piece<'_>]) -> Result<(), Trouble>
    ensures { Writes (K.seen out.old) (K.seen out.new) (text_of pieces.now) result }
{
    for piece in pieces {
        write_piece(out, *piece)?;
    }
    Ok(())
}
