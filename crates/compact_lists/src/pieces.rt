// A list that is cut into pieces, each of which ends where the next begins.
ghost use Rattle.std.specs.Prelude.{◌≡◌, ◌++◌, ◌∷◌, [], ◌+◌, ◌<◌, ◌≤◌, length, take, slice_get, option_copied, vec_len, vec_capacity, IfOk, OnOk, OnErr};
ghost use Rattle.compact_lists.specs.Pieces.{AreEnds, start_at, cuts};

use inst_logic::Memory;

// Where piece `i` begins.
fn start_of(ends: &[u32], i: usize) -> usize
    requires { i ≤ length ends.now }
    ensures { result ≡ start_at 0 ends.now i }
{
    if i == 0 {
        return 0;
    }
    ends[i - 1] as usize
}

// Piece `i`, counted from 0.
pub(crate) fn piece<'a, T>(items: &'a [T], ends: &[u32], i: usize) -> Option<&'a [T]>
    requires { AreEnds 0 ends.now (length items.now) }
    ensures { option_copied result ≡ slice_get (cuts items.now 0 ends.now) i }
{
    if ends.len() <= i {
        return None;
    }
    let start = start_of(ends, i);
    let end = ends[i] as usize;
    Some(&items[start..end])
}

// The end of one more piece of so many items, or want of room where it is no `u32`.
fn next_end(count: usize, more: usize) -> Result<u32, Memory>
    ensures { IfOk result (λ end. end ≡ count + more) }
{
    match u32::try_from(count.saturating_add(more)) {
        Ok(end) => Ok(end),
        Err(_) => Err(Memory),
    }
}

// Room for one more piece of so many items, and its end.
pub(crate) fn reserve_piece<T: Drop>(
    items: &mut Vec<T>,
    ends: &mut Vec<u32>,
    more: usize,
) -> Result<u32, Memory>
    ensures items { items.new.items ≡ items.old.items }
    ensures ends { ends.new.items ≡ ends.old.items }
    ensures end { IfOk result (λ end. end ≡ length items.old.items + more) }
    ensures room_for_items { OnOk result (vec_len items.new + more ≤ vec_capacity items.new) }
    ensures room_for_end { OnOk result (vec_len ends.new < vec_capacity ends.new) }
{
    let end = next_end(items.len(), more)?;
    ends.reserve(1)?;
    items.reserve(more)?;
    Ok(end)
}

// One more piece, behind the others.
pub(crate) fn push_piece<T: Copy + Drop>(
    items: &mut Vec<T>,
    ends: &mut Vec<u32>,
    piece: &[T],
) -> Result<(), Memory>
    requires { AreEnds 0 ends.old.items (length items.old.items) }
    ensures ends { AreEnds 0 ends.new.items (length items.new.items) }
    ensures ok { OnOk result (cuts items.new.items 0 ends.new.items ≡ cuts items.old.items 0 ends.old.items ++ piece.now ∷ []) }
    ensures err { OnErr result (cuts items.new.items 0 ends.new.items ≡ cuts items.old.items 0 ends.old.items) }
{
    let end = reserve_piece(items, ends, piece.len())?;
    items.extend_from_slice(piece)?;
    ends.push_reserved(end);
    Ok(())
}

// The first `count` pieces alone, or all where there are no more.
pub(crate) fn keep_pieces<T: Drop>(items: &mut Vec<T>, ends: &mut Vec<u32>, count: usize)
    requires { AreEnds 0 ends.old.items (length items.old.items) }
    ensures ends { AreEnds 0 ends.new.items (length items.new.items) }
    ensures kept { cuts items.new.items 0 ends.new.items ≡ take count (cuts items.old.items 0 ends.old.items) }
{
    if ends.len() <= count {
        return;
    }
    let end = start_of(ends.as_slice(), count);
    items.truncate(end);
    ends.truncate(count);
}
