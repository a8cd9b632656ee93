// A hash table of the literals that were read, by their texts. Most literals of a text stand in it before, and are then found
// without their terms being read. A code, the hash of a text, says only where to look: the text itself is compared. Each code has
// two places, and of a place nothing is proved.
ghost use Rattle.std.specs.Prelude.{◌≡◌, ◌≤◌, [], length, IfSome, IsTrue};
ghost use Rattle.term_bank.specs.Forest.{Forest};
ghost use Rattle.cert_items.specs.Spelled.{AreSpelled, IsSpelled};

use inst_logic::Memory;
use std::alloc::Global;
use term_bank::IdLiteral;

// Room for so many at first, and at most. Past that all are forgotten.
const FIRST_ROOM: usize = 128;

const MOST_ROOM: usize = 524_288;

// No place of a literal.
const NOWHERE: usize = usize::MAX;

// Longer texts are not remembered.
const LONGEST: usize = 256;

/// A text that may be a literal's: how many bytes at the front it has, and a code of them.
#[derive(Clone, Copy)]
pub struct Candidate {
    pub len: usize,
    pub code: usize,
}

/// A literal that was read, its text, and the text's code.
#[derive(Drop)]
pub struct Spelled {
    text: Vec<u8>,
    code: usize,
    literal: IdLiteral,
}

/// Literals that were read, and for the low bits of a code the place of a literal that has it.
#[derive(Drop)]
pub struct Recent {
    pub(crate) literals: Vec<Spelled>,
    places: Vec<usize>,
}

// Whether a literal may end here, where so many parentheses are open.
fn may_end(rest: &[u8], depth: usize) -> bool {
    match rest {
        [b',', ..] => depth == 0,
        [b' ', b'|', ..] => true,
        _ => false,
    }
}

// How many parentheses are open behind the byte.
fn depth_behind(depth: usize, byte: u8) -> usize {
    if byte == b'(' {
        depth.wrapping_add(1)
    } else if byte == b')' {
        depth.wrapping_sub(1)
    } else {
        depth
    }
}

/// The text at the front that may be a literal's. Letters and digits lie behind `0`, and what a literal may end with before it.
pub fn candidate_of(bytes: &[u8]) -> Candidate
    ensures { result.len ≤ length bytes.now }
{
    let most = bytes.len().min(LONGEST);
    let mut code: usize = 0;
    let mut depth: usize = 0;
    let mut len = 0;
    while len < most {
        let byte = bytes[len];
        if byte < b'0' {
            if may_end(&bytes[len..], depth) {
                return Candidate { len, code };
            }
            depth = depth_behind(depth, byte);
        }
        code = (code ^ usize::from(byte)).wrapping_mul(16_777_619);
        len += 1;
    }
    Candidate { len, code }
}

// The place for the code among so many. The one beside it is the second. The low bits of a code are those of the low bits of its
// bytes alone, and the high ones are not.
fn place_of(count: usize, code: usize) -> usize {
    (code ^ code >> 32) & count.wrapping_sub(1)
}

// Which of both places for the code is taken by a new literal.
fn free_place(places: &[usize], code: usize) -> usize {
    let first = place_of(places.len(), code);
    match places.get(first) {
        None => first,
        Some(found) => { if *found == NOWHERE { first } else { first ^ 1 } }
    }
}

// Puts the place where the code is sought.
fn put(places: &mut Vec<usize>, code: usize, place: usize) {
    let at = free_place(places, code);
    if let Some(found) = places.get_mut(at) {
        *found = place;
    }
}

// How many places there are, with those of the literals.
fn places_of(alloc: Global, count: usize, literals: &[Spelled]) -> Result<Vec<usize>, Memory> {
    let mut places = vec![in alloc; NOWHERE; count]?;
    for place in 0..literals.len() {
        put(&mut places, literals[place].code, place);
    }
    Ok(places)
}

fn is_text(text: &[u8], other: &[u8]) -> bool
    ensures { IsTrue result → text.now ≡ other.now }
{
    text == other
}

impl Recent {
    /// No literals. It takes no memory.
    pub fn new(alloc: Global) -> Recent
        ensures { result.literals.items ≡ [] }
    {
        Recent {
            literals: Vec::new(alloc),
            places: Vec::new(alloc),
        }
    }

    // The literal of the text that is remembered for this place of a code.
    fn find_at(&self, at: usize, text: &[u8], code: usize) -> Option<IdLiteral>
        ensures { (f : Forest) → AreSpelled f self.now.literals.items → IfSome result (IsSpelled f text.now) }
    {
        let place = self.places.get(at)?;
        let spelled = self.literals.get(*place)?;
        if spelled.code == code && is_text(text, &spelled.text) {
            Some(spelled.literal)
        } else {
            None
        }
    }

    /// The literal whose text, which has this code, this is, where it is remembered.
    pub fn find(&self, text: &[u8], code: usize) -> Option<IdLiteral>
        ensures { (f : Forest) → AreSpelled f self.now.literals.items → IfSome result (IsSpelled f text.now) }
    {
        let at = place_of(self.places.len(), code);
        match self.find_at(at, text, code) {
            Some(found) => Some(found),
            None => self.find_at(at ^ 1, text, code),
        }
    }

    // Makes room for one more, where there is none.
    fn make_room(&mut self, alloc: Global) -> Result<(), Memory>
        ensures { (f : Forest) → AreSpelled f self.old.literals.items → AreSpelled f self.new.literals.items }
    {
        let count = self.places.len();
        if self.literals.len() < count / 4 {
            return Ok(());
        }
        if count >= MOST_ROOM {
            self.literals.clear();
            self.places = places_of(alloc, count, &self.literals)?;
            return Ok(());
        }
        self.places = places_of(alloc, FIRST_ROOM.max(count * 2), &self.literals)?;
        Ok(())
    }

    /// Remembers the literal by its text, which has this code.
    pub fn note(
        &mut self,
        alloc: Global,
        text: &[u8],
        code: usize,
        literal: &IdLiteral,
    ) -> Result<(), Memory>
        ensures { (f : Forest) → AreSpelled f self.old.literals.items → IsSpelled f text.now literal.now → AreSpelled f self.new.literals.items }
    {
        self.make_room(alloc)?;
        let text = Vec::from_slice(alloc, text)?;
        let place = self.literals.len();
        self.literals.push(Spelled {
            text,
            code,
            literal: *literal,
        })?;
        put(&mut self.places, code, place);
        Ok(())
    }
}
