// What a bank stores of each tree: the node, whose arguments are ids, and in a list beside it the measures, found once from
// those of the arguments. So a measure costs one look-up, however large the tree is.
ghost use Rattle.std.specs.Prelude.{◌≡◌};
ghost use Rattle.term_bank.specs.NodeHashes.{joined, node_fed};
ghost use Rattle.term_bank.specs.NodeLaws.{node_alike};
ghost use Rattle.term_bank.specs.Nodes.{AreParts};

use crate::boxed_list::BoxedList;
use crate::id::TermId;
use std::hash::{Hash, Hasher};

// A variable by its number, or the number of a symbol with the ids of its arguments. Up to two of them stand in the node
// itself: most trees take no list, and are compared without one. Symbols and ids have four bytes each, a variable eight, and
// a longer list stands behind one pointer: so no node takes more than one of two arguments.
#[derive(Debug, Drop, PartialEq, Eq)]
pub enum Node {
    Var(usize),
    Constant(u32),
    Unary(u32, [TermId; 1]),
    Binary(u32, [TermId; 2]),
    // More than two.
    Many(u32, BoxedList<TermId>),
}

const _: () = prove!(size_of::<Node>() == 16);

// A symbol's number and an argument as one number.
fn unary_key(number: u32, arg: TermId) -> u64
    ensures { result ≡ joined number arg }
{
    number as u64 + (arg.0 as u64) * 4294967296
}

// A symbol's number is hashed together with the first argument: each number by itself takes as long.
impl Hash for Node {
    ghost hash_input = { node_fed };

    ghost respects_eq = { node_alike };

    fn hash<H: Hasher>(&self, state: &mut H) {
        match self {
            Node::Var(v) => state.write_u64(*v as u64),
            Node::Constant(number) => state.write_u32(*number),
            Node::Unary(number, args) => state.write_u64(unary_key(*number, args[0])),
            Node::Binary(number, args) => {
                state.write_u64(unary_key(*number, args[0]));
                args[1].hash(state);
            }
            Node::Many(number, args) => {
                state.write_u32(*number);
                args.hash(state);
            }
        }
    }
}

// A node as a variable, or as a symbol's number with a list of arguments.
#[derive(Clone, Copy)]
pub enum Parts<'a> {
    Var(usize),
    App(usize, &'a [TermId]),
}

impl Node {
    #[inline]
    pub fn parts(&self) -> Parts<'_>
        ensures { AreParts self.now result }
    {
        match self {
            Node::Var(v) => Parts::Var(*v),
            Node::Constant(number) => Parts::App(*number as usize, &[]),
            Node::Unary(number, args) => Parts::App(*number as usize, args),
            Node::Binary(number, args) => Parts::App(*number as usize, args),
            Node::Many(number, args) => Parts::App(*number as usize, args.as_slice()),
        }
    }
}

// The size and the weight, at most `u64::MAX`, and the greatest number of a variable.
#[derive(Clone, Copy, Debug, PartialEq, Eq)]
pub struct Measures {
    pub size: u64,
    pub weight: u64,
    pub greatest: Option<usize>,
}
