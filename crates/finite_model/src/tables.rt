// Tables over the elements 1 to k, one for each symbol.
use inst_logic::{ListOf, PlaceList, Sym};

/// A symbol with a cell for each list of arguments, in lexicographic order of the lists, the last argument the fastest. A cell of a
/// function is an element, counted from 1; one of a predicate is 1 for true and 0 for false.
#[derive(Drop, Debug)]
pub struct Table {
    pub sym: Sym,
    pub cells: PlaceList,
}

/// Tables in the order of the first occurrences of their symbols.
pub type TableList = ListOf<Table>;

/// The tables of the functions, constants among them, and those of the predicates. Equality has none: it is identity.
#[derive(Drop, Debug)]
pub struct Tables {
    pub functions: TableList,
    pub predicates: TableList,
}
