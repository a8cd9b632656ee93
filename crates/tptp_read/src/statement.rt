// Statements of problems, as they are written: an include is not followed here, and a clause that holds always is kept, since
// an include may select it by name.
use inst_logic::{Clause, ListOf, Name, NameList};

/// What a formula is given as.
#[derive(Clone, Copy, Debug, PartialEq, Eq)]
pub enum Role {
    Axiom,
    Hypothesis,
    Definition,
    Assumption,
    Lemma,
    Theorem,
    Corollary,
    NegatedConjecture,
    Plain,
}

/// A statement of a text: a clause with its name, or that the statements of another file stand here.
#[derive(Drop)]
pub enum Statement {
    /// `always` is true where the clause says that it holds always, as `$true` among its literals does.
    Cnf {
        name: Name,
        role: Role,
        always: bool,
        clause: Clause,
    },
    /// Of the file all statements are meant, or those that the selection names.
    Include {
        file: Name,
        selection: Option<NameList>,
    },
}

/// The statements of a text, in their order: `get` counts them from 0, and refusals from 1.
pub type StatementList = ListOf<Statement>;

/// Which limit of a statement is passed.
#[derive(Clone, Copy, Debug, PartialEq, Eq)]
pub enum Which {
    /// More than 256 of `(` and `[` are open at once, that of `cnf(` counted.
    Nesting,
    /// A symbol has more than 1,024 arguments.
    Arity,
    /// There are more than 10,000 different variables.
    Variables,
}
