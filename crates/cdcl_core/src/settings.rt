// What a solver is made with. No answer's contract depends on it.

// Whether failed literals are looked for before a question without assumptions; the value with which a new atom is tried first;
// and how many steps answers copy before a search begins anew: so many, and so many for each added clause.
#[derive(Clone, Copy)]
pub(crate) struct Settings {
    pub(crate) probes: bool,
    pub(crate) first_value: bool,
    pub(crate) copied: usize,
    pub(crate) copied_each: usize,
}

impl Settings {
    pub(crate) fn usual() -> Settings {
        Settings {
            probes: false,
            first_value: false,
            copied: 50_000,
            copied_each: 4,
        }
    }
}
