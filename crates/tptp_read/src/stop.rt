// Why reading stopped. Below a statement one kind of failure is enough: the tokens are no statement, or memory is wanted. Which
// fault a statement has is judged above, in the order of the rules.
ghost use Rattle.std.specs.Prelude.{◌≡◌};
ghost use Rattle.tptp_read.specs.declared.stop.Stop.TheVariants as stops;

use inst_logic::Memory;

// `Wrong`: the tokens are not of the form that is read.
#[derive(Clone, Copy, Debug)]
pub enum Stop {
    Memory,
    Wrong,
}

impl From<Memory> for Stop {
    ghost from_gives = { λ _ e. e ≡ stops.Memory };

    fn from(_e: Memory) -> Stop {
        Stop::Memory
    }
}
