// Numbers as they are stored.
ghost use Rattle.std.specs.Prelude.{◌≡◌, ◌<◌, ◌≤◌, ◌^◌, IfOk, OnErr};

use inst_logic::Memory;

// The number in four bytes, where it has room there.
pub fn short(number: usize) -> Result<u32, Memory>
    ensures same { IfOk result (λ n. n ≡ number) }
    ensures small { IfOk result (λ n. n < 2 ^ 32) }
    ensures large { OnErr result (2 ^ 32 ≤ number) }
{
    match u32::try_from(number) {
        Ok(n) => Ok(n),
        Err(_) => Err(Memory),
    }
}
