// Numbers in four bytes.
ghost use Rattle.std.specs.Prelude.{◌≡◌, IfOk};

use inst_logic::Memory;

/// The number in four bytes; want of memory where it needs more.
pub fn small(n: usize) -> Result<u32, Memory>
    ensures { IfOk result (λ k. k ≡ n) }
{
    match u32::try_from(n) {
        Ok(k) => Ok(k),
        Err(_) => Err(Memory),
    }
}
