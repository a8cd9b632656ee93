// Why a certificate is not accepted. The checks have one order, so the complaint is decided by the certificate alone; want of
// memory is no complaint, and says nothing of it.
ghost use Rattle.std.specs.Prelude.{◌≡◌};
ghost use Rattle.cert_check.specs.declared.error.CheckError.TheVariants as errors;

use cert_format::Complaint;
use inst_logic::Memory;

/// Why a certificate is not accepted: the first complaint that applies, or want of memory.
#[derive(Clone, Copy, Debug, PartialEq, Eq)]
pub enum CheckError {
    Complaint(Complaint),
    Memory,
}

impl From<Memory> for CheckError {
    ghost from_gives = { λ _ e. e ≡ errors.Memory };

    fn from(_e: Memory) -> CheckError {
        CheckError::Memory
    }
}
