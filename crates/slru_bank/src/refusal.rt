// Why a bank refuses.
use disk_core::Failed;
use thiserror::Error;

/// Why a call on a bank was refused.
#[derive(Clone, Copy, Debug, PartialEq, Eq, Error)]
pub enum BankRefusal {
    /// The page's segment lies wholly before the cutoff that the bank keeps.
    #[error("the page was cut, pages are kept from {cutoff} on")]
    Cut { cutoff: u32 },
    /// The volume failed, and its count of faults rose.
    #[error("the page volume failed")]
    DiskFault,
}

impl From<Failed> for BankRefusal {
    ghost use Rattle.std.specs.Prelude.{◌≡◌};
    ghost use Rattle.slru_bank.specs.declared.refusal.BankRefusal.TheVariants.{DiskFault};

    ghost from_gives = { λ f r. r ≡ DiskFault };

    fn from(_failed: Failed) -> BankRefusal {
        BankRefusal::DiskFault
    }
}
