//! Why a form has no code.

ghost use Rattle.std.specs.Prelude.{◌≡◌};
ghost use Rattle.nova_back.specs.declared.error.BackError.TheVariants.{NoMemory as WantOfMemory};
ghost use Rattle.nova_back.specs.inner.Unbuilt.{of_bank};

use bank_prog::BankError;
use nv_base::NoMemory;
use zo_cert::Report;

/// Why a form has no code.
#[derive(Drop)]
pub enum BackError {
    NoMemory,
    /// The number of columns of the form's program of the banks, or else that of its rows, which is over 2^26.
    TooLarge(u64),
    /// No choice of banks meets the rows: the report proves it.
    Infeasible(Report),
    /// The budget of branches was spent before a choice of banks was found: the report has the tree that was searched.
    Spent(Report),
    /// The number of instructions of the code, which is over what was allowed.
    StoreFull(u32),
}

impl From<NoMemory> for BackError {
    ghost from_gives = { λ _ e. e ≡ WantOfMemory };

    fn from(_error: NoMemory) -> BackError {
        BackError::NoMemory
    }
}

impl From<BankError> for BackError {
    ghost from_gives = { λ b e. e ≡ of_bank b };

    fn from(error: BankError) -> BackError {
        match error {
            BankError::NoMemory => BackError::NoMemory,
            BankError::TooLarge(n) => BackError::TooLarge(n),
        }
    }
}
