// Why a formula is not labelled.
ghost use Rattle.std.specs.Prelude.{◌≡◌};
ghost use Rattle.tl_action.specs.declared.check_fault.CheckFault.TheVariants as fault;
ghost use Rattle.tl_check.specs.declared.unlabelled.Unlabelled.TheVariants as unlabelled;

use crate::CheckFault;
use tl_syntax::NoMemory;

/// Why a formula is not labelled.
#[derive(Clone, Copy)]
pub(crate) enum Unlabelled {
    /// The check ends with this fault.
    Fault(CheckFault),
    /// The formula is read in the states themselves, and these are not kept.
    NotKept,
}

impl From<NoMemory> for Unlabelled {
    ghost from_gives = { λ _ e. e ≡ unlabelled.Fault fault.NoMemory };

    fn from(_: NoMemory) -> Self {
        Unlabelled::Fault(CheckFault::NoMemory)
    }
}

impl From<CheckFault> for Unlabelled {
    ghost from_gives = { λ x e. e ≡ unlabelled.Fault x };

    fn from(fault: CheckFault) -> Self {
        Unlabelled::Fault(fault)
    }
}
