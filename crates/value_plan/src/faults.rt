//! Why a plan takes no further slot.
use gh_base::NoMemory;
use thiserror::Error;

/// After each of these the plan is as before.
#[derive(Clone, Copy, Debug, PartialEq, Eq, Error)]
pub enum PlanFault {
    /// The slot's bits aren't left of the 128: make it narrower, or leave another one out.
    #[error("no bits")]
    NoBits,
    #[error("no memory")]
    NoMemory,
}

impl From<NoMemory> for PlanFault {
    ghost use Rattle.std.specs.Prelude.{◌≡◌};
    ghost use Rattle.value_plan.specs.declared.faults.PlanFault.TheVariants as fault;

    ghost from_gives = { λ _ e. e ≡ fault.NoMemory };

    fn from(_: NoMemory) -> PlanFault {
        PlanFault::NoMemory
    }
}
