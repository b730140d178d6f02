//! What follows from the definitions alone: each function's contract is a law, its body is empty.

ghost use Rattle.ftd_machine.specs.Sound.{IsSound};
ghost use Rattle.ftd_machine.specs.State.{State};
ghost use Rattle.ftd_sound.specs.Parts.{IsSoundByParts};

/// A state is sound exactly where its days are, each entry is one of an account that is enrolled,
/// and what is kept of each account is sound by itself.
#[tactic(auto, using(crate::proofs::Parted::sound_by_parts, crate::proofs::Parted::parts_sound))]
pub fn a_state_is_sound_account_by_account()
    ensures parts { (s : State) → IsSound s → IsSoundByParts s }
    ensures whole { (s : State) → IsSoundByParts s → IsSound s }
{}
