//! Answers within the bound of an account's amounts.

ghost use Rattle.std.specs.Prelude.{◌≡◌, ◌⊎◌, false, Err, IfOk};
ghost use Rattle.ftd_machine.specs.Laws.{is_change};
ghost use Rattle.ftd_machine.specs.Laws.{IsBounded};

use ftd_machine::{Answer, Refusal, is_bounded};

/// The answer to a request that changed nothing; `Store` for a list of which the amounts are
/// together more than those of an account can be.
pub(crate) fn bounded(answer: Answer) -> Answer
    requires quiet { is_change answer ≡ false }
    ensures bounded { IfOk result IsBounded }
    ensures same { (result ≡ answer) ⊎ (result ≡ Err Refusal.Store) }
{
    match answer {
        Ok(reply) if !is_bounded(&reply) => Err(Refusal::Store),
        answer => answer,
    }
}
