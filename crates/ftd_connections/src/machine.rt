//! What answers messages.

ghost use Rattle.std.specs.Prelude.{◌≡◌, ◌⊎◌, ℕ, Bool, List, IfOk, OnErr};
ghost use Rattle.ftd_http.specs.declared.ask.Inquiry.{Inquiry};
ghost use Rattle.ftd_connections.specs.Responses.{Said, said_of};

use crate::response::Response;
use ftd_http::Inquiry;
use std::alloc::{AllocError, Global};

/// What answers messages, one after the other. `By` tells apart the ways in which it does: a crate
/// that has a type of another crate answer them names one of its own.
pub trait Machine<By> {
    /// The machine before a message, what the message asks, its body, the response, and the machine
    /// after it.
    ghost goes: { Self → Inquiry → List ℕ → Said → Self → Type 0 };

    /// The machine before it is asked whether it still answers, whether it does, and the machine
    /// after it.
    ghost stays: { Self → Bool → Self → Type 0 };

    /// The response to what a message asks that has this body. Where there is no memory for it, the
    /// machine may have answered.
    fn respond(
        &mut self,
        alloc: Global,
        asked: &Inquiry,
        body: &[u8],
    ) -> Result<Response, AllocError>
        ensures ok { IfOk result
            (λ response. goes self.old asked.now body.now (said_of response) self.new) }
        ensures err { OnErr result ((self.new ≡ self.old)
            ⊎ ((said : Said) × goes self.old asked.now body.now said self.new)) };

    /// Whether it still answers.
    fn still_answers(&mut self, alloc: Global) -> bool
        ensures { stays self.old result self.new };
}
