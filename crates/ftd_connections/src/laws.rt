//! What follows from the definitions alone: each function's contract is a law, and its body is
//! empty.

ghost use Rattle.std.specs.Prelude.{◌≡◌, ◌⊎◌, ℕ, List, Option};
ghost use Rattle.ftd_http.specs.Messages.{Message, AreMessages, MayBeCutOrRefused};
ghost use Rattle.ftd_http.specs.declared.status.Status.{Status};
ghost use Rattle.ftd_connections.specs.Serving.{Ends};
ghost use Rattle.ftd_connections.specs.declared.connection.End.{End};

/// The bytes of a connection are cut into messages up to an end in one way, whatever reads they
/// came in, and whether a message is refused there, and by which status, follows from them too: but
/// where they end inside a request target, or more than 64 fields stand in a head.
pub fn one_cut_of_a_connection()
    ensures messages { (bytes rest other_rest : List ℕ) (messages others : List Message)
        (refusal other_refusal : Option Status) (how other : End)
        → AreMessages bytes messages rest → Ends rest messages refusal how
        → AreMessages bytes others other_rest → Ends other_rest others other_refusal other
        → (messages ≡ others) × (rest ≡ other_rest) }
    ensures refusal { (rest : List ℕ) (messages : List Message)
        (refusal other_refusal : Option Status) (how other : End)
        → Ends rest messages refusal how → Ends rest messages other_refusal other
        → (refusal ≡ other_refusal) ⊎ MayBeCutOrRefused rest }
{}
