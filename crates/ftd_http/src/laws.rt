//! What follows from the definitions alone: each function's contract is a law, and its body is
//! empty.

ghost use Rattle.std.specs.Prelude.{◌≡◌, ℕ, List, [], ◌∷◌, length};
ghost use Rattle.ftd_http.specs.Messages.{Message, AreMessages, IsRefused, IsCut};
ghost use Rattle.ftd_http.specs.Messages.{MayBeCutOrRefused};
ghost use Rattle.ftd_http.specs.declared.status.Status.{Status};

/// Bytes are cut into messages in one way: as many messages from the same place are the same ones,
/// and leave the same rest.
pub fn one_cut_into_messages()
    ensures { (bytes rest other_rest : List ℕ) (messages others : List Message)
        → AreMessages bytes messages rest → AreMessages bytes others other_rest
        → length messages ≡ length others → (messages ≡ others) × (rest ≡ other_rest) }
{}

/// Of a whole message, nothing, a message that is cut and one that is refused, no two come next in
/// the same bytes. But where the bytes end inside a request target, or more than 64 fields stand in
/// a head, that message may be cut and refused.
pub fn one_thing_comes_next()
    ensures whole_or_nothing { (bytes rest : List ℕ) (message : Message)
        → AreMessages bytes (message ∷ []) rest → bytes ≡ [] → ⊥ }
    ensures whole_or_cut { (bytes rest : List ℕ) (message : Message)
        → AreMessages bytes (message ∷ []) rest → IsCut bytes → ⊥ }
    ensures whole_or_refused { (bytes rest : List ℕ) (message : Message) (status : Status)
        → AreMessages bytes (message ∷ []) rest → IsRefused bytes status → ⊥ }
    ensures nothing_or_cut { IsCut [] → ⊥ }
    ensures nothing_or_refused { (status : Status) → IsRefused [] status → ⊥ }
    ensures cut_or_refused { (bytes : List ℕ) (status : Status)
        → IsCut bytes → IsRefused bytes status → MayBeCutOrRefused bytes }
    ensures one_status { (bytes : List ℕ) (status other : Status)
        → IsRefused bytes status → IsRefused bytes other → status ≡ other }
{}
