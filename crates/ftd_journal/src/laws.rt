//! What follows from the definitions alone: each function's contract is a law, its body is empty.

ghost use Rattle.std.specs.Prelude.{◌≡◌, ◌++◌, flat_map, map};
ghost use Rattle.ftd_machine.specs.Journal.{SameEntries, days_journal, in_order, is_account_before};
ghost use Rattle.ftd_machine.specs.Journal.{journal};
ghost use Rattle.ftd_machine.specs.Sound.{IsSound, name_of};
ghost use Rattle.ftd_machine.specs.State.{State};
ghost use Rattle.ftd_journal.specs.Parts.{own_journal};

/// The journal of a desk is that of its days, and then those of its accounts, by name.
#[tactic(auto, using(crate::proofs::Whole::by_name))]
pub fn a_journal_goes_by_name()
    ensures { (s : State) → IsSound s → journal s
        ≡ days_journal s
        ++ flat_map (own_journal s) (map name_of (in_order is_account_before s.accounts)) }
{}

/// Two desks have the same journal exactly where they have the same entries, in whatever order
/// these were accepted: so two journals tell whether two desks differ.
#[tactic(auto, using(crate::proofs::Equal::entries_equal, crate::proofs::Equal::journals_equal))]
pub fn equal_journals_are_equal_entries()
    ensures entries { (s t : State) → IsSound s → IsSound t → journal s ≡ journal t
        → SameEntries s t }
    ensures journals { (s t : State) → IsSound s → IsSound t → SameEntries s t
        → journal s ≡ journal t }
{}
