//! What holds of slices, whatever their members are. Each function is empty: its contract is the law.

ghost use Rattle.slice_rules.specs.RunLaws.{RunsHaveOneHome, NeighbouringRunsDiffer, RunsHaveAll};
ghost use Rattle.slice_rules.specs.RunLaws.{SlicesHaveAll, SlicesAreFew, SlicesHaveMembers};
ghost use Rattle.slice_rules.specs.RunLaws.{RunsOfMapped, SlicesOfMapped};
ghost use Rattle.slice_rules.specs.KeyLaws.{EachSliceHasAKey, KeysNameHomes, KeysAreDistinct, KeysOfMapped};
ghost use Rattle.slice_rules.specs.SharedLaws.{SharedBeginEach, SharedAreSharable, SharedAreMost, HomelessShareNone};
ghost use Rattle.slice_rules.specs.SharedLaws.{SharedOfMapped, ShownOfMapped};

/// Runs and slices have all members, in order, in parts of one home. It does nothing.
pub fn run_laws<T>()
    ensures one_home { RunsHaveOneHome T }
    ensures neighbours { NeighbouringRunsDiffer T }
    ensures all { RunsHaveAll T }
    ensures slices_all { SlicesHaveAll T }
    ensures few { SlicesAreFew T }
    ensures some { SlicesHaveMembers T }
{}

/// Each slice has a key of its own. It does nothing.
pub fn key_laws<T>()
    ensures each { EachSliceHasAKey T }
    ensures homes { KeysNameHomes T }
    ensures distinct { KeysAreDistinct T }
{}

/// The clips that a slice shares are all that it may share. It does nothing.
pub fn shared_laws<T>()
    ensures first { SharedBeginEach T }
    ensures sharable { SharedAreSharable T }
    ensures most { SharedAreMost T }
    ensures homeless { HomelessShareNone T }
{}

/// Slices depend on the homes and the clips of their members alone. It does nothing.
pub fn mapping_laws<A, B>()
    ensures runs { RunsOfMapped A B }
    ensures slices { SlicesOfMapped A B }
    ensures keys { KeysOfMapped A B }
    ensures shared { SharedOfMapped A B }
    ensures shown { ShownOfMapped A B }
{}
