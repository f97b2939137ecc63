ghost use Rattle.display_list.specs.Laws.{OneSpelling, OneList, NoneBegins, SpelledAreLists, ListsAreSpelled, OneFault, ListsHaveNoFault, FaultsAreWithin, ReadIsSpelled, SpelledIsRead, ReadFaultIsFirst, FirstFaultIsRead, TokensTellTrees, OneTree, TreesTellTokens, ListsAreTrees, TreesAreLow, TreesFit};

/// What holds of all spellings of lists, for whoever reasons about them: a list has one spelling, a
/// spelling one list, no spelling begins another, and spelled are exactly the lists that meet each check.
/// It does nothing.
pub fn spelling_laws()
    ensures one_spelling { OneSpelling }
    ensures one_list { OneList }
    ensures none_begins { NoneBegins }
    ensures lists { SpelledAreLists }
    ensures spelled { ListsAreSpelled }
{}

/// What holds of all first faults, for whoever reasons about them: there is one at most, none where a list
/// is spelled, and it stands in the bytes or just after them. It does nothing.
pub fn fault_laws()
    ensures one_fault { OneFault }
    ensures no_fault { ListsHaveNoFault }
    ensures within { FaultsAreWithin }
{}

/// What reading from left to right gives is what the grammar says, for whoever reasons about either. It
/// does nothing.
pub fn reading_laws()
    ensures read { ReadIsSpelled }
    ensures again { SpelledIsRead }
    ensures fault { ReadFaultIsFirst }
    ensures first { FirstFaultIsRead }
{}

/// A list's tokens tell its trees, and the trees the tokens; what holds of a list's items at every depth.
/// It does nothing.
pub fn tree_laws()
    ensures told { TokensTellTrees }
    ensures one { OneTree }
    ensures tokens { TreesTellTokens }
    ensures fields { ListsAreTrees }
    ensures low { TreesAreLow }
    ensures fit { TreesFit }
{}
