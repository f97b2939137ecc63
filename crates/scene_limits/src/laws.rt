ghost use Rattle.scene_limits.specs.Laws.{ItemsOfEachList, MoreLevelsShowNoMore, PlacesOfEachList};
ghost use Rattle.scene_limits.specs.Laws.{IframesAreInReach, NoFaultIsWithin, NodesAreInReach};

/// 64 levels of pipelines are enough, for whoever reasons about expanded scenes. It does nothing.
pub fn level_laws()
    ensures items { ItemsOfEachList }
    ensures places { PlacesOfEachList }
    ensures more { MoreLevelsShowNoMore }
{}

/// What a scene without a fault has: each limit is met, and each node of a drawn pipeline is in reach. It does
/// nothing.
pub fn limit_laws()
    ensures within { NoFaultIsWithin }
    ensures nodes { NodesAreInReach }
    ensures iframes { IframesAreInReach }
{}
