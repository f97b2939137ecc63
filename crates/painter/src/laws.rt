//! What holds of painted items, pipelines, top items and slices. Each function is empty: its contract is the law.

ghost use Rattle.painter.specs.Laws.{ItemGivesPixel, ItemsGivePixel, PipelinesGivePixels, PipelinesGivePremultiplied};
ghost use Rattle.painter.specs.Laws.{PrimitiveStaysInside, ItemStaysInside, IframeStaysInside};
ghost use Rattle.painter.specs.Laws.{NothingUnderNoCover, NothingWhereClippedAway};
ghost use Rattle.painter.specs.Laws.{EmptyIframePaintsNothing, EmptyIframeHasNoTops};
ghost use Rattle.painter.specs.Laws.{PlainContextPaintsItems, PlainContextHasTheirTops, GroupOnClearIsItsItems};
ghost use Rattle.painter.specs.Laws.{MoreLevelsPaintTheSame, MoreLevelsHaveTheSameTops};
ghost use Rattle.painter.specs.Laws.{PipelinePaintsItsList, PipelineHasItsListsTops};
ghost use Rattle.painter.specs.Laws.{FrameHasRootScroll, OpaqueSolidHides, TopsAreDrawn, TopsPaintTheScene};
ghost use Rattle.painter.specs.Laws.{OneHomeIsOneGroup, PictureIsPixel, PictureIsPremultiplied};
ghost use Rattle.painter.specs.SharedLaws.{EachClipHasAHome, ClearOutsideShown};
ghost use Rattle.painter.specs.TopItems.{TopItem};
ghost use Rattle.slice_rules.specs.RunLaws.{RunsHaveOneHome, NeighbouringRunsDiffer, RunsHaveAll};
ghost use Rattle.slice_rules.specs.RunLaws.{SlicesHaveAll, SlicesAreFew, SlicesHaveMembers};
ghost use Rattle.slice_rules.specs.SharedLaws.{SharedBeginEach, SharedAreSharable, SharedAreMost, HomelessShareNone};

/// What is painted over a pixel is a pixel, and premultiplied over any premultiplied colour. It does nothing.
pub fn pixel_laws()
    ensures item { ItemGivesPixel }
    ensures items { ItemsGivePixel }
    ensures pipelines { PipelinesGivePixels }
    ensures premultiplied { PipelinesGivePremultiplied }
{}

/// An item changes nothing outside of its rectangle, nor where its clips or the cover around it leave
/// nothing, nor does an Iframe without a list. It does nothing.
pub fn unchanged_laws()
    ensures primitive { PrimitiveStaysInside }
    ensures item { ItemStaysInside }
    ensures iframe { IframeStaysInside }
    ensures no_cover { NothingUnderNoCover }
    ensures clipped_away { NothingWhereClippedAway }
    ensures empty_iframe { EmptyIframePaintsNothing }
    ensures empty_tops { EmptyIframeHasNoTops }
{}

/// When a context gives what its items give without it. It does nothing.
pub fn context_laws()
    ensures plain { PlainContextPaintsItems }
    ensures plain_tops { PlainContextHasTheirTops }
    ensures group { GroupOnClearIsItsItems }
{}

/// 64 levels of pipelines are enough, and a pipeline gives what its list gives. It does nothing.
pub fn paint_laws()
    ensures colours { MoreLevelsPaintTheSame }
    ensures tops { MoreLevelsHaveTheSameTops }
    ensures list { PipelinePaintsItsList }
    ensures list_tops { PipelineHasItsListsTops }
{}

/// What top items are, with which scroll frames they move, and what they paint in order. It does nothing.
pub fn top_laws()
    ensures drawn { TopsAreDrawn }
    ensures frame { FrameHasRootScroll }
    ensures hidden { OpaqueSolidHides }
    ensures scene { TopsPaintTheScene }
{}

/// Runs and slices have all top items, runs side by side have different homes, and slices are at most
/// eight. It does nothing.
pub fn slice_laws()
    ensures one_home { RunsHaveOneHome TopItem }
    ensures neighbours { NeighbouringRunsDiffer TopItem }
    ensures run_tops { RunsHaveAll TopItem }
    ensures slice_tops { SlicesHaveAll TopItem }
    ensures few { SlicesAreFew TopItem }
{}

/// What the picture is over a colour behind all. It does nothing.
pub fn picture_laws()
    ensures pixel { PictureIsPixel }
    ensures premultiplied { PictureIsPremultiplied }
    ensures one_home { OneHomeIsOneGroup }
{}

/// The clips that a slice shares stand first in every one of its top items, and outside of them the slice
/// is clear. It does nothing.
pub fn shared_laws()
    ensures homes { EachClipHasAHome }
    ensures first { SharedBeginEach TopItem }
    ensures sharable { SharedAreSharable TopItem }
    ensures most { SharedAreMost TopItem }
    ensures homeless { HomelessShareNone TopItem }
    ensures some { SlicesHaveMembers TopItem }
    ensures shown { ClearOutsideShown }
{}
