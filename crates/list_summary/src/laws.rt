ghost use Rattle.list_summary.specs.Laws.{SummariesTellTotals};

/// The totals of an expanded list are those of its summary with what each Iframe adds, for whoever reasons
/// about them. It does nothing.
pub fn summary_laws()
    ensures totals { SummariesTellTotals }
{}
