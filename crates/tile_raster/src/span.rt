//! Spans of a row.

ghost use Rattle.std.specs.Prelude.{◌<◌, ◌^◌};

/// The places of a row from `from` to before `to`.
#[derive(Clone, Copy, Debug)]
pub(crate) struct Span {
    pub(crate) from: u16,
    pub(crate) to: u16,
}

/// What the type of a span keeps. It does nothing.
pub(crate) fn know_span(span: Span)
    ensures { span.to < 2 ^ 16 }
{
    let _to = span.to;
}
