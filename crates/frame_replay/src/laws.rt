//! Laws of what commands write. The functions do nothing: their contracts state the laws.

ghost use Rattle.frame_replay.specs.Laws.{AcceptedIsAnswered, DrawnAreDrawn, FirstFaultIsAnswered};
ghost use Rattle.frame_replay.specs.Laws.{ListFaultIsAnswered, PaintIsReplay, ReplayRefusesNone, SceneFaultIsAnswered};

/// `replay` never ends with an entry that it refuses.
pub fn replay_laws()
    ensures { ReplayRefusesNone }
{}

/// `paint` writes what `replay` writes, byte for byte.
pub fn paint_laws()
    ensures { PaintIsReplay }
{}

/// A payload that spells no transaction is answered by its first fault, and a transaction that is refused by the
/// fault of its operations or of the scene that they make. A list's fault is counted from the payload's first
/// byte. All these leave the state. One that is accepted and asks for no frame is answered by `A`.
pub fn refusal_laws()
    ensures payloads { FirstFaultIsAnswered }
    ensures scenes { SceneFaultIsAnswered }
    ensures lists { ListFaultIsAnswered }
    ensures accepted { AcceptedIsAnswered }
{}

/// The pipelines that a frame's record lists are those that are drawn.
pub fn drawn_laws()
    ensures { DrawnAreDrawn }
{}
