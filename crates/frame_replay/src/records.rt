//! The records that answer transactions, but for frames; and the transactions that payloads spell.

ghost use Rattle.std.specs.Prelude.{◌≡◌, ◌++◌, ◌≤◌, ◌^◌, length, OnOk};
ghost use Rattle.txn_format.specs.Grammar.{txn_at};
ghost use Rattle.scene_state.specs.Outcome.{Answers};
ghost use Rattle.frame_replay.specs.Answer.{refusal_record, stats_record};

use field_forms::{put_byte, put_u32};
use renderer::Report;
use scene_state::ApplyError;
use std::alloc::{AllocError, Global};
use txn_format::{Txn, read_txn};
use wr_io::{DecodeError, Fault};

/// Appends the record of a refusal.
pub(crate) fn put_refusal(out: &mut Vec<u8>, fault: Fault) -> Result<(), AllocError>
    ensures { OnOk result (out.new.items ≡ out.old.items ++ refusal_record fault.code fault.at) }
{
    out.extend_from_slice(&[b'X', fault.code.number()])?;
    put_u32(out, fault.at)
}

/// Appends the record of what a frame took.
pub(crate) fn put_stats(out: &mut Vec<u8>, report: Report) -> Result<(), AllocError>
    ensures { OnOk result (out.new.items ≡ out.old.items ++ stats_record report.tiles report.drawn) }
{
    put_byte(out, b'S')?;
    put_u32(out, report.tiles)?;
    out.extend_from_slice(&report.drawn.to_le_bytes())
}

/// The transaction that a payload spells, or its first fault.
pub(crate) fn read(alloc: Global, payload: &[u8]) -> Result<Txn<'_>, ApplyError>
    requires { length payload.now ≤ 2 ^ 26 }
    ensures { Answers (λ txn. txn) result (txn_at payload.now) }
{
    match read_txn(alloc, payload) {
        Ok(txn) => Ok(txn),
        Err(DecodeError::Fault(fault)) => Err(ApplyError::Fault(fault)),
        Err(DecodeError::NoMemory) => Err(ApplyError::NoMemory),
    }
}
