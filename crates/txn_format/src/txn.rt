//! A transaction that stands.

ghost use Rattle.std.specs.Prelude.{◌≡◌, ◌≤◌, ◌^◌, All};
ghost use Rattle.txn_format.specs.Models.{placed_models, txn_model};
ghost use Rattle.txn_format.specs.Grammar.{IsTxnSpelled};
ghost use Rattle.txn_format.specs.Checks.{IsTxn, EndsWithin};

use crate::Placed;
use std::marker::Model;

/// The fields of a transaction, which may be spelled by no payload.
#[derive(Debug, Drop)]
pub struct Fields<'a> {
    pub pipeline: u8,
    pub frame: bool,
    pub len: u32,
    pub ops: Vec<Placed<'a>>,
}

/// A transaction that some payload of at most 64 MiB spells. Its positions and its length are those of
/// its spelling.
#[derive(Debug, Drop)]
pub struct Txn<'a> {
    fields: Fields<'a>,
}

impl<'a> Model for Txn<'a> {
    ghost use Rattle.txn_format.specs.Txn.{TxnModel};

    ghost Value = { TxnModel };

    ghost use Rattle.txn_format.specs.Models.{txn_model};
    ghost use Rattle.txn_format.specs.Grammar.{IsTxnSpelled};

    ghost view = { λ t. txn_model t.fields };

    ghost invariant = { λ t. IsTxnSpelled (txn_model t.fields) };
}

impl<'a> Txn<'a> {
    pub(crate) fn new(fields: Fields<'a>) -> Txn<'a>
        requires { IsTxnSpelled (txn_model fields) }
        ensures { result ≡ txn_model fields.entry }
    {
        Txn { fields }
    }

    /// The pipeline, at most 63.
    pub fn pipeline(&self) -> u8
        ensures value { result ≡ self.now.pipeline }
        ensures spelled { IsTxnSpelled self.now }
    {
        self.fields.pipeline
    }

    /// Whether a frame is asked for.
    pub fn frame(&self) -> bool
        ensures value { result ≡ self.now.frame }
        ensures spelled { IsTxnSpelled self.now }
    {
        self.fields.frame
    }

    /// The payload's length, in bytes: at most 64 MiB.
    pub fn len(&self) -> u32
        ensures value { result ≡ self.now.len }
        ensures bound { result ≤ 2 ^ 26 }
        ensures spelled { IsTxnSpelled self.now }
    {
        self.fields.len
    }

    /// The operations in order. Each meets its checks, and ends within the payload.
    pub fn ops(&self) -> &[Placed<'a>]
        ensures value { placed_models result.now ≡ self.now.ops }
        ensures checked { IsTxn self.now }
        ensures within { All (EndsWithin self.now.len) self.now.ops }
        ensures spelled { IsTxnSpelled self.now }
    {
        self.fields.ops.as_slice()
    }
}
