//! Laws of transactions, for whoever reasons about them. Each function is empty: its contract is the law.

ghost use Rattle.txn_format.specs.Laws.{SpellingIsTxn, OneTxn, NoTxnBegins, OneTxnFault, TxnsHaveNoFault, TxnFaultsAreWithin, ReadTxnIsSpelled, SpelledTxnIsRead, ReadTxnFaultIsFirst, FirstTxnFaultIsRead};

/// A transaction has one spelling, exactly where it meets each check; a payload spells one transaction;
/// and no spelling begins another.
pub fn txn_spelling_laws()
    ensures spelling { SpellingIsTxn }
    ensures one_txn { OneTxn }
    ensures none_begins { NoTxnBegins }
{}

/// A payload has one first fault at most, and none where it spells a transaction. It stands in the payload
/// or just after it.
pub fn txn_fault_laws()
    ensures one_fault { OneTxnFault }
    ensures no_fault { TxnsHaveNoFault }
    ensures within { TxnFaultsAreWithin }
{}

/// What reading from left to right gives is what the grammar says.
pub fn txn_reading_laws()
    ensures read { ReadTxnIsSpelled }
    ensures again { SpelledTxnIsRead }
    ensures fault { ReadTxnFaultIsFirst }
    ensures first { FirstTxnFaultIsRead }
{}
