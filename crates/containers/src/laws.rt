//! Laws of the containers' values. Each function is empty: its contract is the law.

ghost use Rattle.std.specs.Ordering.{nat_cmp};
ghost use Rattle.containers.specs.Laws.{MapLaws, SequenceLaws};
ghost use Rattle.containers.specs.PairOrder.{pair_cmp};

/// What a map by number has after an insertion or a removal, and when two such maps are equal.
pub fn number_map_laws<V>()
    ensures { MapLaws nat_cmp V }
{}

/// What a map by two numbers has after an insertion or a removal, and when two such maps are equal.
pub fn pair_map_laws<V>()
    ensures { MapLaws pair_cmp V }
{}

/// Sequences are equal exactly where their lists are, if that holds of their members.
pub fn sequence_laws<T: Ord>()
    ensures { SequenceLaws T.eq T.cmp }
{}
