// Lists in order.
ghost use Rattle.std.specs.Prelude.{◌≡◌, Any, Contains};
ghost use Rattle.std.specs.declared.cmp.Ordering.TheVariants.{Equal};
ghost use Rattle.std.specs.List.Sorted.{IsStrictlySortedBy};

/// Puts keys in ascending order, each once.
pub(crate) fn each_once<K: Copy + Ord>(keys: &mut Vec<K>)
    ensures ascending { IsStrictlySortedBy K.cmp keys.new.items }
    ensures each { (k : K) → Contains keys.old.items k
        → Any (λ y. K.cmp k y ≡ Equal) keys.new.items }
    ensures only { (k : K) → Contains keys.new.items k → Contains keys.old.items k }
{
    keys.sort_unstable();
    keys.dedup();
}
