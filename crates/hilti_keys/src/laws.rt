//! Laws of the definitions that the contracts of this crate cite. They do nothing when they are called.
ghost use Rattle.std.specs.Prelude.{◌≡◌, ◌↔◌};
ghost use Rattle.std.specs.Ordering.{ordering_reverse};
ghost use Rattle.std.specs.declared.cmp.Ordering.TheVariants.{Less, Equal};
ghost use Rattle.hilti_tree.specs.declared.tree.Tree.{Tree};
ghost use Rattle.hilti_keys.specs.Keys.{AreKeys};
ghost use Rattle.hilti_keys.specs.Orders.{order_of};

/// The order is total on the keys of each type, and only equal keys stand at one place.
pub fn total_order()
    ensures equal { (a b : Tree) → AreKeys a b → (order_of a b ≡ Equal) ↔ (a ≡ b) }
    ensures turned { (a b : Tree)
        → AreKeys a b → order_of b a ≡ ordering_reverse (order_of a b) }
    ensures through { (a b c : Tree)
        → AreKeys a b → AreKeys b c → order_of a b ≡ Less → order_of b c ≡ Less
        → order_of a c ≡ Less }
{}
