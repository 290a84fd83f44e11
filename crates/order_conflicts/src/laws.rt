// Laws over the definitions: each is the contract of a function with nothing to do.
ghost use Rattle.std.specs.Prelude.{◌≡◌, ◌<◌, ◌↔◌, ℕ, ℤ, List, None, length, true, false};
ghost use Rattle.std.specs.List.{All, Contains};
ghost use Rattle.order_laws.specs.declared.Order.{Order};
ghost use Rattle.order_laws.specs.declared.Point.{Point};
ghost use Rattle.order_laws.specs.Chains.{Follows, HasCycle, IsChain, shows_strict};
ghost use Rattle.order_laws.specs.Lists.{IsAtMost};
ghost use Rattle.order_laws.specs.Placings.{IsConsistent};
ghost use Rattle.order_laws.specs.Tables.{IsOrderSet};
ghost use Rattle.order_core.specs.Sets.{Orders, AreAscending, AreInRange, completed};
ghost use Rattle.order_conflicts.specs.Conflicts.{conflicts_in};
ghost use Rattle.order_conflicts.specs.Rings.{IsCycle, is_on, point_along};
ghost use Rattle.order_conflicts.specs.Suspects.{is_suspect, suspect_of, suspects_in, without};
ghost use Rattle.order_conflicts.specs.Tangles.{are_tied, least_points, set_of, tangle_at, untangled};

/// Nothing contradicts itself exactly where some placing satisfies the orders.
pub fn conflicts_are_found_where_no_placing_is()
    ensures { (set : Orders) → IsOrderSet set.list set.extents set.dates → (conflicts_in set ≡ None) ↔ IsConsistent set.list set.dates set.extents }
{}

/// Points are tied exactly where each is before or at the other by what follows.
pub fn tied_points_follow_each_other()
    ensures { (orders : List Order) (x y : Point) → (are_tied orders x y ≡ true) ↔ (Follows orders x y false × Follows orders y x false) }
{}

/// Tangles list exactly the orders of cycles.
pub fn listed_orders_are_those_of_cycles()
    ensures { (set : Orders) (n : ℕ) → IsOrderSet set.list set.extents set.dates →
        ((x : Point) × (Contains (least_points set) x × Contains (tangle_at set x).orders n))
        ↔ ((ns : List ℕ) × (IsCycle set.list ns × Contains ns n)) }
{}

/// Each cycle lies in one tangle, which lists all its orders.
pub fn cycles_lie_in_tangles()
    ensures { (set : Orders) (ns : List ℕ) → IsOrderSet set.list set.extents set.dates → IsCycle set.list ns →
        (x : Point) × (Contains (least_points set) x × All (λ n. Contains (tangle_at set x).orders n) ns) }
{}

/// No order is listed in two tangles.
pub fn tangles_share_no_order()
    ensures { (set : Orders) (x y : Point) (n : ℕ) → IsOrderSet set.list set.extents set.dates →
        Contains (least_points set) x → Contains (least_points set) y →
        Contains (tangle_at set x).orders n → Contains (tangle_at set y).orders n → x ≡ y }
{}

/// Some placing satisfies all orders but those that come from statements and that a tangle lists.
pub fn orders_beside_tangles_are_consistent()
    ensures { (extents : ℕ) (dates : List ℤ) (statements : List Order) → AreAscending dates → AreInRange extents (length dates) statements →
        IsConsistent (completed extents (length dates) (untangled extents dates statements)) dates extents }
{}

/// The cycle of a tangle is one, along orders that the tangle lists; it is the first of all from the points of the
/// tangle, so a shortest one; and it passes no point twice.
pub fn cycles_of_tangles_are_first()
    ensures cycle { (set : Orders) (x : Point) → IsOrderSet set.list set.extents set.dates → Contains (least_points set) x →
        IsCycle set.list (tangle_at set x).cycle × All (λ n. Contains (tangle_at set x).orders n) (tangle_at set x).cycle }
    ensures first { (set : Orders) (x y : Point) (ns : List ℕ) → IsOrderSet set.list set.extents set.dates → Contains (least_points set) x →
        are_tied set.list x y ≡ true → IsChain set.list y y ns → shows_strict set.list ns ≡ true → IsAtMost (tangle_at set x).cycle ns }
    ensures once { (set : Orders) (x : Point) (i j : ℕ) → IsOrderSet set.list set.extents set.dates → Contains (least_points set) x →
        i < j → j < length (tangle_at set x).cycle →
        ¬ (point_along set.list (tangle_at set x).cycle i ≡ point_along set.list (tangle_at set x).cycle j) }
{}

/// A triple is a suspect exactly where some placing satisfies all orders that it does not make.
pub fn suspects_alone_can_be_wrong()
    ensures { (extents : ℕ) (dates : List ℤ) (statements : List Order) (t : ℕ) → AreAscending dates → AreInRange extents (length dates) statements →
        (is_suspect (set_of extents dates statements) t ≡ true)
        ↔ IsConsistent (without t (completed extents (length dates) statements)) dates extents }
{}

/// Of orders with a cycle exactly the suspects are listed, each with the orders that it makes.
pub fn suspects_are_listed()
    ensures { (set : Orders) (t : ℕ) → IsOrderSet set.list set.extents set.dates → HasCycle set.list →
        Contains (suspects_in set) (suspect_of set.list t) ↔ (is_suspect set t ≡ true) }
{}

/// A suspect makes an order of every cycle.
pub fn suspects_are_on_every_cycle()
    ensures { (set : Orders) (t : ℕ) (ns : List ℕ) → IsOrderSet set.list set.extents set.dates → is_suspect set t ≡ true → IsCycle set.list ns →
        is_on set.list t ns ≡ true }
{}
