// Laws over dates and placings: each is the contract of a function with nothing to do.
ghost use Rattle.std.specs.Prelude.{◌≡◌, ◌<◌, ◌↔◌, ◌∷◌, ◌++◌, [], ℕ, ℤ, pos, List, Some, None, false, true, length, IfSome, slice_index_or};
ghost use Rattle.order_laws.specs.declared.Order.{Order};
ghost use Rattle.order_laws.specs.declared.Point.{Point};
ghost use Rattle.order_laws.specs.declared.Point.TheVariants.{Date};
ghost use Rattle.order_laws.specs.declared.Position.{Position};
ghost use Rattle.order_laws.specs.Chains.{HasCycle};
ghost use Rattle.order_laws.specs.Placings.{IsSatisfied, position_at};
ghost use Rattle.order_laws.specs.Positions.{IsBefore};
ghost use Rattle.order_laws.specs.Closure.{reach_between};
ghost use Rattle.order_laws.specs.Tables.{IsPoint, IsOrderSet};
ghost use Rattle.order_laws.specs.Wider.{plain_placing, delaying_placing};
ghost use Rattle.order_core.specs.Sets.{Orders};
ghost use Rattle.dating_bounds.specs.Around.{IsBoundary, IsBoundOf, Always, bound_of};
ghost use Rattle.dating_bounds.specs.Dated.{dated, place_of};
ghost use Rattle.dating_bounds.specs.Moment.{IsDuring, during_of};
ghost use Rattle.dating_bounds.specs.Pushed.{IsPush, pushed};

/// The computed bounds are the last date that every satisfying placing has at or before the boundary, and the first that every
/// one has at or after it.
pub fn bounds_hold_in_every_placing()
    ensures { (set : Orders) (p : Point) → IsOrderSet set.list set.extents set.dates → ¬ HasCycle set.list → IsBoundary set.extents p →
        IsBoundOf set p (bound_of set p) }
{}

/// The plain placing puts a boundary before each date that is not its low bound's date or earlier.
pub fn plain_placing_puts_before_dates()
    ensures { (set : Orders) (p : Point) (d : ℕ) → IsOrderSet set.list set.extents set.dates → ¬ HasCycle set.list → IsBoundary set.extents p →
        d < length set.dates → ¬ Always set (Date d) p false →
        IsBefore (position_at set.dates (plain_placing set.list set.extents set.dates) p) (record { instant = slice_index_or set.dates d (pos 0); rank = 0 }) }
{}

/// The plain placing puts a boundary on the date of its low bound, where the bound is not strict.
pub fn plain_placing_puts_on_the_low_bound()
    ensures { (set : Orders) (p : Point) (d : ℕ) → IsOrderSet set.list set.extents set.dates → ¬ HasCycle set.list → IsBoundary set.extents p →
        (bound_of set p).low ≡ Some (record { date = d; strict = false }) →
        position_at set.dates (plain_placing set.list set.extents set.dates) p ≡ record { instant = slice_index_or set.dates d (pos 0); rank = 0 } }
{}

/// The delaying placing of a boundary puts it after each date that is not its high bound's date or later.
pub fn delaying_placing_puts_after_dates()
    ensures { (set : Orders) (p : Point) (d : ℕ) → IsOrderSet set.list set.extents set.dates → ¬ HasCycle set.list → IsBoundary set.extents p →
        d < length set.dates → ¬ Always set p (Date d) false →
        IsBefore (record { instant = slice_index_or set.dates d (pos 0); rank = 0 }) (position_at set.dates (delaying_placing set.list set.extents set.dates p) p) }
{}

/// The delaying placing of a boundary puts it on the date of its high bound, where the bound is not strict.
pub fn delaying_placing_puts_on_the_high_bound()
    ensures { (set : Orders) (p : Point) (d : ℕ) → IsOrderSet set.list set.extents set.dates → ¬ HasCycle set.list → IsBoundary set.extents p →
        (bound_of set p).high ≡ Some (record { date = d; strict = false }) →
        position_at set.dates (delaying_placing set.list set.extents set.dates p) p ≡ record { instant = slice_index_or set.dates d (pos 0); rank = 0 } }
{}

/// The same placings satisfy a set of orders and the one with an instant among its dates.
pub fn dates_change_no_placing()
    ensures { (set : Orders) (t : ℤ) (placing : List Position) → IsOrderSet set.list set.extents set.dates →
        IsSatisfied (dated set t).list (dated set t).dates placing ↔ IsSatisfied set.list set.dates placing }
{}

/// A set of orders has a cycle exactly where the one with an instant among its dates has one.
pub fn dates_make_no_cycle()
    ensures { (set : Orders) (t : ℤ) → IsOrderSet set.list set.extents set.dates → (¬ HasCycle (dated set t).list) ↔ (¬ HasCycle set.list) }
{}

/// What is computed with an instant among the dates of a set says whether an extent is under way in every, in no or in some
/// placing that satisfies the set.
pub fn extents_are_under_way_in_placings()
    ensures { (set : Orders) (t : ℤ) (k : ℕ) → IsOrderSet set.list set.extents set.dates → ¬ HasCycle set.list → k < set.extents →
        IsDuring set t k (during_of (dated set t) (place_of set.dates t) k) }
{}

/// One more order between a boundary and a date moves what is behind it to the date, and leaves all else where the plain
/// placing has it.
pub fn one_more_order_pushes_to_its_date()
    ensures { (set : Orders) (date : ℕ) (order : Order) → IsOrderSet set.list set.extents set.dates → ¬ HasCycle set.list → date < length set.dates →
        IsPoint set.extents (length set.dates) order.low → IsPoint set.extents (length set.dates) order.high → IsPush (reach_between set.list) date order →
        plain_placing (set.list ++ order ∷ []) set.extents set.dates ≡ pushed set.extents set.dates (reach_between set.list) date order }
{}
