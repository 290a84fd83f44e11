// Laws over the report: each is the contract of a function with nothing to do.
ghost use Rattle.std.specs.Prelude.{◌≡◌, ◌≢◌, ◌<◌, ◌↔◌, ℕ, List, None, true, false};
ghost use Rattle.std.specs.List.{Contains};
ghost use Rattle.order_laws.specs.Chains.{HasCycle};
ghost use Rattle.order_laws.specs.FirstChains.{IsChainOf};
ghost use Rattle.order_laws.specs.Placings.{IsSatisfied, IsConsistent, AlwaysStand, position_at};
ghost use Rattle.order_laws.specs.Positions.{Stand};
ghost use Rattle.order_laws.specs.Tables.{IsOrderSet};
ghost use Rattle.order_laws.specs.Wider.{delaying_placing};
ghost use Rattle.order_core.specs.Sets.{Orders, AreExtents};
ghost use Rattle.order_core.specs.Sides.{left_point, right_point};
ghost use Rattle.order_core.specs.Primitives.{points_of};
ghost use Rattle.order_analysis.specs.Reasons.{reason_of};
ghost use Rattle.order_analysis.specs.Subjects.{cycle_of};
ghost use Rattle.order_core.specs.declared.primitives.Primitive.{Primitive};
ghost use Rattle.reason_report.specs.declared.relations.Relation.{Relation};
ghost use Rattle.reason_report.specs.Answers.{is_following};
ghost use Rattle.reason_report.specs.Listings.{IsListed};
ghost use Rattle.reason_report.specs.Relations.{relations_of};

/// A report says `inconsistent` exactly where no placing satisfies the orders.
pub fn reports_are_consistent_where_some_placing_satisfies()
    ensures { (set : Orders) → IsOrderSet set.list set.extents set.dates →
        (cycle_of set ≡ None) ↔ IsConsistent set.list set.dates set.extents }
{}

/// For orders without a cycle a primitive between two periods is listed exactly where every placing that
/// satisfies the orders has it.
pub fn listed_primitives_always_hold()
    ensures { (set : Orders) (periods : List ℕ) (a : ℕ) (p : Primitive) (b : ℕ) →
        IsOrderSet set.list set.extents set.dates → ¬ HasCycle set.list → AreExtents set.extents periods →
        Contains periods a → Contains periods b → a ≢ b →
        IsListed (relations_of set.list periods) a p b
        ↔ AlwaysStand set.list set.dates set.extents (points_of p a b).0 (points_of p a b).1 (points_of p a b).2 }
{}

/// The line of each listed relation has the chain of its two boundaries.
pub fn listed_relations_have_their_chains()
    ensures { (set : Orders) (periods : List ℕ) (r : Relation) → Contains (relations_of set.list periods) r →
        IsChainOf set.list (left_point r.side r.left) (right_point r.side r.right)
        (reason_of set.list (left_point r.side r.left) (right_point r.side r.right)) }
{}

/// For orders without a cycle the delaying placing of a primitive's left boundary satisfies the orders, and
/// breaks the primitive where it is not listed.
pub fn delaying_placings_break_what_is_not_listed()
    ensures satisfied { (set : Orders) (periods : List ℕ) (a : ℕ) (p : Primitive) (b : ℕ) →
        IsOrderSet set.list set.extents set.dates → ¬ HasCycle set.list → AreExtents set.extents periods → Contains periods a →
        IsSatisfied set.list set.dates (delaying_placing set.list set.extents set.dates (points_of p a b).0) }
    ensures broken { (set : Orders) (periods : List ℕ) (a : ℕ) (p : Primitive) (b : ℕ) →
        IsOrderSet set.list set.extents set.dates → ¬ HasCycle set.list → AreExtents set.extents periods →
        Contains periods a → Contains periods b → a ≢ b → ¬ IsListed (relations_of set.list periods) a p b →
        ¬ Stand (points_of p a b).2
        (position_at set.dates (delaying_placing set.list set.extents set.dates (points_of p a b).0) (points_of p a b).0)
        (position_at set.dates (delaying_placing set.list set.extents set.dates (points_of p a b).0) (points_of p a b).1) }
{}

/// For orders without a cycle the answer is `holds` exactly where every placing that satisfies the orders has
/// the primitive, and then the chain between its two points is that of a listed relation. Else the delaying
/// placing of the left boundary satisfies the orders and breaks the primitive.
pub fn answers_hold_where_every_placing_does()
    ensures holds { (set : Orders) (a : ℕ) (p : Primitive) (b : ℕ) →
        IsOrderSet set.list set.extents set.dates → ¬ HasCycle set.list → a < set.extents → b < set.extents →
        (is_following set.list a p b ≡ true)
        ↔ AlwaysStand set.list set.dates set.extents (points_of p a b).0 (points_of p a b).1 (points_of p a b).2 }
    ensures chain { (set : Orders) (a : ℕ) (p : Primitive) (b : ℕ) → a ≢ b → is_following set.list a p b ≡ true →
        IsChainOf set.list (points_of p a b).0 (points_of p a b).1 (reason_of set.list (points_of p a b).0 (points_of p a b).1) }
    ensures satisfied { (set : Orders) (a : ℕ) (p : Primitive) (b : ℕ) →
        IsOrderSet set.list set.extents set.dates → ¬ HasCycle set.list → a < set.extents →
        IsSatisfied set.list set.dates (delaying_placing set.list set.extents set.dates (points_of p a b).0) }
    ensures broken { (set : Orders) (a : ℕ) (p : Primitive) (b : ℕ) →
        IsOrderSet set.list set.extents set.dates → ¬ HasCycle set.list → a < set.extents → b < set.extents →
        is_following set.list a p b ≡ false →
        ¬ Stand (points_of p a b).2
        (position_at set.dates (delaying_placing set.list set.extents set.dates (points_of p a b).0) (points_of p a b).0)
        (position_at set.dates (delaying_placing set.list set.extents set.dates (points_of p a b).0) (points_of p a b).1) }
{}
