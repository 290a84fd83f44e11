// Laws over the definitions: each is the contract of a function with nothing to do.
ghost use Rattle.std.specs.Prelude.{◌≡◌, ◌≤◌, ◌<◌, ◌↔◌, ℕ, ℤ, pos, List, Bool, true, false, Some, IsSome, length, slice_index_or};
ghost use Rattle.order_laws.specs.declared.Order.{Order};
ghost use Rattle.order_laws.specs.declared.Point.{Point};
ghost use Rattle.order_laws.specs.declared.Point.TheVariants.{Date};
ghost use Rattle.order_laws.specs.declared.Position.{Position};
ghost use Rattle.order_laws.specs.declared.Reach.{Reach};
ghost use Rattle.order_laws.specs.declared.Reach.TheVariants.{Lt};
ghost use Rattle.order_laws.specs.Positions.{IsBefore, Stand};
ghost use Rattle.order_laws.specs.Chains.{IsChain, shows_strict, Follows, HasCycle};
ghost use Rattle.order_laws.specs.ChainSearch.{first_chain, chain_of, first_cycle};
ghost use Rattle.order_laws.specs.Closure.{reach_between, first_strict_loop, has_strict_loop};
ghost use Rattle.order_laws.specs.FirstChains.{IsFirstChain, IsChainOf, IsFirstLoop, IsFirstCycle};
ghost use Rattle.order_laws.specs.Placings.{IsSatisfied, IsConsistent, AlwaysStand, position_at};
ghost use Rattle.order_laws.specs.Tables.{IsPoint, is_known, is_strict, built_at, built, IsOrderSet, IsOrderly, IsBase};
ghost use Rattle.order_laws.specs.Wider.{wider, plain_placing, delaying_placing};

/// A chain holds in every satisfying placing, strictly where it shows `<`.
pub fn chains_hold()
    ensures { (orders : List Order) (dates : List ℤ) (placing : List Position) (x y : Point) (ns : List ℕ) →
        IsChain orders x y ns → IsSatisfied orders dates placing →
        Stand (shows_strict orders ns) (position_at dates placing x) (position_at dates placing y) }
{}

/// Orders with a cycle have no satisfying placing.
pub fn cycles_refute()
    ensures { (orders : List Order) (dates : List ℤ) (extents : ℕ) → HasCycle orders → ¬ IsConsistent orders dates extents }
{}

/// The computed closure has `<` exactly where it follows, and some entry exactly where `<=` follows.
pub fn closure_is_what_follows()
    ensures strictly { (orders : List Order) (x y : Point) → (reach_between orders x y ≡ Lt) ↔ Follows orders x y true }
    ensures known { (orders : List Order) (x y : Point) → (is_known (reach_between orders x y) ≡ true) ↔ Follows orders x y false }
{}

/// Each table of what follows has the entries of the computed closure.
pub fn tables_of_what_follows_agree()
    ensures { (orders : List Order) (extents dates : ℕ) (table : Point → Point → Reach) (x y : Point) →
        IsBase orders extents dates table → IsPoint extents dates x → IsPoint extents dates y →
        table x y ≡ reach_between orders x y }
{}

/// The first strict loop is the first point that has a cycle.
pub fn first_strict_loop_is_first()
    ensures { (orders : List Order) (extents dates : ℕ) (x : Point) →
        (first_strict_loop orders extents dates ≡ Some x) ↔ IsFirstLoop orders extents dates x }
{}

/// The strict loops of the computed closure tell whether there is a cycle.
pub fn strict_loops_are_cycles()
    ensures { (orders : List Order) (extents : ℕ) (dates : List ℤ) → IsOrderSet orders extents dates →
        (has_strict_loop orders extents (length dates) ≡ true) ↔ HasCycle orders }
{}

/// There is at most one first chain.
pub fn first_chains_are_unique()
    ensures { (orders : List Order) (x y : Point) (strict : Bool) (ns ms : List ℕ) →
        IsFirstChain orders x y strict ns → IsFirstChain orders x y strict ms → ns ≡ ms }
{}

/// The computed first chain is the first chain, and is there exactly where one is.
pub fn computed_chain_is_first()
    ensures { (orders : List Order) (x y : Point) (strict : Bool) (ns : List ℕ) →
        (first_chain orders x y strict ≡ Some ns) ↔ IsFirstChain orders x y strict ns }
{}

/// Where there is a chain, or one that shows `<` where the flag is set, there is a first one.
pub fn chains_have_a_first()
    ensures { (orders : List Order) (x y : Point) (strict : Bool) (ms : List ℕ) →
        IsChain orders x y ms → (strict ≡ true → shows_strict orders ms ≡ true) →
        IsSome (first_chain orders x y strict) }
{}

/// The computed reason is the chain of the two points.
pub fn computed_reason_is_chain_of()
    ensures { (orders : List Order) (x y : Point) (ns : List ℕ) → (chain_of orders x y ≡ Some ns) ↔ IsChainOf orders x y ns }
{}

/// The computed cycle is the first cycle of the first point that has one.
pub fn computed_cycle_is_first()
    ensures { (orders : List Order) (extents dates : ℕ) (ns : List ℕ) →
        (first_cycle orders extents dates ≡ Some ns) ↔ IsFirstCycle orders extents dates ns }
{}

/// Over an orderly table each date keeps its place.
pub fn dates_keep_their_instants()
    ensures { (orders : List Order) (extents : ℕ) (dates : List ℤ) (table : Point → Point → Reach) (k : ℕ) →
        IsOrderSet orders extents dates → IsOrderly orders extents (length dates) table → k < length dates →
        built_at extents dates table (Date k) ≡ record { instant = slice_index_or dates k (pos 0); rank = 0 } }
{}

/// Over an orderly table the built placing satisfies all orders.
pub fn built_placings_satisfy()
    ensures { (orders : List Order) (extents : ℕ) (dates : List ℤ) (table : Point → Point → Reach) →
        IsOrderSet orders extents dates → IsOrderly orders extents (length dates) table →
        IsSatisfied orders dates (built extents dates table) }
{}

/// Over an orderly table the built placing keeps what the table knows, strictly where it is strict.
pub fn built_placings_keep()
    ensures { (orders : List Order) (extents : ℕ) (dates : List ℤ) (table : Point → Point → Reach) (strict : Bool) (y z : Point) →
        IsOrderSet orders extents dates → IsOrderly orders extents (length dates) table →
        IsPoint extents (length dates) y → IsPoint extents (length dates) z →
        is_known (table y z) ≡ true → (strict ≡ true → is_strict (table y z) ≡ true) →
        Stand strict (position_at dates (built extents dates table) y) (position_at dates (built extents dates table) z) }
{}

/// Tables with the same entries build the same placing.
pub fn placings_of_same_entries_agree()
    ensures { (extents : ℕ) (dates : List ℤ) (table other : Point → Point → Reach) →
        ((x y : Point) → IsPoint extents (length dates) x → IsPoint extents (length dates) y → table x y ≡ other x y) →
        built extents dates table ≡ built extents dates other }
{}

/// For orders without a cycle the table of what follows is orderly.
pub fn base_is_orderly()
    ensures { (orders : List Order) (extents : ℕ) (dates : List ℤ) (table : Point → Point → Reach) →
        IsOrderSet orders extents dates → ¬ HasCycle orders → IsBase orders extents (length dates) table →
        IsOrderly orders extents (length dates) table }
{}

/// The wider table of a point is orderly, over an orderly table.
pub fn wider_is_orderly()
    ensures { (orders : List Order) (extents dates : ℕ) (table : Point → Point → Reach) (x : Point) →
        IsOrderly orders extents dates table → IsPoint extents dates x → IsOrderly orders extents dates (wider table x) }
{}

/// The plain placing satisfies all orders, where they have no cycle.
pub fn plain_placing_satisfies()
    ensures { (orders : List Order) (extents : ℕ) (dates : List ℤ) → IsOrderSet orders extents dates → ¬ HasCycle orders →
        IsSatisfied orders dates (plain_placing orders extents dates) }
{}

/// Each delaying placing satisfies all orders, where they have no cycle.
pub fn delaying_placing_satisfies()
    ensures { (orders : List Order) (extents : ℕ) (dates : List ℤ) (x : Point) → IsOrderSet orders extents dates → ¬ HasCycle orders →
        IsPoint extents (length dates) x → IsSatisfied orders dates (delaying_placing orders extents dates x) }
{}

/// The delaying placing of x puts y before x, where `x <= y` does not follow.
pub fn delaying_puts_before()
    ensures { (orders : List Order) (extents : ℕ) (dates : List ℤ) (x y : Point) → IsOrderSet orders extents dates → ¬ HasCycle orders →
        IsPoint extents (length dates) x → IsPoint extents (length dates) y → ¬ Follows orders x y false →
        IsBefore (position_at dates (delaying_placing orders extents dates x) y) (position_at dates (delaying_placing orders extents dates x) x) }
{}

/// The delaying placing of x puts y on x, where `x <= y` follows and `x < y` does not.
pub fn delaying_puts_on()
    ensures { (orders : List Order) (extents : ℕ) (dates : List ℤ) (x y : Point) → IsOrderSet orders extents dates → ¬ HasCycle orders →
        IsPoint extents (length dates) x → IsPoint extents (length dates) y → Follows orders x y false → ¬ Follows orders x y true →
        position_at dates (delaying_placing orders extents dates x) y ≡ position_at dates (delaying_placing orders extents dates x) x }
{}

/// Orders are consistent exactly where they have no cycle.
pub fn consistent_without_cycles()
    ensures { (orders : List Order) (extents : ℕ) (dates : List ℤ) → IsOrderSet orders extents dates →
        IsConsistent orders dates extents ↔ ¬ HasCycle orders }
{}

/// What always holds follows, and what follows always holds, for orders without a cycle.
pub fn always_is_follows()
    ensures { (orders : List Order) (extents : ℕ) (dates : List ℤ) (x y : Point) (strict : Bool) → IsOrderSet orders extents dates → ¬ HasCycle orders →
        IsPoint extents (length dates) x → IsPoint extents (length dates) y →
        AlwaysStand orders dates extents x y strict ↔ Follows orders x y strict }
{}
