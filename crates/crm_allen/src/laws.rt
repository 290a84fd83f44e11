// Laws over the relations: each is the contract of a function with nothing to do.
ghost use Rattle.std.specs.Prelude.{◌≡◌, ◌↔◌, ◌<◌, ◌*◌, ℕ, List, [], ◌∷◌, length};
ghost use Rattle.std.specs.List.{Contains};
ghost use Rattle.order_laws.specs.declared.Position.{Position};
ghost use Rattle.order_laws.specs.Chains.{HasCycle};
ghost use Rattle.order_laws.specs.Placings.{IsSatisfied};
ghost use Rattle.order_core.specs.Sets.{Orders, IsSet};
ghost use Rattle.crm_allen.specs.declared.relations.Allen.{Allen};
ghost use Rattle.crm_allen.specs.Possible.{possible_relations};
ghost use Rattle.crm_allen.specs.Relations.{IsPossible, example_placing, relation_orders};

/// For orders without a cycle, a relation of two extents is among the possible ones exactly where some placing
/// satisfies all orders and has it.
pub fn possible_relations_have_placings()
    ensures { (set : Orders) (a b : ℕ) (r : Allen) → IsSet set.extents set.dates set.list → ¬ HasCycle set.list →
        a < set.extents → b < set.extents →
        Contains (possible_relations set.list a b) r ↔ IsPossible set a b r }
{}

/// The example of a possible relation satisfies all orders and has the relation.
pub fn examples_have_their_relations()
    ensures { (set : Orders) (a b : ℕ) (r : Allen) → IsSet set.extents set.dates set.list →
        a < set.extents → b < set.extents → IsPossible set a b r →
        IsSatisfied set.list set.dates (example_placing set a b r) × IsSatisfied (relation_orders r a b) set.dates (example_placing set a b r) }
{}

/// Where one relation alone is possible, two extents have it in every placing that satisfies all orders.
pub fn single_relations_hold()
    ensures { (set : Orders) (a b : ℕ) (r : Allen) → IsSet set.extents set.dates set.list → ¬ HasCycle set.list →
        a < set.extents → b < set.extents → possible_relations set.list a b ≡ r ∷ [] →
        (placing : List Position) → length placing ≡ 2 * set.extents → IsSatisfied set.list set.dates placing →
        IsSatisfied (relation_orders r a b) set.dates placing }
{}
