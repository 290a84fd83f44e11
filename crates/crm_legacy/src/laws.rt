// What replaces a legacy property says what it says: the contract of a function with nothing to do.
ghost use Rattle.std.specs.Prelude.{◌↔◌, Bool, ℕ, ℤ, List};
ghost use Rattle.order_laws.specs.declared.Position.{Position};
ghost use Rattle.order_laws.specs.Placings.{IsSatisfied};
ghost use Rattle.crm_legacy.specs.declared.legacy.LegacyProperty.{LegacyProperty};
ghost use Rattle.crm_legacy.specs.Meaning.{legacy_orders, replaced_orders};

/// A placing satisfies the orders of the primitives that replace a legacy property exactly where the two extents stand
/// in its relation.
pub fn replacements_say_the_relation()
    ensures { (property : LegacyProperty) (inverse : Bool) (a b : ℕ) (dates : List ℤ) (placing : List Position) →
        IsSatisfied (replaced_orders property inverse a b) dates placing ↔ IsSatisfied (legacy_orders property inverse a b) dates placing }
{}
