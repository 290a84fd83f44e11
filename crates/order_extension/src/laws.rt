// What further orders do to a set: each is the contract of a function with nothing to do.
ghost use Rattle.std.specs.Prelude.{◌++◌, ◌↔◌, ℤ, List};
ghost use Rattle.order_laws.specs.declared.Order.{Order};
ghost use Rattle.order_laws.specs.declared.Position.{Position};
ghost use Rattle.order_laws.specs.Placings.{IsSatisfied};

/// A placing satisfies the orders of both lists exactly where it satisfies each list.
pub fn further_orders_are_satisfied_too()
    ensures { (orders more : List Order) (dates : List ℤ) (placing : List Position) →
        IsSatisfied (orders ++ more) dates placing ↔ (IsSatisfied orders dates placing × IsSatisfied more dates placing) }
{}
