// Laws over the definitions: each is the contract of a function with nothing to do.
ghost use Rattle.proof_core.specs.Balanced.{IsAssociative};
ghost use Rattle.certificate_checker.specs.Classes.{class_joined};
ghost use Rattle.certificate_checker.specs.Extents.{joined_facts as joined_extents};
ghost use Rattle.certificate_checker.specs.Orders.{joined_facts as joined_orders};

/// In the three theories the two ways of joining three facts give the same fact, or both give none.
pub fn joins_are_associative()
    ensures orders { IsAssociative joined_orders }
    ensures classes { IsAssociative class_joined }
    ensures extents { IsAssociative joined_extents }
{}
