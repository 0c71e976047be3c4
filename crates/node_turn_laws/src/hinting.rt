//! Hints are those of the requests that wait.

ghost use Rattle.node_turn_laws.specs.Reached.{IsReached};
ghost use Rattle.node_turn_laws.specs.World.{World};
ghost use Rattle.node_turn_laws.specs.Requests.{HintsAreRequests};

/// In every world that is reached there is one hint of each request that waits, for the node that it waits for, and no
/// other hint.
pub fn hints_are_those_of_requests()
    ensures one { (w : World) → IsReached w → HintsAreRequests w }
{}
