// Shapes and flows: a valid shape of a plan is a flow of its network, and the other way round.
#![tactic(auto)]

ghost use Rattle.shape.specs.Statements.{ShapesAreFlows};

use price::Price;

/// A valid shape is a flow that meets the demands and costs no more, and such a flow that goes one way only makes a valid shape of its price.
pub fn shapes_stand<P: Price>()
    ensures { ShapesAreFlows P.Price.ops }
{}
