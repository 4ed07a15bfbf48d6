// The mathematics of least flows, at any kind of price: each function's contract is a theorem.
#![tactic(auto)]

ghost use Rattle.duality.specs.Statements.{Exchange, Least, Impossible};

use price::Price;

/// Exchange: what the nodes hold, each at its price, is what the arcs carry, each at the price of its end.
pub fn exchange_stands<P: Price>()
    ensures { Exchange P.Price.ops }
{}

/// Certificate: potentials by which no single change gains anything make a flow least.
pub fn least_stands<P: Price>()
    ensures { Least P.Price.ops }
{}

/// Cut: a closed set that has a unit left over and wants none shows that no flow meets the demands.
pub fn cut_stands()
    ensures { Impossible }
{}
