// The network of a plan, as tables: its nodes, its sides, and what each node wants and gives.
#![tactic(auto)]

ghost use Rattle.std.specs.Prelude.{◌≡◌, ◌<◌, ◌≤◌, length};
ghost use Rattle.survey.specs.Ends.{ends};
ghost use Rattle.embedding.specs.Rotation.{face};
ghost use Rattle.search.specs.Demands.{wants_of, gives_of};
ghost use Rattle.shape.specs.Nodes.{nodes as nodes_of};
ghost use Rattle.shape.specs.Units.{side_count};
ghost use Rattle.shape.specs.Statements.{HoldsNetwork, HoldsDemands};

mod demands;
mod nodes;
mod numbering;
mod sides;

use demands::fill_units;
use embedding::cave::Cave;
use faces::Faces;
use nodes::Nodes;
use rotation::Rotation;
use search::{Demand, Side};
use sides::fill_sides;

/// Fills in the sides of the plan's network and what its nodes want and give, where the face of the end `outer` is the
/// outer one, and tells the number of nodes. Takes time in proportion to the legs, apart from the rotation.
pub fn fill_network(cave: &Cave, outer: usize, sides: &mut [Side], demands: &mut [Demand]) -> usize
    requires outer { outer < ends cave.now.legs.now }
    requires sides { length sides.old ≡ side_count cave.now.legs.now }
    requires demands { 1024 ≤ length demands.old }
    ensures nodes { result ≡ nodes_of cave.now.legs.now }
    ensures sides { HoldsNetwork cave.now.legs.now sides.new }
    ensures demands { HoldsDemands cave.now.legs.now (face cave.now.legs.now outer) (wants_of demands.new) (gives_of demands.new) }
{
    let nodes = Nodes::new(Faces::new(Rotation::new(*cave)));
    fill_sides(&nodes, sides);
    fill_units(&nodes, nodes.faces.face(outer), demands);
    nodes.count
}
