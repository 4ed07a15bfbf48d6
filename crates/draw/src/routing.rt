// The network of a plan, solved.
ghost use Rattle.std.specs.Prelude.{◌≡◌, ◌+◌, ◌<◌, ◌≤◌, true, length};
ghost use Rattle.survey.specs.Ends.{ends};
ghost use Rattle.embedding.specs.Rotation.{face};
ghost use Rattle.embedding.specs.Demands.{planar};
ghost use Rattle.search.specs.Networks.{units};
ghost use Rattle.shape.specs.Units.{side_count};
ghost use Rattle.draw.specs.Routes.{Routed};

use embedding::cave::Cave;
use network::fill_network;
use price::Tariff;
use search::network::Network;
use search::{Demand, Label, Side};
use slice_vec::SliceVec;
use solve::{Infeasible, solve};

/// Finds the units of a least valid shape, or tells that no shape is valid. The face of the end `outer` is the outer one.
pub fn route<T: Tariff>(
    cave: &Cave,
    outer: usize,
    tariff: &T,
    labels: &mut SliceVec<'_, Label<T::Price>>,
    sides: &mut [Side],
    flow: &mut [u16],
) -> Result<(), Infeasible>
    requires planar { planar cave.now.legs.now ≡ true }
    requires outer { outer < ends cave.now.legs.now }
    requires labels { length cave.now.legs.now + 4 ≤ length labels.old.places.now }
    requires sides { length sides.old ≡ side_count cave.now.legs.now }
    requires flow { length flow.old ≡ side_count cave.now.legs.now }
    ensures routed { Routed T.Price.Price.ops (T.Tariff.rate tariff.now) cave.now.legs.now (face cave.now.legs.now outer) (units flow.new) result }
    ensures long { length labels.new.places.now ≡ length labels.old.places.now }
    ensures lender { labels.new.places.ghost_name ≡ labels.old.places.ghost_name }
{
    let mut demands = [Demand::default(); 1024];
    let nodes = fill_network(cave, outer, sides, &mut demands);
    let network = Network {
        tariff,
        sides,
        nodes,
    };
    solve(&network, flow, &mut demands[..nodes], labels)
}
