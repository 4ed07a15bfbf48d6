// What the nodes want and give.
ghost use Rattle.std.specs.Prelude.{◌≡◌, ℕ, ◌<◌, ◌≤◌, true, length, pos, negsuc, if◌then◌else◌, int_le, nat_lt};
ghost use Rattle.embedding.specs.Rotation.{faces as faces_of};
ghost use Rattle.embedding.specs.Tables.{Holds};
ghost use Rattle.search.specs.Demands.{no_demand, demand_at, wants_of, gives_of};
ghost use Rattle.shape.specs.Nodes.{nodes as nodes_of, above as above_of, beneath as beneath_of};
ghost use Rattle.shape.specs.Statements.{HoldsDemands};
ghost use Rattle.network.specs.Tables.{plan_demand};

use crate::nodes::Nodes;
use search::Demand;

// The part of a demand above zero.
fn above(demand: i64) -> u16
    requires { int_le demand (pos 1000) ≡ true }
    ensures { result ≡ above_of demand }
{
    if demand > 0 { demand as u16 } else { 0 }
}

// The part of a demand below zero. Not `above` of the negated demand: a clause of its own says what a wrong sign breaks.
fn beneath(demand: i64) -> u16
    requires { int_le (negsuc 999) demand ≡ true }
    ensures { result ≡ beneath_of demand }
{
    if demand < 0 { (-demand) as u16 } else { 0 }
}

// What the faces want and give, by the demands at the ends that name them.
fn fill_face_units(nodes: &Nodes, outer: usize, demands: &mut [Demand])
    requires { 1024 ≤ length demands.old }
    ensures { Holds no_demand (plan_demand nodes.now.faces.rotation.cave.legs.now outer) demands.new (faces_of nodes.now.faces.rotation.cave.legs.now) }
{
    let by_end = nodes.faces.demands(outer);
    // By end, since only an end that names its face has a node to fill.
    for e in 0..nodes.faces.rotation.cave.ends() {
        if nodes.faces.face(e) == e {
            demands[nodes.of_face(e) as usize] = Demand {
                wants: above(by_end[e]),
                gives: beneath(by_end[e]),
            };
        }
    }
}

// A source or sink wants nothing, and gives one unit.
fn fill_switch_units(faces: usize, nodes: usize, demands: &mut [Demand])
    requires order { faces ≤ nodes }
    requires room { nodes ≤ length demands.old }
    ensures { (v : ℕ) → v < nodes → demand_at demands.new v ≡ (if nat_lt v faces then demand_at demands.old v else record { wants = 0; gives = 1 }) }
{
    demands[faces..nodes].fill(Demand { wants: 0, gives: 1 });
}

/// What all nodes want and give, where this face is the outer one.
pub fn fill_units(nodes: &Nodes, outer: usize, demands: &mut [Demand])
    requires { 1024 ≤ length demands.old }
    ensures { HoldsDemands nodes.now.faces.rotation.cave.legs.now outer (wants_of demands.new) (gives_of demands.new) }
{
    fill_face_units(nodes, outer, demands);
    fill_switch_units(nodes.faces.count(), nodes.count, demands);
}
