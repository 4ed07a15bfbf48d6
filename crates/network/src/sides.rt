// The sides of the network.
ghost use Rattle.std.specs.Prelude.{◌≡◌, ◌<◌, length};
ghost use Rattle.survey.specs.Ends.{ends};
ghost use Rattle.shape.specs.Units.{leg_side, angle_side, back_side, side_count, plan_side};
ghost use Rattle.shape.specs.Statements.{HoldsNetwork};

use crate::nodes::Nodes;
use embedding::tables::fill;
use pairs::twin;
use search::{Bend, Side};

// The side across a leg to the face of its end e.
fn make_leg_side(nodes: &Nodes, e: usize) -> Side
    requires { e < ends nodes.now.faces.rotation.cave.legs.now }
    ensures { result ≡ leg_side nodes.now.faces.rotation.cave.legs.now e }
{
    let faces = &nodes.faces;
    let leg = &faces.rotation.cave.legs[e / 2];
    let room = if faces.face(e) == faces.face(twin(e)) {
        0
    } else {
        leg.limit as u16
    };
    Side {
        node: nodes.of_face(e),
        end: e as u16,
        room,
        bend: Some(Bend {
            weight: leg.weight,
            wet: leg.wet,
        }),
    }
}

// The side through the angle of e, to its face.
fn make_angle_side(nodes: &Nodes, e: usize) -> Side
    requires { e < ends nodes.now.faces.rotation.cave.legs.now }
    ensures { result ≡ angle_side nodes.now.faces.rotation.cave.legs.now e }
{
    Side {
        node: nodes.of_face(twin(e)),
        end: e as u16,
        room: if nodes.is_switch(e) { 1 } else { 0 },
        bend: None,
    }
}

// The side back through the angle of e, to its source or sink.
fn make_back_side(nodes: &Nodes, e: usize) -> Side
    requires { e < ends nodes.now.faces.rotation.cave.legs.now }
    ensures { result ≡ back_side nodes.now.faces.rotation.cave.legs.now e }
{
    Side {
        node: if nodes.is_switch(e) {
            nodes.of_switch(e)
        } else {
            nodes.of_face(twin(e))
        },
        end: e as u16,
        room: 0,
        bend: None,
    }
}

// Side s: those of the legs come first, then two for each angle.
fn make_side(nodes: &Nodes, s: usize) -> Side
    requires { s < side_count nodes.now.faces.rotation.cave.legs.now }
    ensures { result ≡ plan_side nodes.now.faces.rotation.cave.legs.now s }
{
    let n = nodes.faces.rotation.cave.ends();
    if s < n {
        make_leg_side(nodes, s)
    } else if s % 2 == 0 {
        make_angle_side(nodes, (s - n) / 2)
    } else {
        make_back_side(nodes, (s - n) / 2)
    }
}

/// All sides.
pub fn fill_sides(nodes: &Nodes, sides: &mut [Side])
    requires { length sides.old ≡ side_count nodes.now.faces.rotation.cave.legs.now }
    ensures { HoldsNetwork nodes.now.faces.rotation.cave.legs.now sides.new }
{
    let count = sides.len();
    fill(sides, count, |s| make_side(nodes, s));
}
