// The checks of a plan, in the order in which their causes are met.
#![tactic(auto)]

ghost use Rattle.std.specs.Prelude.{◌≡◌, ◌<◌, length};
ghost use Rattle.refusal.specs.Answers.{told};
ghost use Rattle.embedding.specs.Plans.{count_answer, side_answer, request_answer, connected_answer, bimodal_answer, planar_answer, embedding_answer};

pub mod connect;

use connect::first_apart;
use directions::first_mixed;
use embedding::cave::Cave;
use embedding::outer::OuterSide;
use faces::Faces;
use refusal::Refusal;
use rotation::{Rotation, count_stations};

// There are 1 to 256 legs.
fn check_count(count: usize) -> Result<(), Refusal>
    ensures { told result ≡ count_answer count }
{
    if count == 0 {
        return Err(Refusal::NoLegs);
    }
    if count > 256 {
        return Err(Refusal::TooManyLegs(count));
    }
    Ok(())
}

/// The outer side is that of a leg below the count, and 0 or 1.
pub fn check_side(count: usize, outer: OuterSide) -> Result<(), Refusal>
    ensures { told result ≡ side_answer count outer.leg outer.side }
{
    if outer.leg >= count || outer.side > 1 {
        return Err(Refusal::NoSuchSide(count));
    }
    Ok(())
}

/// What planning so many legs with this outer side meets before any leg is read.
pub fn check_request(count: usize, outer: OuterSide) -> Result<(), Refusal>
    ensures { told result ≡ request_answer count outer.leg outer.side }
{
    check_count(count)?;
    check_side(count, outer)
}

// Every leg is joined to leg 0.
fn check_connected(cave: &Cave) -> Result<(), Refusal>
    requires { 0 < length cave.now.legs.now }
    ensures { told result ≡ connected_answer cave.now.legs.now }
{
    first_apart(cave.legs).map_or(Ok(()), |i| Err(Refusal::NotConnected(i)))
}

// Every station is bimodal.
fn check_bimodal(rotation: &Rotation) -> Result<(), Refusal>
    ensures { told result ≡ bimodal_answer rotation.now.cave.legs.now }
{
    match first_mixed(rotation) {
        None => Ok(()),
        Some(e) => Err(Refusal::NotBimodal(rotation.cave.station(e))),
    }
}

// The embedding is planar.
fn check_planar(faces: &Faces) -> Result<(), Refusal>
    ensures { told result ≡ planar_answer faces.now.rotation.cave.legs.now }
{
    let cave = faces.rotation.cave;
    let count = faces.count();
    if count_stations(&cave) + count != cave.legs.len() + 2 {
        return Err(Refusal::NotPlanar(count));
    }
    Ok(())
}

/// What a cave of at least one leg meets: it is connected, bimodal and planar, or not.
pub fn check_embedding(cave: &Cave) -> Result<(), Refusal>
    requires { 0 < length cave.now.legs.now }
    ensures { told result ≡ embedding_answer cave.now.legs.now }
{
    check_connected(cave)?;
    let rotation = Rotation::new(*cave);
    check_bimodal(&rotation)?;
    check_planar(&Faces::new(rotation))
}
