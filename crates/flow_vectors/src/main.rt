// Solves the networks on standard input at both kinds of price, and compares with the prices given there.
#![tactic(auto)]

ghost use Rattle.std.specs.Prelude.{◌≡◌, ◌%◌, ◌<◌, ◌≤◌, length, slice_index};
ghost use Rattle.search.specs.Sides.{Proper};
ghost use Rattle.flow_vectors.specs.Networks.{side_from_lem};

use price::{Plain, PlainTariff, Ranked, RankedTariff, Tariff};
use search::network::Network;
use search::{Bend, Demand, Label, Side};
use slice_vec::SliceVec;
use solve::solve;

const NODES: usize = 16;

/// What the places for labels hold before a solve, at each kind of price.
const PLAIN_PLACE: Label<Plain> = Label {
    price: Plain { value: 0 },
    end: 0,
};

const RANKED_PLACE: Label<Ranked> = Label {
    price: Ranked {
        first: 0,
        second: 0,
    },
    end: 0,
};

// The number at a place, 0 past the last.
fn number(numbers: &[u32], i: usize) -> u32
    ensures { result ≡ slice_index numbers.now i }
{
    numbers.get(i).copied().unwrap_or(0)
}

// Side s of the network that the numbers give.
fn side_from(numbers: &[u32], nodes: usize, s: usize) -> Side
    requires { (0 < nodes) × (nodes ≤ 16) × (s < 64) }
    ensures { result ≡ side_from_lem numbers.now nodes s }
{
    let at = 7 * (s / 2);
    let bend = Bend {
        weight: number(numbers, at + 4).min(1000),
        wet: number(numbers, at + 5),
    };
    Side {
        node: (number(numbers, at + (1 - s % 2)) as usize % nodes) as u16,
        end: s as u16,
        room: number(numbers, at + (2 + s % 2)).min(1000) as u16,
        bend: if number(numbers, at + 6) == 1 {
            None
        } else {
            Some(bend)
        },
    }
}

// Fills in the sides of the network that the numbers give.
fn load(numbers: &[u32], nodes: usize, sides: &mut [Side])
    requires { (0 < nodes) × (nodes ≤ 16) × (length sides.old ≤ 64) × (length sides.old % 2 ≡ 0) }
    ensures { Proper nodes sides.new }
{
    for (s, side) in sides.iter_mut().enumerate() {
        *side = side_from(numbers, nodes, s);
    }
}

// Fills in what the nodes want and give.
fn demands(numbers: &[u32], left: &mut [Demand])
    requires { length left.old ≤ 16 }
{
    for (v, demand) in left.iter_mut().enumerate() {
        *demand = Demand {
            wants: number(numbers, 2 * v).min(1000) as u16,
            gives: number(numbers, 2 * v + 1).min(1000) as u16,
        };
    }
}

// What the flow pays on the sides with this wet flag.
fn paid(sides: &[Side], flow: &[u16], wet: u32) -> u64 {
    let mut sum = 0u64;
    for (side, units) in sides.iter().zip(flow.iter()) {
        if let Some(bend) = side.bend.filter(|bend| bend.wet == wet) {
            let price = (2 * bend.weight as u64).saturating_mul(*units as u64);
            sum = sum.saturating_add(price);
        }
    }
    sum
}

// Solves by a tariff, over these places for labels: whether a flow meets the demands.
fn meets<T: Tariff>(
    tariff: &T,
    numbers: &[u32],
    nodes: usize,
    sides: &[Side],
    flow: &mut [u16],
    places: &mut [Label<T::Price>],
) -> bool
    requires { Proper nodes sides.now × (nodes ≤ 16) × (length flow.old ≡ length sides.now) × (nodes ≤ length places.old) }
{
    let mut left = [Demand::default(); NODES];
    demands(numbers, &mut left);
    let mut labels = SliceVec::new(places);
    let network = Network {
        tariff,
        sides,
        nodes,
    };
    solve(&network, flow, &mut left[..nodes], &mut labels).is_ok()
}

// Whether both kinds of price come out as given, for the network at the start of the numbers.
fn agrees(numbers: &[u32], nodes: usize, pairs: usize) -> bool
    requires { (0 < nodes) × (nodes ≤ 16) × (pairs ≤ 32) }
{
    let mut all = [Side::default(); 64];
    let mut units = [0u16; 64];
    let given = from(numbers, 2 + 2 * nodes);
    let sides = &mut all[..2 * pairs];
    load(given, nodes, sides);
    let flow = &mut units[..2 * pairs];
    let expected = from(given, 7 * pairs);
    let feasible = number(expected, 0) == 1;
    let mut plain_places = [PLAIN_PLACE; NODES];
    let plain = meets(
        &PlainTariff,
        from(numbers, 2),
        nodes,
        sides,
        flow,
        &mut plain_places,
    );
    let plain_price = paid(sides, flow, 0).saturating_add(paid(sides, flow, 1));
    let mut ranked_places = [RANKED_PLACE; NODES];
    let ranked = meets(
        &RankedTariff,
        from(numbers, 2),
        nodes,
        sides,
        flow,
        &mut ranked_places,
    );
    let first = paid(sides, flow, 1);
    let second = paid(sides, flow, 0);
    if !feasible {
        return !plain && !ranked;
    }
    plain
        && ranked
        && plain_price == number(expected, 1) as u64
        && first == number(expected, 2) as u64
        && second == number(expected, 3) as u64
}

// The numbers from a place on.
fn from(numbers: &[u32], at: usize) -> &[u32] {
    numbers.get(at..).unwrap_or(&[])
}

fn main(rt: HostRuntime) -> anyhow::Result<()> {
    let mut numbers = Vec::new(rt.alloc());
    for line in rt.lines(rt.alloc()) {
        let line = line?;
        for word in line.as_str().split_whitespace() {
            numbers.push(word.parse::<u32>()?)?;
        }
    }
    let count = number(numbers.as_slice(), 0);
    let mut agree = 0u32;
    let mut at = 1usize;
    for i in 0..count {
        let rest = from(numbers.as_slice(), at);
        let nodes = (number(rest, 0) as usize).clamp(1, 16);
        let pairs = (number(rest, 1) as usize).min(32);
        if agrees(rest, nodes, pairs) {
            agree = agree.saturating_add(1);
        } else {
            println!(rt; "network {i} disagrees")?;
        }
        at = at.saturating_add(6 + 2 * nodes + 7 * pairs);
    }
    println!(rt; "{agree} of {count} networks agree")?;
    Ok(())
}
