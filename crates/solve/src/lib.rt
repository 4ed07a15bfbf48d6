// A least flow that meets the demands, by cheapest chains, at any tariff.
#![tactic(auto)]

ghost use Rattle.std.specs.Prelude.{◌≡◌, ℕ, ◌^◌, ◌<◌, ◌≤◌, true, false, ◌⊎◌, IfSome, IfNone, IsTrue, IsFalse, OnOk, OnErr, length, take};
ghost use Rattle.duality.specs.Flows.{Fits};
ghost use Rattle.search.specs.Demands.{wants_of, gives_of};
ghost use Rattle.search.specs.Labels.{label_at, reached, Sized};
ghost use Rattle.search.specs.Networks.{twin as other, units};
ghost use Rattle.search.specs.Sides.{side_at, CanOpen};
ghost use Rattle.search.specs.Priced.{priced};
ghost use Rattle.solve.specs.Solutions.{arcs, OneWay, NoFlow, Answered, Leaves, judged};
ghost use Rattle.solve.specs.Chains.{Push, Tight, Way, Supplied, Sent, Seeded, Indexed, Underway, Labelled, OneLess, Onward, total};

use price::{Price, Tariff};
use search::network::Network;
use search::{Demand, Label, NO_PRICE, ROOT, label_at, make_labels, set_label};
use slice_vec::SliceVec;
use thiserror::Error;

/// No flow within the rooms meets the demands.
#[derive(Clone, Copy, Debug, PartialEq, Eq, Hash, Error)]
#[error("no flow meets the demands")]
pub struct Infeasible;

// One unit over side s.
fn push<T: Tariff>(network: &Network<'_, T>, flow: &mut [u16], s: usize)
    requires inside { (s < length network.now.sides.now) × (length flow.old ≡ length network.now.sides.now) }
    requires free { (0 < units flow.old (other s)) ⊎ (units flow.old s < (side_at network.now.sides.now s).room) }
    ensures { Push (λ z. (side_at network.now.sides.now z).room) (units flow.old) (units flow.new) s }
{
    let back = network.twin(s);
    if flow[back] > 0 {
        flow[back] -= 1;
    } else {
        flow[s] += 1;
    }
}

// One unit less wanted at node v, and one less given at node u.
fn take_unit(left: &mut [Demand], v: usize, u: usize)
    requires wanted { (v < length left.old) × (0 < wants_of left.old v) }
    requires given { (u < length left.old) × (0 < gives_of left.old u) }
    ensures wants { OneLess (wants_of left.old) (wants_of left.new) v }
    ensures gives { OneLess (gives_of left.old) (gives_of left.new) u }
{
    left[v].wants -= 1;
    left[u].gives -= 1;
}

// The first node that wants a unit.
fn first_wanting(left: &[Demand]) -> Option<usize>
    ensures bound { IfSome result (λ v. v < length left.now) }
    ensures before { IfSome result (λ v. (k : ℕ) → k < v → wants_of left.now k ≡ 0) }
    ensures some { IfSome result (λ v. 0 < wants_of left.now v) }
    ensures none { IfNone result ((v : ℕ) → v < length left.now → wants_of left.now v ≡ 0) }
{
    left.iter().position(|demand| demand.wants > 0)
}

// Whether a node has units left to give.
fn is_giving(left: &[Demand]) -> bool
    ensures some { IsTrue result → (v : ℕ) × (v < length left.now) × (0 < gives_of left.now v) }
    ensures none { IsFalse result → (v : ℕ) → v < length left.now → gives_of left.now v ≡ 0 }
{
    left.iter().any(|demand| demand.gives > 0)
}

// Roots at price zero where units are left to give, and no price elsewhere.
fn seed<P: Price>(labels: &mut SliceVec<'_, Label<P>>, left: &[Demand])
    requires { (length left.now ≤ labels.old.used) × (length left.now ≤ length labels.old.places.now) }
    ensures seeded { Seeded P.Price.ops (gives_of left.now) (take (length left.now) labels.new.places.now) }
    ensures used { labels.new.used ≡ labels.old.used }
    ensures long { length labels.new.places.now ≡ length labels.old.places.now }
    ensures lender { labels.new.places.ghost_name ≡ labels.old.places.ghost_name }
{
    for (node, demand) in left.iter().enumerate() {
        let end = if demand.gives > 0 { ROOT } else { NO_PRICE };
        set_label(
            labels,
            node,
            Label {
                end,
                ..Label::none()
            },
        );
    }
}

// Whether a side can ever be open.
fn is_usable<T: Tariff>(network: &Network<'_, T>, s: usize) -> bool
    requires { s < length network.now.sides.now }
    ensures may { result ≡ true → CanOpen network.now.sides.now s }
    ensures never { result ≡ false → ((side_at network.now.sides.now s).room ≡ 0) × ((side_at network.now.sides.now (other s)).room ≡ 0) }
{
    network.sides[s].room > 0 || network.sides[network.twin(s)].room > 0
}

// Writes down for each node the side that its label came by.
fn index_sides<T: Tariff>(
    network: &Network<'_, T>,
    labels: &SliceVec<'_, Label<T::Price>>,
    came_by: &mut [u16],
)
    requires labels { (network.now.nodes ≤ labels.now.used) × (network.now.nodes ≤ length labels.now.places.now) × (network.now.nodes ≤ length came_by.old) }
    ensures { Indexed network.now.sides.now (units came_by.new) (label_at T.Price.Price.ops (take network.now.nodes labels.now.places.now)) }
{
    for (s, side) in network.sides.iter().enumerate() {
        let node = side.node as usize;
        if is_usable(network, s) && label_at(labels, node).end == side.end {
            came_by[node] = s as u16;
        }
    }
}

// The first labelled node that wants a unit.
fn taker<P: Price>(labels: &SliceVec<'_, Label<P>>, left: &[Demand]) -> Option<usize>
    requires { (length left.now ≤ labels.now.used) × (length left.now ≤ length labels.now.places.now) }
    ensures bound { IfSome result (λ v. v < length left.now) }
    ensures before { IfSome result (λ v. (k : ℕ) → k < v → reached (label_at P.Price.ops (take (length left.now) labels.now.places.now) k) ≡ true → wants_of left.now k ≡ 0) }
    ensures some { IfSome result (λ v. (0 < wants_of left.now v) × (reached (label_at P.Price.ops (take (length left.now) labels.now.places.now) v) ≡ true)) }
    ensures none { IfNone result ((v : ℕ) → v < length left.now → reached (label_at P.Price.ops (take (length left.now) labels.now.places.now) v) ≡ true → wants_of left.now v ≡ 0) }
{
    left.iter().zip(labels.as_slice()).position(|(demand, label)| demand.wants > 0
        && label.end != NO_PRICE)
}

// Whether side s leads to node `at` by the end of its label, is open, and leads there at just the label's price.
fn is_tight<T: Tariff>(
    network: &Network<'_, T>,
    flow: &[u16],
    labels: &SliceVec<'_, Label<T::Price>>,
    at: usize,
    s: usize,
) -> bool
    requires inside { (length flow.now ≡ length network.now.sides.now) × (at < network.now.nodes) }
    requires labels { (network.now.nodes ≤ labels.now.used) × (network.now.nodes ≤ length labels.now.places.now) }
    requires small { Sized T.Price.Price.ops network.now.nodes (2 ^ 38) labels.now.places.now }
    ensures { result ≡ true → Tight T.Price.Price.ops (priced T.Price.Price.ops T.Tariff.rate network.now) (label_at T.Price.Price.ops (take network.now.nodes labels.now.places.now)) (units flow.now) at s }
{
    if s >= network.sides.len() {
        return false;
    }
    let side = network.sides[s];
    let label = label_at(labels, at);
    if side.node as usize != at || side.end != label.end {
        return false;
    }
    // What came the other way is read once, for this test and for the cost.
    let back = network.twin(s);
    let came = flow[back];
    if came == 0 && flow[s] >= side.room {
        return false;
    }
    let cost = network.step_cost(s, came);
    let price = label_at(labels, network.sides[back].node as usize)
        .price
        .add(cost);
    price.at_most(label.price) && label.price.at_most(price)
}

// Whether a unit can be sent to v: its way back is open at just the labels' prices, and ends at a root that has a unit left to give.
fn is_supplied<T: Tariff>(
    network: &Network<'_, T>,
    flow: &[u16],
    left: &[Demand],
    labels: &SliceVec<'_, Label<T::Price>>,
    came_by: &[u16],
    v: usize,
) -> bool
    requires inside { (length flow.now ≡ length network.now.sides.now) × (length left.now ≡ network.now.nodes) × (v < network.now.nodes) × (network.now.nodes ≤ length came_by.now) }
    requires labels { (network.now.nodes ≤ labels.now.used) × (network.now.nodes ≤ length labels.now.places.now) }
    requires small { Sized T.Price.Price.ops network.now.nodes (2 ^ 38) labels.now.places.now }
    ensures { result ≡ true → Supplied T.Price.Price.ops (priced T.Price.Price.ops T.Tariff.rate network.now) (units came_by.now) (label_at T.Price.Price.ops (take network.now.nodes labels.now.places.now)) (units flow.now) (gives_of left.now) v }
{
    let mut at = v;
    for _ in 0..network.nodes {
        if label_at(labels, at).end == ROOT {
            return left[at].gives > 0;
        }
        let s = came_by[at] as usize;
        if !is_tight(network, flow, labels, at, s) {
            return false;
        }
        at = network.sides[network.twin(s)].node as usize;
    }
    false
}

// Sends one unit to v along its way back, and tells from which root. The walk is that of `is_supplied`, which leaves the flow
// alone: one walk for both would need a closure that reads the flow and one that writes it.
fn send<T: Tariff>(
    network: &Network<'_, T>,
    flow: &mut [u16],
    labels: &SliceVec<'_, Label<T::Price>>,
    came_by: &[u16],
    v: usize,
) -> usize
    requires inside { (length flow.old ≡ length network.now.sides.now) × (v < network.now.nodes) × (network.now.nodes ≤ length came_by.now) }
    requires labels { (network.now.nodes ≤ labels.now.used) × (network.now.nodes ≤ length labels.now.places.now) }
    requires fits { Fits (arcs network.now.nodes (priced T.Price.Price.ops T.Tariff.rate network.now)) (units flow.old) × OneWay (priced T.Price.Price.ops T.Tariff.rate network.now) (units flow.old) }
    requires way { (u k : ℕ) × Way T.Price.Price.ops (priced T.Price.Price.ops T.Tariff.rate network.now) (units came_by.now) (label_at T.Price.Price.ops (take network.now.nodes labels.now.places.now)) (units flow.old) v u k }
    ensures sent { Sent T.Price.Price.ops network.now.nodes (priced T.Price.Price.ops T.Tariff.rate network.now) (label_at T.Price.Price.ops (take network.now.nodes labels.now.places.now)) (units flow.old) (units flow.new) v result }
    ensures root { (u k : ℕ) → Way T.Price.Price.ops (priced T.Price.Price.ops T.Tariff.rate network.now) (units came_by.now) (label_at T.Price.Price.ops (take network.now.nodes labels.now.places.now)) (units flow.old) v u k → result ≡ u }
{
    let mut at = v;
    for _ in 0..network.nodes {
        if label_at(labels, at).end == ROOT {
            return at;
        }
        let s = came_by[at] as usize;
        push(network, flow, s);
        at = network.sides[network.twin(s)].node as usize;
    }
    at
}

// Sends one unit to v, and takes it off the demands.
fn ship<T: Tariff>(
    network: &Network<'_, T>,
    flow: &mut [u16],
    left: &mut [Demand],
    labels: &SliceVec<'_, Label<T::Price>>,
    came_by: &[u16],
    v: usize,
)
    requires inside { (length flow.old ≡ length network.now.sides.now) × (length left.old ≡ network.now.nodes) × (v < network.now.nodes) × (network.now.nodes ≤ length came_by.now) }
    requires labels { (network.now.nodes ≤ labels.now.used) × (network.now.nodes ≤ length labels.now.places.now) }
    requires labelled { Labelled T.Price.Price.ops network.now.nodes (priced T.Price.Price.ops T.Tariff.rate network.now) (label_at T.Price.Price.ops (take network.now.nodes labels.now.places.now)) (units flow.old) }
    requires some { (0 < wants_of left.old v) × Supplied T.Price.Price.ops (priced T.Price.Price.ops T.Tariff.rate network.now) (units came_by.now) (label_at T.Price.Price.ops (take network.now.nodes labels.now.places.now)) (units flow.old) (gives_of left.old) v }
    ensures labelled { Labelled T.Price.Price.ops network.now.nodes (priced T.Price.Price.ops T.Tariff.rate network.now) (label_at T.Price.Price.ops (take network.now.nodes labels.now.places.now)) (units flow.new) }
    ensures onward { Onward network.now.nodes (priced T.Price.Price.ops T.Tariff.rate network.now) (wants_of left.old) (gives_of left.old) (units flow.old) (wants_of left.new) (gives_of left.new) (units flow.new) }
    ensures want { OneLess (wants_of left.old) (wants_of left.new) v }
    ensures less { total network.now.nodes (gives_of left.new) < total network.now.nodes (gives_of left.old) }
{
    let u = send(network, flow, labels, came_by, v);
    take_unit(left, v, u);
}

// Sends units to v while it wants one and can be supplied.
fn fill_node<T: Tariff>(
    network: &Network<'_, T>,
    flow: &mut [u16],
    left: &mut [Demand],
    labels: &SliceVec<'_, Label<T::Price>>,
    came_by: &[u16],
    v: usize,
)
    requires inside { (length flow.old ≡ length network.now.sides.now) × (length left.old ≡ network.now.nodes) × (v < network.now.nodes) × (network.now.nodes ≤ length came_by.now) }
    requires labels { (network.now.nodes ≤ labels.now.used) × (network.now.nodes ≤ length labels.now.places.now) }
    requires small { Sized T.Price.Price.ops network.now.nodes (2 ^ 38) labels.now.places.now }
    requires labelled { Labelled T.Price.Price.ops network.now.nodes (priced T.Price.Price.ops T.Tariff.rate network.now) (label_at T.Price.Price.ops (take network.now.nodes labels.now.places.now)) (units flow.old) }
    ensures labelled { Labelled T.Price.Price.ops network.now.nodes (priced T.Price.Price.ops T.Tariff.rate network.now) (label_at T.Price.Price.ops (take network.now.nodes labels.now.places.now)) (units flow.new) }
    ensures onward { Onward network.now.nodes (priced T.Price.Price.ops T.Tariff.rate network.now) (wants_of left.old) (gives_of left.old) (units flow.old) (wants_of left.new) (gives_of left.new) (units flow.new) }
    ensures less { total network.now.nodes (gives_of left.new) ≤ total network.now.nodes (gives_of left.old) }
{
    while left[v].wants > 0 && is_supplied(network, flow, left, labels, came_by, v) {
        ship(network, flow, left, labels, came_by, v);
    }
}

// Sends units to each node in turn, along the ways of one search that are still open.
fn fill_nodes<T: Tariff>(
    network: &Network<'_, T>,
    flow: &mut [u16],
    left: &mut [Demand],
    labels: &SliceVec<'_, Label<T::Price>>,
    came_by: &[u16],
)
    requires inside { (length flow.old ≡ length network.now.sides.now) × (length left.old ≡ network.now.nodes) × (network.now.nodes ≤ length came_by.now) }
    requires labels { (network.now.nodes ≤ labels.now.used) × (network.now.nodes ≤ length labels.now.places.now) }
    requires small { Sized T.Price.Price.ops network.now.nodes (2 ^ 38) labels.now.places.now }
    requires labelled { Labelled T.Price.Price.ops network.now.nodes (priced T.Price.Price.ops T.Tariff.rate network.now) (label_at T.Price.Price.ops (take network.now.nodes labels.now.places.now)) (units flow.old) }
    ensures labelled { Labelled T.Price.Price.ops network.now.nodes (priced T.Price.Price.ops T.Tariff.rate network.now) (label_at T.Price.Price.ops (take network.now.nodes labels.now.places.now)) (units flow.new) }
    ensures onward { Onward network.now.nodes (priced T.Price.Price.ops T.Tariff.rate network.now) (wants_of left.old) (gives_of left.old) (units flow.old) (wants_of left.new) (gives_of left.new) (units flow.new) }
    ensures less { total network.now.nodes (gives_of left.new) ≤ total network.now.nodes (gives_of left.old) }
{
    // By number, since it is the number of the node that is passed on.
    for v in 0..network.nodes {
        fill_node(network, flow, left, labels, came_by, v);
    }
}

// One search from the nodes that have units left, and units along the ways that it finds; an error where no labelled node wants one.
fn advance<T: Tariff>(
    network: &Network<'_, T>,
    flow: &mut [u16],
    left: &mut [Demand],
    labels: &mut SliceVec<'_, Label<T::Price>>,
    came_by: &mut [u16],
) -> Result<(), Infeasible>
    requires inside { (length flow.old ≡ length network.now.sides.now) × (length left.old ≡ network.now.nodes) × (network.now.nodes ≤ 512) × (network.now.nodes ≤ length came_by.old) }
    requires labels { (network.now.nodes ≤ labels.old.used) × (network.now.nodes ≤ length labels.old.places.now) }
    requires underway { Underway T.Price.Price.ops network.now.nodes (priced T.Price.Price.ops T.Tariff.rate network.now) (units flow.old) }
    requires some { (v : ℕ) × (v < network.now.nodes) × (0 < gives_of left.old v) }
    ensures underway { Underway T.Price.Price.ops network.now.nodes (priced T.Price.Price.ops T.Tariff.rate network.now) (units flow.new) }
    ensures onward { Onward network.now.nodes (priced T.Price.Price.ops T.Tariff.rate network.now) (wants_of left.old) (gives_of left.old) (units flow.old) (wants_of left.new) (gives_of left.new) (units flow.new) }
    ensures less { OnOk result (total network.now.nodes (gives_of left.new) < total network.now.nodes (gives_of left.old)) }
    ensures stuck { OnErr result ((p q : ℕ → ℕ) → Leaves network.now.nodes (priced T.Price.Price.ops T.Tariff.rate network.now) p q (wants_of left.old) (gives_of left.old) (units flow.old) → NoFlow network.now.nodes (priced T.Price.Price.ops T.Tariff.rate network.now) p q) }
    ensures used { labels.new.used ≡ labels.old.used }
    ensures long { length labels.new.places.now ≡ length labels.old.places.now }
    ensures lender { labels.new.places.ghost_name ≡ labels.old.places.ghost_name }
{
    seed(labels, left);
    network.settle(flow, labels);
    let v = taker(labels, left).ok_or(Infeasible)?;
    index_sides(network, labels, came_by);
    ship(network, flow, left, labels, came_by, v);
    fill_nodes(network, flow, left, labels, came_by);
    Ok(())
}

// The outcome where nothing is left to give, by the first node that wants a unit.
fn judge(unmet: Option<usize>) -> Result<(), Infeasible>
    ensures { result ≡ judged unmet }
{
    match unmet {
        Some(_) => Err(Infeasible),
        None => Ok(()),
    }
}

/// Finds a flow of least price that meets the demands of the nodes, or tells that none does. Side s may carry as many units as
/// it has room for. What the flow leaves of the demands is told in their places.
pub fn solve<T: Tariff>(
    network: &Network<'_, T>,
    flow: &mut [u16],
    left: &mut [Demand],
    labels: &mut SliceVec<'_, Label<T::Price>>,
) -> Result<(), Infeasible>
    requires inside { (length flow.old ≡ length network.now.sides.now) × (length left.old ≡ network.now.nodes) × (network.now.nodes ≤ 512) }
    requires labels { network.now.nodes ≤ length labels.old.places.now }
    ensures answered { Answered T.Price.Price.ops network.now.nodes (priced T.Price.Price.ops T.Tariff.rate network.now) (wants_of left.old) (gives_of left.old) (units flow.new) result }
    ensures leaves { Leaves network.now.nodes (priced T.Price.Price.ops T.Tariff.rate network.now) (wants_of left.old) (gives_of left.old) (wants_of left.new) (gives_of left.new) (units flow.new) }
    ensures long { length labels.new.places.now ≡ length labels.old.places.now }
    ensures lender { labels.new.places.ghost_name ≡ labels.old.places.ghost_name }
{
    let mut came_by = [0u16; 512];
    flow.fill(0);
    make_labels(labels, network.nodes);
    while is_giving(left) {
        advance(network, flow, left, labels, &mut came_by)?;
    }
    judge(first_wanting(left))
}
