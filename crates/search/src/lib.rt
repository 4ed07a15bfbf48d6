// Shortest-path search over lent labels, at any kind of price.
#![tactic(auto)]

ghost use Rattle.std.specs.Prelude.{◌≡◌, ◌+◌, ◌^◌, ◌<◌, ◌≤◌, length, slice_set};
ghost use Rattle.std.specs.Option.{ForSome};
ghost use Rattle.slice_vec.specs.Places.{at_item};
ghost use Rattle.search.specs.Labels.{first_of, blank, label_at, below, improves, tried};
ghost use Rattle.search.specs.Networks.{cost_of};
ghost use Rattle.search.specs.Sides.{fee_of};

use price::{Price, Tariff};
use slice_vec::SliceVec;

pub mod network;

/// The end of a label without a price.
pub const NO_PRICE: u16 = 65535;

/// The end of a label where the search begins.
pub const ROOT: u16 = 65534;

/// The best price so far at a node, and the end it came by: two single values, by a rule of the project, so that the lack of a
/// price is one of the ends.
#[derive(Clone, Copy, Debug, PartialEq, Eq, Hash)]
pub struct Label<P> {
    pub price: P,
    pub end: u16,
}

impl<P: Price> Label<P> {
    /// A label without a price.
    pub fn none() -> Label<P>
        ensures { result ≡ blank P.Price.ops }
    {
        Label {
            price: P::zero(),
            end: NO_PRICE,
        }
    }
}

/// What a tariff is asked for a bend: the weight of its leg and its wet flag.
#[derive(Clone, Copy, Debug, Default, PartialEq, Eq, Hash)]
pub struct Bend {
    pub weight: u32,
    pub wet: u32,
}

/// One direction of a pair of opposite arcs. Sides 2k and 2k + 1 are a pair, and each leads from the other's node to its own.
/// A unit over it makes two such bends, or none.
#[derive(Clone, Copy, Debug, Default, PartialEq, Eq, Hash)]
pub struct Side {
    pub node: u16,
    pub end: u16,
    pub room: u16,
    pub bend: Option<Bend>,
}

/// How many units a node wants, and how many it gives.
#[derive(Clone, Copy, Debug, Default, PartialEq, Eq, Hash)]
pub struct Demand {
    pub wants: u16,
    pub gives: u16,
}

/// The label of a node; one without a price where no label in use is the node's.
#[tactic(auto, using(crate::proofs::Front::held_at))]
pub fn label_at<P: Price>(labels: &SliceVec<'_, Label<P>>, node: usize) -> Label<P>
    ensures value { result ≡ first_of (blank P.Price.ops) (at_item labels.now.places.now labels.now.used node) }
    ensures held { node < labels.now.used → result ≡ label_at P.Price.ops labels.now.places.now node }
{
    labels.read(node).unwrap_or(Label::none())
}

/// Puts a label in the place of a node's.
pub fn set_label<P: Price>(labels: &mut SliceVec<'_, Label<P>>, node: usize, label: Label<P>)
    requires { (node < labels.old.used) × (node < length labels.old.places.now) }
    ensures places { labels.new.places.now ≡ slice_set labels.old.places.now node label }
    ensures used { labels.new.used ≡ labels.old.used }
    ensures lender { labels.new.places.ghost_name ≡ labels.old.places.ghost_name }
{
    labels.replace(node, label).unwrap();
}

/// Puts labels without a price in use until there are as many as nodes.
pub fn make_labels<P: Price>(labels: &mut SliceVec<'_, Label<P>>, nodes: usize)
    requires { nodes ≤ length labels.old.places.now }
    ensures used { nodes ≤ labels.new.used }
    ensures long { length labels.new.places.now ≡ length labels.old.places.now }
    ensures lender { labels.new.places.ghost_name ≡ labels.old.places.ghost_name }
{
    for _ in labels.len()..nodes {
        labels.append(Label::none()).unwrap();
    }
}

/// Tries a move. It is stored exactly where its origin has a price and its target has none or a higher one; tells whether it was.
pub fn try_move<P: Price>(
    labels: &mut SliceVec<'_, Label<P>>,
    origin: usize,
    target: usize,
    cost: P,
    end: u16,
) -> bool
    requires origin { (origin < labels.old.used) × (origin < length labels.old.places.now) }
    requires target { (target < labels.old.used) × (target < length labels.old.places.now) }
    requires small { P.Price.ops.size (label_at P.Price.ops labels.old.places.now origin).price + P.Price.ops.size cost ≤ 2 ^ 40 }
    ensures told { result ≡ improves P.Price.ops (label_at P.Price.ops labels.old.places.now origin) (label_at P.Price.ops labels.old.places.now target) cost }
    ensures left { labels.new.places.now ≡ tried P.Price.ops labels.old.places.now origin target cost end }
    ensures used { labels.new.used ≡ labels.old.used }
    ensures lender { labels.new.places.ghost_name ≡ labels.old.places.ghost_name }
{
    let from = label_at(labels, origin);
    if from.end == NO_PRICE {
        return false;
    }
    let price = from.price.add(cost);
    if !beats(price, label_at(labels, target)) {
        return false;
    }
    set_label(labels, target, Label { price, end });
    true
}

// Whether a price is better than a label: it has none, or a higher one.
fn beats<P: Price>(price: P, label: Label<P>) -> bool
    ensures { result ≡ below P.Price.ops label price }
{
    label.end == NO_PRICE || !label.price.at_most(price)
}

/// What one unit over a side costs: two bends, or nothing where the side has none.
pub fn fee<T: Tariff>(tariff: &T, side: Side) -> T::Price
    requires { ForSome side.bend (λ b. b.weight ≤ 1000) }
    ensures value { result ≡ fee_of T.Price.Price.ops (T.Tariff.rate tariff.now) side }
    ensures small { T.Price.Price.ops.size result ≤ 2000 }
{
    match side.bend {
        Some(bend) => {
            let price = tariff.bend_price(bend.weight, bend.wet);
            price.add(price)
        }
        None => <T::Price as Price>::zero(),
    }
}

/// What one unit over a side costs, where so many came the other way: it first takes back one that came, and its fee with it.
pub fn step_cost<P: Price>(fee: P, back: u16) -> P
    requires { P.Price.ops.size fee ≤ 2000 }
    ensures value { result ≡ cost_of P.Price.ops fee back }
    ensures small { P.Price.ops.size result ≤ 2000 }
{
    if back > 0 { fee.neg() } else { fee }
}
