// The sides that a flow runs over, and a search among them.
ghost use Rattle.search.specs.Sides.{Proper};

use crate::{Label, Side, fee, step_cost, try_move};
use pairs::twin as other;
use price::{Price, Tariff};
use slice_vec::SliceVec;

/// Sides in pairs between so many nodes, and the tariff that tells what a unit over a side costs.
#[derive(Drop)]
pub struct Network<'a, T> {
    pub tariff: &'a T,
    pub sides: &'a [Side],
    pub nodes: usize,
    ghost proper: { Proper nodes sides.now },
}

impl<'a, T: Tariff> Network<'a, T> {
    ghost use Rattle.std.specs.Prelude.{◌≡◌, ℕ, ◌^◌, ◌<◌, ◌≤◌, false, length, take};
    ghost use Rattle.search.specs.Labels.{Lower, Roots, Sized, Fresh};
    ghost use Rattle.search.specs.Moves.{better, moved, swept};
    ghost use Rattle.search.specs.Paths.{Safe, Named, Settled};
    ghost use Rattle.search.specs.Networks.{twin as other_side, cost_of};
    ghost use Rattle.search.specs.Sides.{side_at, fee_of, residual, WithinRoom};

    /// The other side of a pair.
    #[tactic(auto, unfolding(crate::specs::Networks::twin))]
    pub fn twin(&self, s: usize) -> usize
        requires { s < length self.now.sides.now }
        ensures value { result ≡ other_side s }
        ensures inside { result < length self.now.sides.now }
    {
        other(s)
    }

    /// What one unit over side s costs.
    pub fn fee(&self, s: usize) -> T::Price
        requires { s < length self.now.sides.now }
        ensures value { result ≡ fee_of T.Price.Price.ops (T.Tariff.rate self.now.tariff.now) (side_at self.now.sides.now s) }
        ensures small { T.Price.Price.ops.size result ≤ 2000 }
    {
        fee(self.tariff, self.sides[s])
    }

    /// What one unit over side s costs, where so many came the other way.
    pub fn step_cost(&self, s: usize, came: u16) -> T::Price
        requires { s < length self.now.sides.now }
        ensures value { result ≡ cost_of T.Price.Price.ops (fee_of T.Price.Price.ops (T.Tariff.rate self.now.tariff.now) (side_at self.now.sides.now s)) came }
        ensures small { T.Price.Price.ops.size result ≤ 2000 }
    {
        step_cost(self.fee(s), came)
    }

    // Tries to lead on over side s, and tells whether the node it leads to has a better label.
    fn try_side(&self, flow: &[u16], labels: &mut SliceVec<'_, Label<T::Price>>, s: usize) -> bool
        requires inside { (s < length self.now.sides.now) × (length flow.now ≡ length self.now.sides.now) }
        requires labels { (self.now.nodes ≤ labels.old.used) × (self.now.nodes ≤ length labels.old.places.now) }
        requires small { Sized T.Price.Price.ops self.now.nodes (2 ^ 39) labels.old.places.now }
        ensures told { result ≡ better T.Price.Price.ops labels.old.places.now (residual T.Price.Price.ops (T.Tariff.rate self.now.tariff.now) self.now.sides.now flow.now s) }
        ensures left { labels.new.places.now ≡ moved T.Price.Price.ops labels.old.places.now (residual T.Price.Price.ops (T.Tariff.rate self.now.tariff.now) self.now.sides.now flow.now s) }
        ensures used { labels.new.used ≡ labels.old.used }
        ensures lender { labels.new.places.ghost_name ≡ labels.old.places.ghost_name }
    {
        let side = self.sides[s];
        let back = self.twin(s);
        let origin = self.sides[back].node as usize;
        let came = flow[back];
        if came == 0 && flow[s] >= side.room {
            return false;
        }
        let cost = self.step_cost(s, came);
        try_move(labels, origin, side.node as usize, cost, side.end)
    }

    // Tries each side once, and tells whether a label has changed.
    fn round(&self, flow: &[u16], labels: &mut SliceVec<'_, Label<T::Price>>) -> bool
        requires inside { length flow.now ≡ length self.now.sides.now }
        requires labels { (self.now.nodes ≤ labels.old.used) × (self.now.nodes ≤ length labels.old.places.now) }
        requires small { Sized T.Price.Price.ops self.now.nodes (2 ^ 38) labels.old.places.now }
        ensures swept { record { changed = result; labels = labels.new.places.now } ≡ swept T.Price.Price.ops (record { changed = false; labels = labels.old.places.now }) (residual T.Price.Price.ops (T.Tariff.rate self.now.tariff.now) self.now.sides.now flow.now) (length self.now.sides.now) }
        ensures used { labels.new.used ≡ labels.old.used }
        ensures lender { labels.new.places.ghost_name ≡ labels.old.places.ghost_name }
    {
        let mut changed = false;
        // By number, which names the side's twin too.
        for s in 0..self.sides.len() {
            changed |= self.try_side(flow, labels, s);
        }
        changed
    }

    /// Goes round the sides until no label changes: then every price is that of a cheapest chain from a root.
    pub fn settle(&self, flow: &[u16], labels: &mut SliceVec<'_, Label<T::Price>>)
        requires inside { (length flow.now ≡ length self.now.sides.now) × (0 < self.now.nodes) × (self.now.nodes ≤ 512) }
        requires labels { (self.now.nodes ≤ labels.old.used) × (self.now.nodes ≤ length labels.old.places.now) }
        requires room { WithinRoom self.now.sides.now flow.now }
        requires safe { (pot : ℕ → T.Price) × Safe T.Price.Price.ops (length self.now.sides.now) (residual T.Price.Price.ops (T.Tariff.rate self.now.tariff.now) self.now.sides.now flow.now) pot }
        requires fresh { Fresh T.Price.Price.ops (take self.now.nodes labels.old.places.now) }
        ensures settled { (from : ℕ → ℕ → ℕ) → Named (length self.now.sides.now) (residual T.Price.Price.ops (T.Tariff.rate self.now.tariff.now) self.now.sides.now flow.now) from → Settled T.Price.Price.ops from (length self.now.sides.now) (residual T.Price.Price.ops (T.Tariff.rate self.now.tariff.now) self.now.sides.now flow.now) (take self.now.nodes labels.new.places.now) }
        ensures lower { Lower T.Price.Price.ops (take self.now.nodes labels.old.places.now) (take self.now.nodes labels.new.places.now) }
        ensures roots { Roots T.Price.Price.ops (take self.now.nodes labels.old.places.now) (take self.now.nodes labels.new.places.now) }
        ensures small { Sized T.Price.Price.ops self.now.nodes (2 ^ 38) labels.new.places.now }
        ensures used { labels.new.used ≡ labels.old.used }
        ensures long { length labels.new.places.now ≡ length labels.old.places.now }
        ensures lender { labels.new.places.ghost_name ≡ labels.old.places.ghost_name }
    {
        for _ in 0..self.nodes {
            if !self.round(flow, labels) {
                return;
            }
        }
    }
}
