// What a drawing tells.
ghost use Rattle.std.specs.Prelude.{◌≡◌, ◌≤◌, length};
ghost use Rattle.plan.specs.States.{new_state};
ghost use Rattle.draw.specs.Shapes.{bends as bends_of, NamesLarge, FirstShape};
ghost use Rattle.draw.specs.Drawings.{drawing_legs, drawing_shape, drawing_state};

use crate::bends::{Bends, STRAIGHT};
use crate::drawings::Drawing;
use plan::plans::Plan;

impl Drawing {
    /// The new plan drawn: one leg from station 1 to station 2 due north, its left the outer side, both angles large, no bends.
    pub fn new() -> Drawing
        ensures plan { drawing_state result ≡ new_state }
        ensures shape { FirstShape (drawing_shape result) }
    {
        let mut large = [false; 512];
        large[0] = true;
        large[1] = true;
        Drawing {
            plan: Plan::new(),
            large,
            bends: [STRAIGHT; 256],
        }
    }

    /// The plan that is drawn: its legs and outer side, its stations and faces.
    pub fn plan(&self) -> &Plan
        ensures { result.now ≡ self.now.plan }
    {
        &self.plan
    }

    // The bends of leg i, none past the last leg.
    fn bends_at(&self, i: usize) -> Bends
        ensures left { result.left ≡ (drawing_shape self.now).left i }
        ensures right { result.right ≡ (drawing_shape self.now).right i }
        ensures past { length (drawing_legs self.now) ≤ i → (result.left ≡ 0) × (result.right ≡ 0) }
    {
        if i < self.plan.count() {
            self.bends[i]
        } else {
            STRAIGHT
        }
    }

    /// The left bends of leg i, 0 past the last leg.
    pub fn left(&self, i: usize) -> u16
        ensures bends { result ≡ (drawing_shape self.now).left i }
        ensures past { length (drawing_legs self.now) ≤ i → result ≡ 0 }
    {
        self.bends_at(i).left
    }

    /// The right bends of leg i, 0 past the last leg.
    pub fn right(&self, i: usize) -> u16
        ensures bends { result ≡ (drawing_shape self.now).right i }
        ensures past { length (drawing_legs self.now) ≤ i → result ≡ 0 }
    {
        self.bends_at(i).right
    }

    /// The number of bends on all legs.
    pub fn bends(&self) -> usize
        ensures { result ≡ bends_of (drawing_legs self.now) (drawing_shape self.now) }
    {
        let mut total = 0;
        for bends in &self.bends[..self.plan.count()] {
            total += bends.total() as usize;
        }
        total
    }

    /// The end whose angle is large at a station; none where the station is neither a source nor a sink, or not in the plan.
    pub fn large_at(&self, station: u32) -> Option<usize>
        ensures { NamesLarge (drawing_legs self.now) (drawing_shape self.now) station result }
    {
        let cave = self.plan.cave();
        (0..cave.ends()).find(|&e| self.large[e] && cave.station(e) == station)
    }
}
