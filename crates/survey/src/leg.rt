ghost use Rattle.std.specs.Prelude.{◌≡◌};

/// A surveyed leg: six whole numbers. Water runs from `from` to `to`.
#[derive(Clone, Copy, Debug, Default, PartialEq, Eq, Hash)]
pub struct Leg {
    /// The station it leaves, 1 to 9,999.
    pub from: u32,
    /// The station it comes to, another one.
    pub to: u32,
    /// Tenths of a degree clockwise from north, 0 to 3,599.
    pub bearing: u32,
    /// 0 to 1,000.
    pub weight: u32,
    /// 1 where the leg is wet, else 0. It is a number, since every other number is refused with a cause.
    pub wet: u32,
    /// The most pairs of bends on the leg, 0 to 999.
    pub limit: u32,
}

/// The three numbers of a leg that can be amended.
#[derive(Clone, Copy, Debug, Default, PartialEq, Eq, Hash)]
pub struct Attributes {
    pub weight: u32,
    pub wet: u32,
    pub limit: u32,
}

/// A call that changes a survey. A range of legs runs from `start` to `end - 1`: leg `end` is outside.
#[derive(Clone, Copy, Debug, PartialEq, Eq, Hash)]
pub enum Change {
    Enter(Leg),
    Strike {
        start: usize,
        end: usize,
    },
    Amend {
        start: usize,
        end: usize,
        attributes: Attributes,
    },
}

impl Leg {
    ghost use Rattle.survey.specs.Ends.{far_bearing};
    ghost use Rattle.survey.specs.Model.{plain_leg, attributes_of, with_attributes, clash};

    /// A dry leg of weight 1, with the highest limit.
    pub fn plain(from: u32, to: u32, bearing: u32) -> Leg
        ensures { result ≡ plain_leg from to bearing }
    {
        Leg {
            from,
            to,
            bearing,
            weight: 1,
            wet: 0,
            limit: 999,
        }
    }

    /// Weight, flag and limit.
    pub fn attributes(&self) -> Attributes
        ensures { result ≡ attributes_of self.now }
    {
        Attributes {
            weight: self.weight,
            wet: self.wet,
            limit: self.limit,
        }
    }

    /// The leg with another weight, flag and limit.
    pub fn with_attributes(self, attributes: Attributes) -> Leg
        ensures { result ≡ with_attributes attributes self }
    {
        let Attributes { weight, wet, limit } = attributes;
        Leg {
            weight,
            wet,
            limit,
            ..self
        }
    }

    /// The bearing at the leg's far end.
    pub fn far_bearing(&self) -> u32
        ensures { result ≡ far_bearing self.now }
    {
        (self.bearing % 3600 + 1800) % 3600
    }

    /// An end of one leg stands at the station and bearing of an end of the other.
    pub fn clashes_with(&self, other: &Leg) -> bool
        ensures { result ≡ clash self.now other.now }
    {
        let far = self.far_bearing();
        let other_far = other.far_bearing();
        self.from == other.from && self.bearing == other.bearing
            || self.from == other.to && self.bearing == other_far
            || self.to == other.from && far == other.bearing
            || self.to == other.to && far == other_far
    }
}
