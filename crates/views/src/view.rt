// What a view shows of a leg, and the leg that it sends down.
ghost use Rattle.std.specs.Prelude.{◌≡◌, ◌%◌, nat_lt};
ghost use Rattle.survey.specs.declared.leg.Leg.{Leg};
ghost use Rattle.view_laws.specs.Views.{swapped as swapped_at, turned, mirrored, declination_shows, declination_sends, mirrored_shows, mirrored_sends, reversed_shows, reversed_sends};
ghost use Rattle.view_laws.specs.Laws.{ViewLaws};
ghost use Rattle.view_laws.proofs.Three.{three_laws};

use survey::leg::Leg;

/// A full circle in tenths of a degree.
const CIRCLE: u32 = 3600;

const HALF_CIRCLE: u32 = 1800;

/// How a view shows the legs of the survey below it.
pub trait View {
    /// The leg as shown.
    ghost shows: { Self → Leg → Leg };

    /// The leg to send down, so that it is shown as the one given.
    ghost sends: { Self → Leg → Leg };

    ghost laws: { (v : Self) → ViewLaws (shows v) (sends v) };

    /// A leg of the survey below, as shown.
    fn show(&self, leg: Leg) -> Leg
        ensures { result ≡ shows self.now leg };

    /// The leg to enter below. A bearing over 3,599 goes down as it is.
    fn send(&self, leg: Leg) -> Leg
        ensures { result ≡ sends self.now leg };
}

/// Shows each bearing plus a declination, modulo 3,600.
#[derive(Clone, Copy, Debug, Default, PartialEq, Eq, Hash)]
pub struct Declination {
    turn: u32,
}

impl Declination {
    /// A declination in tenths of a degree, taken modulo 3,600.
    pub fn new(turn: u32) -> Declination
        ensures { result.turn ≡ turn % 3600 }
    {
        Declination {
            turn: turn % CIRCLE,
        }
    }
}

impl View for Declination {
    ghost shows = { λ v. declination_shows v.turn };

    ghost sends = { λ v. declination_sends v.turn };

    ghost laws = { λ v. three_laws.declination v.turn };

    fn show(&self, leg: Leg) -> Leg {
        Leg {
            bearing: turn_by(leg.bearing, self.turn),
            ..leg
        }
    }

    fn send(&self, leg: Leg) -> Leg {
        if is_over(leg.bearing) {
            return leg;
        }
        Leg {
            bearing: turn_by(leg.bearing, CIRCLE - self.turn % CIRCLE),
            ..leg
        }
    }
}

/// Shows 3,600 minus each bearing, modulo 3,600: the cave in a mirror.
#[derive(Clone, Copy, Debug, Default, PartialEq, Eq, Hash)]
pub struct Mirrored;

impl View for Mirrored {
    ghost shows = { λ v. mirrored_shows };

    ghost sends = { λ v. mirrored_sends };

    ghost laws = { λ v. three_laws.mirror };

    fn show(&self, leg: Leg) -> Leg {
        Leg {
            bearing: mirror(leg.bearing),
            ..leg
        }
    }

    fn send(&self, leg: Leg) -> Leg {
        if is_over(leg.bearing) {
            return leg;
        }
        self.show(leg)
    }
}

/// Shows each leg from its other end: from and to swapped, and 1,800 added to the bearing, modulo 3,600.
#[derive(Clone, Copy, Debug, Default, PartialEq, Eq, Hash)]
pub struct Reversed;

impl View for Reversed {
    ghost shows = { λ v. reversed_shows };

    ghost sends = { λ v. reversed_sends };

    ghost laws = { λ v. three_laws.reversal };

    fn show(&self, leg: Leg) -> Leg {
        swapped(leg, turn_by(leg.bearing, HALF_CIRCLE))
    }

    fn send(&self, leg: Leg) -> Leg {
        if is_over(leg.bearing) {
            return swapped(leg, leg.bearing);
        }
        self.show(leg)
    }
}

// A bearing is over 3,599.
fn is_over(bearing: u32) -> bool
    ensures { result ≡ nat_lt 3599 bearing }
{
    bearing >= CIRCLE
}

// A bearing with a turn added.
fn turn_by(bearing: u32, turn: u32) -> u32
    ensures { result ≡ turned turn bearing }
{
    (bearing % CIRCLE + turn % CIRCLE) % CIRCLE
}

// 3,600 minus a bearing.
fn mirror(bearing: u32) -> u32
    ensures { result ≡ mirrored bearing }
{
    (CIRCLE - bearing % CIRCLE) % CIRCLE
}

// The leg with from and to swapped, at another bearing.
fn swapped(leg: Leg, bearing: u32) -> Leg
    ensures { result ≡ swapped_at leg bearing }
{
    Leg {
        from: leg.to,
        to: leg.from,
        bearing,
        ..leg
    }
}
