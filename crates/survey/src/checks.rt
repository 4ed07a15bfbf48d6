// The causes for which a call is refused, in the order in which they are met.
ghost use Rattle.std.specs.Prelude.{◌≡◌, length};
ghost use Rattle.refusal.specs.Answers.{told};
ghost use Rattle.survey.specs.Model.{attributes_answer, leg_answer, first_clash, clash_answer, range_answer, allowed_answer, enter_answer, strike_answer, amend_answer, told_leg, query_answer};

use crate::leg::{Attributes, Leg};
use refusal::{Attribute, Refusal};

// Weight, flag and limit are in range.
fn check_attributes(x: Attributes) -> Result<(), Refusal>
    ensures { told result ≡ attributes_answer x }
{
    if x.weight > 1000 {
        return Err(Refusal::AttributeRange(Attribute::Weight));
    }
    if x.wet > 1 {
        return Err(Refusal::AttributeRange(Attribute::Flag));
    }
    if x.limit > 999 {
        return Err(Refusal::AttributeRange(Attribute::Limit));
    }
    Ok(())
}

// A leg's own numbers are in range.
fn check_leg(leg: &Leg) -> Result<(), Refusal>
    ensures { told result ≡ leg_answer leg.now }
{
    if leg.from < 1 || leg.from > 9999 || leg.to < 1 || leg.to > 9999 {
        return Err(Refusal::StationRange);
    }
    if leg.from == leg.to {
        return Err(Refusal::SameStation(leg.from));
    }
    if leg.bearing > 3599 {
        return Err(Refusal::BearingRange(leg.bearing));
    }
    check_attributes(leg.attributes())
}

// The lowest leg that clashes with this one, if any.
fn find_clash(legs: &[Leg], leg: &Leg) -> Option<usize>
    ensures { result ≡ first_clash legs.now leg.now }
{
    legs.iter().position(|other| other.clashes_with(leg))
}

// No leg clashes with this one.
fn check_clash(legs: &[Leg], leg: &Leg) -> Result<(), Refusal>
    ensures { told result ≡ clash_answer legs.now leg.now }
{
    match find_clash(legs, leg) {
        Some(i) => Err(Refusal::EndTaken(i)),
        None => Ok(()),
    }
}

// The survey allows the call.
fn check_allowed(count: usize, may: bool) -> Result<(), Refusal>
    ensures { told result ≡ allowed_answer count may }
{
    if may {
        Ok(())
    } else {
        Err(Refusal::NotAllowed(count))
    }
}

// Legs `start` to `end - 1` are among the count.
fn check_range(count: usize, start: usize, end: usize) -> Result<(), Refusal>
    ensures { told result ≡ range_answer count start end }
{
    if start > end || end > count {
        return Err(Refusal::LegRange(count));
    }
    Ok(())
}

/// What entering a leg meets, given the legs and whether one may enter.
pub fn check_enter(legs: &[Leg], may: bool, leg: &Leg) -> Result<(), Refusal>
    ensures { told result ≡ enter_answer legs.now may leg.now }
{
    check_leg(leg)?;
    check_clash(legs, leg)?;
    check_allowed(legs.len(), may)
}

/// What striking a range meets, given the count and whether one may amend.
pub fn check_strike(count: usize, may: bool, start: usize, end: usize) -> Result<(), Refusal>
    ensures { told result ≡ strike_answer count may start end }
{
    check_range(count, start, end)?;
    check_allowed(count, may)
}

/// What amending a range meets, given the count and whether one may amend.
pub fn check_amend(
    count: usize,
    may: bool,
    start: usize,
    end: usize,
    x: Attributes,
) -> Result<(), Refusal>
    ensures { told result ≡ amend_answer count may start end x }
{
    check_attributes(x)?;
    check_range(count, start, end)?;
    check_allowed(count, may)
}

/// Leg i of a list, or a refusal where there is none.
pub fn query_leg(legs: &[Leg], i: usize) -> Result<Leg, Refusal>
    ensures { told_leg result ≡ query_answer legs.now i }
{
    legs.get(i).copied().ok_or(Refusal::NoSuchLeg(legs.len()))
}
