// The survey text, read into any survey.
#![tactic(auto)]

ghost use Rattle.std.specs.Prelude.{◌≡◌};
ghost use Rattle.svx_line.specs.Spans.{fields};
ghost use Rattle.svx_line.specs.Parts.{span_of};
ghost use Rattle.svx_line.specs.Verdicts.{verdict};
ghost use Rattle.svx.specs.Script.{ends, follow, offer, script};
ghost use Rattle.svx.specs.Reading.{means, Reads, Exactly};
ghost use Rattle.svx.specs.Told.{outcome};

pub mod fault;
mod reader;

use fault::{Fault, Layer};
use reader::Reader;
use refusal::Refusal;
use survey::Survey;
use svx_line::line::judge;
use svx_line::offer::Offer;
use svx_line::part::Part;

/// The longest text that is read, in bytes.
const MOST_BYTES: usize = 65536;

// Enters the leg that a line offers.
fn enter_offer<S: Survey>(x: Offer, line: usize, survey: &mut S) -> Result<(), Fault>
    ensures { Reads (means S.legs S.enters S.amends S.leads) (offer line x.place x.leg ends) survey.old (outcome result) survey.new }
{
    survey.enter(x.leg).map_err(|cause| Fault {
        cause,
        line,
        place: x.place,
        layer: Layer::Survey,
    })
}

// Reads one line, and enters its leg if it has one.
fn read_line<'a, S: Survey>(part: Part<'a>, line: usize, survey: &mut S) -> Result<(), Fault>
    ensures { Reads (means S.legs S.enters S.amends S.leads) (follow (verdict (fields (span_of part.entry))) line ends) survey.old (outcome result) survey.new }
{
    match judge(part).map_err(|flaw| Fault::in_text(flaw, line))? {
        None => Ok(()),
        Some(offer) => enter_offer(offer, line, survey),
    }
}

/// Reads a survey text, and enters each of its legs into the survey, up to the first fault.
/// Legs entered before the fault stay.
pub fn read<S: Survey>(text: &[u8], survey: &mut S) -> Result<(), Fault>
    ensures run { Reads (means S.legs S.enters S.amends S.leads) (script text.now) survey.old (outcome result) survey.new }
    ensures exactly { Exactly (means S.legs S.enters S.amends S.leads) (script text.now) survey.old (outcome result) survey.new }
{
    if text.len() > MOST_BYTES {
        return Err(Fault {
            cause: Refusal::LongText(text.len()),
            line: 0,
            place: 0,
            layer: Layer::Text,
        });
    }
    let mut reader = Reader::new(text);
    // The reader is asked for the line's number too, so it is no iterator.
    while let Some(part) = reader.next_line() {
        read_line(part, reader.line, survey)?;
    }
    Ok(())
}
