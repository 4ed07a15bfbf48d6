// The one table of refusals: every call of the library refuses with one of these causes.
#![tactic(auto)]

ghost use Rattle.std.specs.Prelude.{◌≡◌, [], ◌∷◌};
ghost use Rattle.refusal.specs.Answers.{answers, attribute_number, number_of, value_of, told};

use thiserror::Error;

/// What a leg has that can be amended.
#[derive(Clone, Copy, Debug, PartialEq, Eq, Hash)]
pub enum Attribute {
    Weight,
    Flag,
    Limit,
}

impl Attribute {
    /// The number that stands for it: 1, 2 or 3.
    pub fn number(self) -> u32
        ensures { result ≡ attribute_number self }
    {
        match self {
            Attribute::Weight => 1,
            Attribute::Flag => 2,
            Attribute::Limit => 3,
        }
    }
}

/// Why a call was refused. Each cause has its own number, and holds the value that is returned with it, if any.
#[derive(Clone, Copy, Debug, PartialEq, Eq, Hash, Error)]
pub enum Refusal {
    /// A station is not 1 to 9,999.
    #[error("a station is not 1 to 9999")]
    StationRange,
    /// From and to are the same station, which is returned.
    #[error("a leg leads from a station to itself, station {0}")]
    SameStation(u32),
    /// The bearing, which is returned, is over 3,599.
    #[error("a bearing is over 3599 tenths of a degree: {0}")]
    BearingRange(u32),
    /// The weight, the flag or the limit is outside its range; the number of the first such is returned.
    #[error("weight (1), flag (2) or limit (3) is outside its range: number {}", .0.number())]
    AttributeRange(Attribute),
    /// Another end stands at that station at that bearing; the lowest such leg is returned.
    #[error("another passage leaves the station at this bearing: leg {0}")]
    EndTaken(usize),
    /// A range of legs runs backward or past the count, which is returned.
    #[error("a range of legs does not lie within the legs, of which there are {0}")]
    LegRange(usize),
    /// The survey may not be entered or amended now; the count is returned.
    #[error("the survey takes no more legs, it has {0}")]
    NotAllowed(usize),
    /// No leg has this number; the count is returned.
    #[error("there is no such leg, the survey has {0}")]
    NoSuchLeg(usize),
    /// There are no legs to plan.
    #[error("there is no leg")]
    NoLegs,
    /// There are more than 256 legs to plan; the count is returned.
    #[error("there are more than 256 legs: {0}")]
    TooManyLegs(usize),
    /// The outer leg is not below the count, which is returned, or the side is over 1.
    #[error("the outer side is no side of a leg, of which there are {0}")]
    NoSuchSide(usize),
    /// The cave is not connected; the lowest leg not joined to leg 0 is returned.
    #[error("the cave is not connected: not joined to leg 0 is leg {0}")]
    NotConnected(usize),
    /// A station, which is returned, is not bimodal.
    #[error("passages in and out take turns more than twice round station {0}")]
    NotBimodal(u32),
    /// The embedding is not planar; its number of faces is returned.
    #[error("the passages cross, the number of faces is {0}")]
    NotPlanar(usize),
    /// Fewer labels were supplied than the number returned.
    #[error("too few labels, needed are {0}")]
    FewLabels(usize),
    /// The plan has no valid shape.
    #[error("no shape keeps the limits of the legs")]
    NoShape,
    /// The output buffer is shorter than the bytes needed, which are returned.
    #[error("the output buffer is short, needed are bytes: {0}")]
    ShortBuffer(usize),
    /// A vector is full; its count in use is returned.
    #[error("a vector is full, in use are {0}")]
    VectorFull(usize),
    /// The index is not below the vector's count in use, which is returned.
    #[error("an index is past the records in use, which are {0}")]
    PastCount(usize),
    /// A command of the survey text is not the one that is known.
    #[error("this command is not known, only *data normal from to tape compass clino")]
    OtherCommand,
    /// A line of the survey text has another number of fields than five, which is returned.
    #[error("a leg has five fields: from, to, tape, compass, clino; this line has {0}")]
    FieldCount(usize),
    /// A station field is malformed.
    #[error("this field is no station: one to four digits, the first not 0")]
    BadStation,
    /// A tape, compass or clino field is malformed.
    #[error("this field is no reading (compass 0 to 359.9; tape and clino like -12.34)")]
    BadReading,
    /// The survey text is longer than 65,536 bytes; its length is returned.
    #[error("the text has more than 65536 bytes: {0}")]
    LongText(usize),
}

impl Refusal {
    /// The number of the cause in the table of refusals.
    pub fn number(&self) -> u32
        ensures { result ≡ number_of self.now }
    {
        match self {
            Refusal::StationRange => 1,
            Refusal::SameStation(_) => 2,
            Refusal::BearingRange(_) => 3,
            Refusal::AttributeRange(_) => 4,
            Refusal::EndTaken(_) => 5,
            Refusal::LegRange(_) => 6,
            Refusal::NotAllowed(_) => 7,
            Refusal::NoSuchLeg(_) => 8,
            Refusal::NoLegs => 9,
            Refusal::TooManyLegs(_) => 10,
            Refusal::NoSuchSide(_) => 11,
            Refusal::NotConnected(_) => 12,
            Refusal::NotBimodal(_) => 13,
            Refusal::NotPlanar(_) => 14,
            Refusal::FewLabels(_) => 15,
            Refusal::NoShape => 16,
            Refusal::ShortBuffer(_) => 17,
            Refusal::VectorFull(_) => 18,
            Refusal::PastCount(_) => 19,
            Refusal::OtherCommand => 20,
            Refusal::FieldCount(_) => 21,
            Refusal::BadStation => 22,
            Refusal::BadReading => 23,
            Refusal::LongText(_) => 24,
        }
    }

    /// The value that is returned with the refusal, 0 where the cause has none.
    pub fn value(&self) -> usize
        ensures { result ≡ value_of self.now }
    {
        match self {
            Refusal::StationRange
            | Refusal::NoLegs
            | Refusal::NoShape
            | Refusal::OtherCommand
            | Refusal::BadStation
            | Refusal::BadReading => 0,
            Refusal::SameStation(station) | Refusal::NotBimodal(station) => *station as usize,
            Refusal::BearingRange(bearing) => *bearing as usize,
            Refusal::AttributeRange(attribute) => attribute.number() as usize,
            Refusal::EndTaken(leg) | Refusal::NotConnected(leg) => *leg,
            Refusal::LegRange(count)
            | Refusal::NotAllowed(count)
            | Refusal::NoSuchLeg(count)
            | Refusal::TooManyLegs(count)
            | Refusal::NoSuchSide(count)
            | Refusal::NotPlanar(count)
            | Refusal::FewLabels(count)
            | Refusal::ShortBuffer(count)
            | Refusal::VectorFull(count)
            | Refusal::PastCount(count)
            | Refusal::FieldCount(count)
            | Refusal::LongText(count) => *count,
        }
    }
}

/// The number of an answer and the value returned with it; 0 and 0 where the call was accepted.
pub fn number_and_value<T>(answer: &Result<T, Refusal>) -> (u32, usize)
    ensures { told answer.now ≡ answers result.0 (result.1 ∷ []) }
{
    match answer {
        Ok(_) => (0, 0),
        Err(refusal) => (refusal.number(), refusal.value()),
    }
}
