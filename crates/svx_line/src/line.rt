// What a line means.
ghost use Rattle.std.specs.Prelude.{◌≡◌, map, length};
ghost use Rattle.std.specs.List.{list_all, zip};
ghost use Rattle.std.specs.Str.{bytes_eq};
ghost use Rattle.svx_line.specs.Spans.{fields};
ghost use Rattle.svx_line.specs.Parts.{span_of};
ghost use Rattle.svx_line.specs.Verdicts.{data_normal, leg_verdict, command_verdict, verdict};
ghost use Rattle.svx_line.specs.Told.{line_told};

use crate::fields::Fields;
use crate::lexer::Lexer;
use crate::offer::{Flaw, Offer};
use crate::part::Part;
use crate::token::Token;
use refusal::Refusal;
use survey::leg::Leg;
use svx_fields::{compass, reading, station};

// Each field is the word at its place.
fn all_read(fields: &[Part], words: &[&[u8]]) -> bool
    ensures { result ≡ list_all (λ p. bytes_eq p.0.bytes.now p.1.now) (zip fields.now words.now) }
{
    fields
        .iter()
        .zip(words)
        .all(|(field, word)| field.bytes == *word)
}

// The seven fields are the words of the one known command.
fn is_data_normal(fields: &[Part]) -> bool
    requires { length fields.now ≡ 7 }
    ensures { result ≡ data_normal (map span_of fields.now) }
{
    let words: [&[u8]; 7] = [
        b"*data", b"normal", b"from", b"to", b"tape", b"compass", b"clino",
    ];
    all_read(fields, &words)
}

// A line that starts with a star.
fn command(fields: &Fields, place: usize) -> Result<Option<Offer>, Flaw>
    ensures { line_told result ≡ command_verdict (map span_of fields.now.first.items) fields.now.count place }
{
    if fields.count == 7 && is_data_normal(&fields.first) {
        Ok(None)
    } else {
        Err(Flaw {
            cause: Refusal::OtherCommand,
            place,
        })
    }
}

// A field that is malformed.
fn malformed(field: &Part, cause: Refusal) -> Flaw
    ensures { result ≡ record { cause = cause; place = field.now.place } }
{
    Flaw {
        cause,
        place: field.place,
    }
}

// A line that starts with no star: from, to, tape, compass and clino, checked from left to right.
fn leg(fields: &Fields, place: usize) -> Result<Option<Offer>, Flaw>
    ensures { line_told result ≡ leg_verdict (map span_of fields.now.first.items) fields.now.count place }
{
    let [from, to, tape, direction, clino] = fields.first.as_slice() else {
        return Err(Flaw {
            cause: Refusal::FieldCount(fields.count),
            place,
        });
    };
    let from_station = station(from.bytes).ok_or(malformed(from, Refusal::BadStation))?;
    let to_station = station(to.bytes).ok_or(malformed(to, Refusal::BadStation))?;
    if !reading(tape.bytes) {
        return Err(malformed(tape, Refusal::BadReading));
    }
    let bearing = compass(direction.bytes).ok_or(malformed(direction, Refusal::BadReading))?;
    if !reading(clino.bytes) {
        return Err(malformed(clino, Refusal::BadReading));
    }
    Ok(Some(Offer {
        place: from.place,
        leg: Leg::plain(from_station, to_station, bearing),
    }))
}

/// What a line of the text means: the leg it offers, if any, or what is wrong with it.
pub fn judge<'a>(line: Part<'a>) -> Result<Option<Offer>, Flaw>
    ensures { line_told result ≡ verdict (fields (span_of line.entry)) }
{
    let fields = Fields::new(line);
    match Lexer::new(line).next_token() {
        Token::Comment | Token::LineEnd => Ok(None),
        Token::Command(first) => command(&fields, first.place),
        Token::Field(first) => leg(&fields, first.place),
    }
}
