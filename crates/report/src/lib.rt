// The summary of a drawing and the refusal line, written into a supplied buffer.
#![tactic(auto)]

ghost use Rattle.std.specs.Prelude.{◌≡◌, ◌+◌, ◌≤◌, ◌++◌, length, decimal};
ghost use Rattle.arrayvec.specs.ArrayString.{array_string_len};
ghost use Rattle.report.specs.Output.{line as text_line, summary_text, refusal_text, write_answer, written, told_bytes};
ghost use Rattle.report.specs.Summaries.{drawing_text};

use arrayvec::ArrayString;
use draw::drawings::Drawing;
use itoa::Buffer;
use refusal::Refusal;

/// The longest text that is written, in bytes.
const MOST_BYTES: usize = 128;

// Appends a number in base ten, which has at most 20 digits.
fn push_number(text: &mut ArrayString<MOST_BYTES>, number: usize)
    requires { array_string_len text.old + 20 ≤ MOST_BYTES }
    ensures bytes { text.new.bytes ≡ text.old.bytes ++ decimal number }
    ensures room { array_string_len text.new ≤ array_string_len text.old + 20 }
{
    text.push_str(Buffer::new().format(number));
}

// Appends a line: words, a number and a line feed.
fn push_line(text: &mut ArrayString<MOST_BYTES>, words: &str, number: usize)
    requires { array_string_len text.old + length words.now + 21 ≤ MOST_BYTES }
    ensures bytes { text.new.bytes ≡ text.old.bytes ++ text_line words.now number }
    ensures room { array_string_len text.new ≤ array_string_len text.old + length words.now + 21 }
{
    text.push_str(words);
    push_number(text, number);
    text.push('\n');
}

// The summary's four lines.
fn summary_lines(
    stations: usize,
    legs: usize,
    faces: usize,
    bends: usize,
) -> ArrayString<MOST_BYTES>
    ensures { result.bytes ≡ summary_text stations legs faces bends }
{
    let mut text = ArrayString::new();
    push_line(&mut text, "stations ", stations);
    push_line(&mut text, "legs ", legs);
    push_line(&mut text, "faces ", faces);
    push_line(&mut text, "bends ", bends);
    text
}

// Copies a text to the buffer's start, and leaves the rest of it.
fn copy_text(text: &[u8], out: &mut [u8]) -> Result<usize, Refusal>
    ensures answer { told_bytes result ≡ write_answer (length out.old) text.now }
    ensures out { out.new ≡ written out.old text.now }
{
    let need = text.len();
    if out.len() < need {
        return Err(Refusal::ShortBuffer(need));
    }
    out[..need].copy_from_slice(text);
    Ok(need)
}

/// Writes the summary of a drawing at the buffer's start, and leaves the rest of it. Returns the bytes written.
pub fn summary(drawing: &Drawing, out: &mut [u8]) -> Result<usize, Refusal>
    ensures answer { told_bytes result ≡ write_answer (length out.old) (drawing_text drawing.now) }
    ensures out { out.new ≡ written out.old (drawing_text drawing.now) }
{
    let plan = drawing.plan();
    let stations = plan.stations();
    let faces = plan.faces();
    let text = summary_lines(stations, plan.count(), faces, drawing.bends());
    copy_text(text.as_str().as_bytes(), out)
}

/// Writes a refusal's number and line at the buffer's start, and leaves the rest of it. Returns the bytes written.
pub fn refusal_line(number: usize, line: usize, out: &mut [u8]) -> Result<usize, Refusal>
    ensures answer { told_bytes result ≡ write_answer (length out.old) (refusal_text number line) }
    ensures out { out.new ≡ written out.old (refusal_text number line) }
{
    let mut text = ArrayString::new();
    text.push_str("refused ");
    push_number(&mut text, number);
    push_line(&mut text, " line ", line);
    copy_text(text.as_str().as_bytes(), out)
}
