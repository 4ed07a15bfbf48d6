// Bytes and fields of a survey text.
#![tactic(auto)]

ghost use Rattle.std.specs.Prelude.{◌≡◌, ◌^◌, ◌<◌, ◌≤◌, true, length, position};
ghost use Rattle.svx_fields.specs.Bytes.{class_of};
ghost use Rattle.svx_fields.specs.Fields.{all_digits, number as number_of, station_field, point, whole_part, from_point, some_digits, fraction as fraction_of, amount as amount_of, tenths as tenths_of, compass_field, after_sign, reading_field};

pub mod bytes;

use bytes::ByteClass;

/// The class of a byte.
pub fn classify(b: u8) -> ByteClass
    ensures { result ≡ class_of b }
{
    match char::from(b) {
        ' ' | '\t' | '\r' => ByteClass::Blank,
        ';' => ByteClass::Semicolon,
        '*' => ByteClass::Star,
        '\n' => ByteClass::LineFeed,
        _ => ByteClass::Other,
    }
}

fn are_digits(s: &[u8]) -> bool
    ensures { result ≡ all_digits s.now }
{
    s.iter().all(|b| b.is_ascii_digit())
}

// One digit to `most`.
fn few_digits(s: &[u8], most: usize) -> bool
    ensures { result ≡ some_digits most s.now }
{
    (1..=most).contains(&s.len()) && are_digits(s)
}

// The number that at most four digits make.
fn number(s: &[u8]) -> u32
    requires few { length s.now ≤ 4 }
    requires digits { all_digits s.now ≡ true }
    ensures is { result ≡ number_of s.now }
    ensures small { result < 10 ^ length s.now }
{
    let mut n = 0;
    // A fold's closure would have to say at each digit that the number is small.
    for b in s {
        n = n * 10 + u32::from(b - b'0');
    }
    n
}

/// The station that a field names: one to four digits, the first not 0.
pub fn station(s: &[u8]) -> Option<u32>
    ensures { result ≡ station_field s.now }
{
    match s {
        [] => None,
        [first, rest @ ..] => {
            (*first != b'0' && are_digits(s) && rest.len() <= 3).then(|| number(s))
        }
    }
}

// The place of the first point, if there is one.
fn find_point(s: &[u8]) -> Option<usize>
    ensures { result ≡ position point s.now }
{
    s.iter().position(|b| *b == b'.')
}

// What stands before the point, and the rest from the point on.
#[tactic(auto, using(crate::proofs::Scans::place_or_length))]
fn split_at_point(s: &[u8]) -> (&[u8], &[u8])
    ensures whole { result.0.now ≡ whole_part s.now }
    ensures rest { result.1.now ≡ from_point s.now }
{
    s.split_at(find_point(s).unwrap_or(s.len()))
}

// Nothing, or a point and one digit to `most`.
fn fraction(s: &[u8], most: usize) -> bool
    ensures { result ≡ fraction_of most s.now }
{
    match s {
        [] => true,
        [_, rest @ ..] => few_digits(rest, most),
    }
}

// One digit to `most`, then optionally a point and one digit to `decimals`.
fn amount(s: &[u8], most: usize, decimals: usize) -> bool
    ensures { result ≡ amount_of most decimals s.now }
{
    let (whole, rest) = split_at_point(s);
    few_digits(whole, most) && fraction(rest, decimals)
}

// A well-formed compass reading in tenths of a degree.
fn tenths(s: &[u8]) -> u32
    requires { amount_of 3 1 s.now ≡ true }
    ensures { result ≡ tenths_of s.now }
{
    let (whole, rest) = split_at_point(s);
    match rest {
        [] => number(whole) * 10,
        [_, decimals @ ..] => number(whole) * 10 + number(decimals),
    }
}

/// The bearing that a compass field gives, in tenths of a degree, up to 3,599.
pub fn compass(s: &[u8]) -> Option<u32>
    ensures { result ≡ compass_field s.now }
{
    amount(s, 3, 1).then(|| tenths(s)).filter(|t| *t <= 3599)
}

// The bytes after an optional sign.
fn unsigned(s: &[u8]) -> &[u8]
    ensures { result.now ≡ after_sign s.now }
{
    match s {
        [b'+' | b'-', rest @ ..] => rest,
        _ => s,
    }
}

/// Whether a tape or clino field is well formed.
pub fn reading(s: &[u8]) -> bool
    ensures { result ≡ reading_field s.now }
{
    amount(unsigned(s), 4, 2)
}
