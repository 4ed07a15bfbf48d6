// Sends calls from standard input through a stack of views to a journal and to a table, and compares the answers,
// and the legs that are left below the views, with those expected. The input is made by scripts/make_run_vectors.py,
// which says what its numbers mean.
#![tactic(auto)]

ghost use Rattle.std.specs.Prelude.{◌≡◌, min};
ghost use Rattle.survey.specs.Model.{leg_told};
ghost use Rattle.transcript.specs.Steps.{answer_told};

mod numbers;

use numbers::Numbers;
use refusal::Refusal;
use std::alloc::{AllocError, Global};
use std::io;
use std::io::Read;
use survey::Survey;
use survey::leg::{Attributes, Change, Leg};
use survey_runs;
use transcript::step::{Call, Reply, Step};

/// The most bytes of input that are read.
const MOST_BYTES: u64 = 1_000_000;

/// What the supplied entries hold before the journal writes them.
const UNUSED: Change = Change::Strike { start: 7, end: 3 };

fn next_six(numbers: &mut Numbers) -> [u32; 6] {
    let mut six = [0; 6];
    for n in six.iter_mut() {
        *n = numbers.next();
    }
    six
}

fn next_leg(numbers: &mut Numbers) -> Leg {
    let [from, to, bearing, weight, wet, limit] = next_six(numbers);
    Leg {
        from,
        to,
        bearing,
        weight,
        wet,
        limit,
    }
}

fn next_call(numbers: &mut Numbers) -> Call {
    let kind = numbers.next();
    if kind == 0 {
        return Call::Change(Change::Enter(next_leg(numbers)));
    }
    let [a, b, weight, wet, limit, _] = next_six(numbers);
    let start = a as usize;
    let end = b as usize;
    match kind {
        1 => Call::Change(Change::Strike { start, end }),
        2 => {
            let attributes = Attributes { weight, wet, limit };
            Call::Change(Change::Amend {
                start,
                end,
                attributes,
            })
        }
        3 => Call::Count,
        4 => Call::LegAt(start),
        5 => Call::MayEnter,
        _ => Call::MayAmend,
    }
}

fn next_expected(numbers: &mut Numbers) -> Told {
    Told {
        number: numbers.next(),
        values: next_six(numbers),
    }
}

/// An answer by its number and six values, those not told 0.
#[derive(Clone, Copy, PartialEq)]
struct Told {
    number: u32,
    values: [u32; 6],
}

// A number of the library as the input has it.
fn small(n: usize) -> u32
    ensures { result ≡ min n 4294967295 }
{
    u32::try_from(n).unwrap_or(u32::MAX)
}

fn numbers_of(l: Leg) -> [u32; 6]
    ensures { result ≡ (leg_told l).values }
{
    [l.from, l.to, l.bearing, l.weight, l.wet, l.limit]
}

// An answer in the form of the input; what was not sent tells what no answer tells.
fn tell(answer: Option<Result<Reply, Refusal>>) -> Told
    ensures { result.number ≡ (answer_told answer).number }
{
    let (number, values) = match answer {
        None => (0, [u32::MAX; 6]),
        Some(Ok(Reply::Changed | Reply::Planned)) => (0, [0; 6]),
        Some(Ok(Reply::Counted(n))) => (0, [small(n), 0, 0, 0, 0, 0]),
        Some(Ok(Reply::Found(leg))) => (0, numbers_of(leg)),
        Some(Ok(Reply::Allowed(may))) => (0, [u32::from(may), 0, 0, 0, 0, 0]),
        Some(Err(e)) => (e.number(), [small(e.value()), 0, 0, 0, 0, 0]),
    };
    Told { number, values }
}

// Prints how many answers are as expected, and which are not.
fn compare_answers(
    rt: &HostRuntime,
    name: &str,
    steps: &[Step],
    expected: &[Told],
) -> io::Result<()> {
    let mut agree = 0usize;
    for (i, (step, expected_there)) in steps.iter().zip(expected.iter()).enumerate() {
        if tell(step.answer) == *expected_there {
            agree = agree.saturating_add(1);
        } else {
            println!(rt; "{name}: call {i} disagrees")?;
        }
    }
    println!(rt; "{name}: {agree} answers agree")
}

// Prints how many legs below the views are as expected, and which are not.
fn compare_legs<S: Survey>(
    rt: &HostRuntime,
    name: &str,
    below: &S,
    expected: &[Leg],
) -> io::Result<()> {
    let mut agree = 0usize;
    for (i, leg) in expected.iter().enumerate() {
        match below.leg(i) {
            Ok(there) if numbers_of(there) == numbers_of(*leg) => agree = agree.saturating_add(1),
            _ => println!(rt; "{name}: leg {i} disagrees")?,
        }
    }
    let count = below.count();
    println!(rt; "{name}: {agree} of {count} legs below agree")
}

fn read_legs(heap: Global, numbers: &mut Numbers, count: u32) -> Result<Vec<Leg>, AllocError> {
    let mut legs = Vec::new(heap);
    for _ in 0..count {
        legs.push(next_leg(numbers))?;
    }
    Ok(legs)
}

fn main(rt: HostRuntime) -> anyhow::Result<()> {
    let heap = rt.alloc();
    let mut text = Vec::new(heap);
    rt.stdin().take(MOST_BYTES).read_to_end(&mut text)?;
    let mut numbers = Numbers::new(&text);
    let turn = numbers.next();
    let supplied = numbers.next() as usize;
    let calls = numbers.next();
    let journal_count = numbers.next();
    let table_count = numbers.next();
    let mut steps = Vec::new(heap);
    let mut over_journal = Vec::new(heap);
    let mut over_table = Vec::new(heap);
    for _ in 0..calls {
        steps.push(Step::new(next_call(&mut numbers)))?;
        over_journal.push(next_expected(&mut numbers))?;
        over_table.push(next_expected(&mut numbers))?;
    }
    let journal_legs = read_legs(heap, &mut numbers, journal_count)?;
    let table_legs = read_legs(heap, &mut numbers, table_count)?;
    println!(rt; "{calls} calls")?;
    let mut entries = vec![in heap; UNUSED; supplied]?;
    let journal = survey_runs::run_journal(entries.as_mut_slice(), turn, steps.as_mut_slice());
    compare_answers(&rt, "journal", steps.as_slice(), over_journal.as_slice())?;
    compare_legs(&rt, "journal", &journal, journal_legs.as_slice())?;
    let table = survey_runs::run_table(turn, steps.as_mut_slice());
    compare_answers(&rt, "table", steps.as_slice(), over_table.as_slice())?;
    compare_legs(&rt, "table", &table, table_legs.as_slice())?;
    Ok(())
}
