// Reads a survey text from standard input, draws the cave, and prints the summary of the drawing or a refusal.
#![tactic(auto)]

use diagram::run;
use draw::drawings::Drawing;
use plan::OuterSide;
use plan::plans::Plan;
use price::{Plain, PlainTariff};
use refusal::Refusal;
use report::{refusal_line, summary};
use search::Label;
use slice_vec::SliceVec;
use std::io;
use std::io::{Read, Write};
use std::process::ExitCode;
use svx::fault::Fault;
use svx::read;
use table::SurveyTable;
use transcript::step::{Call, Step};

// The whole of standard input.
fn read_input(rt: &HostRuntime) -> io::Result<Vec<u8>> {
    let mut bytes = Vec::new(rt.alloc());
    rt.stdin().read_to_end(&mut bytes)?;
    Ok(bytes)
}

// What ends the program where an account does not fit its buffer, which cannot be.
fn failure() -> io::Error {
    io::Error::from(io::ErrorKind::InvalidData)
}

// Prints what an account writes into a buffer.
fn print<F: FnOnce(&mut [u8]) -> Result<usize, Refusal>>(
    rt: &HostRuntime,
    account: F,
) -> io::Result<()>
    requires { F.IsAlwaysCallable account }
{
    let mut out = [0u8; 128];
    let written = account(&mut out);
    match written.ok().and_then(|n| out.get(..n)) {
        Some(bytes) => rt.stdout().write_all(bytes),
        None => Err(failure()),
    }
}

// Prints the refusal line.
fn print_refusal(rt: &HostRuntime, cause: &Refusal, line: usize) -> io::Result<()> {
    let number = cause.number() as usize;
    print(rt, |out| refusal_line(number, line, out))
}

// A fault in the text: the refusal, and where it is.
fn refuse_text(rt: &HostRuntime, fault: &Fault) -> io::Result<ExitCode> {
    print_refusal(rt, &fault.cause, fault.line)?;
    eprintln!(rt;
        "line {}, byte {}: {}",
        fault.line, fault.place, fault.cause
    )?;
    Ok(ExitCode::FAILURE)
}

// A cave that cannot be planned or drawn.
fn refuse_cave(rt: &HostRuntime, cause: &Refusal) -> io::Result<ExitCode> {
    print_refusal(rt, cause, 0)?;
    eprintln!(rt; "{cause}")?;
    Ok(ExitCode::FAILURE)
}

// Plans left of leg 0, and draws with plain prices: the refusal of either, if any.
fn draw_cave(table: &mut SurveyTable, drawing: &mut Drawing) -> Result<(), Refusal> {
    let outer = OuterSide { leg: 0, side: 0 };
    let mut steps = [Step::new(Call::Plan(outer))];
    let mut places: [Label<Plain>; 260] = [Label::none(); 260];
    let mut labels = SliceVec::new(&mut places);
    let drawn = run(
        table,
        &mut steps,
        Plan::new(),
        &PlainTariff,
        &mut labels,
        drawing,
    );
    match (steps[0].answer, drawn) {
        (Some(Err(cause)), _) | (_, Err(cause)) => Err(cause),
        _ => Ok(()),
    }
}

fn main(rt: HostRuntime) -> io::Result<ExitCode> {
    let text = read_input(&rt)?;
    let mut table = SurveyTable::new();
    let mut drawing = Drawing::new();
    match read(text.as_slice(), &mut table) {
        Err(fault) => refuse_text(&rt, &fault),
        Ok(()) => match draw_cave(&mut table, &mut drawing) {
            Err(cause) => refuse_cave(&rt, &cause),
            Ok(()) => {
                print(&rt, |out| summary(&drawing, out))?;
                Ok(ExitCode::SUCCESS)
            }
        },
    }
}
