// Plans the caves of standard input and compares each answer with the one that stands after it.
#![tactic(auto)]

mod numbers;

use numbers::Numbers;
use plan::OuterSide;
use plan::planning::plan;
use plan::plans::Plan;
use plan::turning::turn;
use std::io;
use std::io::Read;
use survey::Survey;
use survey::leg::Leg;
use table::SurveyTable;

// How many caves standard input tells.
const CAVES: u32 = 100;

// Enters so many legs of three numbers each; false where one is refused.
fn enter_legs(numbers: &mut Numbers, count: usize, table: &mut SurveyTable) -> bool {
    let mut entered = true;
    for _ in 0..count {
        let leg = Leg::plain(
            numbers.next_small(),
            numbers.next_small(),
            numbers.next_small(),
        );
        entered &= table.enter(leg).is_ok();
    }
    entered
}

// The stations, the faces and the demand of each face are as told.
fn agrees_embedding(numbers: &mut Numbers, plan: &Plan) -> bool {
    let stations = numbers.next();
    let faces = numbers.next();
    let mut agrees = stations == plan.stations() && faces == plan.faces();
    for _ in 0..faces.min(512) {
        let name = numbers.next();
        let demand = i64::from(numbers.next_small()) - 1;
        agrees &= plan.face(name) == Some(name) && plan.demand(name) == Some(demand);
    }
    agrees
}

// Turned to the other side of its outer leg, a plan has as many faces as before.
fn turns(held: Plan, outer: OuterSide) -> bool {
    let faces = held.faces();
    let other = OuterSide {
        leg: outer.leg,
        side: 1 - outer.side.min(1),
    };
    match turn(held, other) {
        Ok(turned) => turned.faces() == faces && turned.outer_side() != outer.side,
        Err(_) => false,
    }
}

// One cave is planned as told.
fn agrees_cave(numbers: &mut Numbers) -> bool {
    let count = numbers.next();
    let outer = OuterSide {
        leg: numbers.next(),
        side: numbers.next_small(),
    };
    let mut table = SurveyTable::new();
    let mut held = Plan::new();
    let entered = enter_legs(numbers, count, &mut table);
    let number = numbers.next_small();
    let value = numbers.next();
    match plan(&table, &mut held, outer) {
        Ok(()) => agrees_embedding(numbers, &held) && turns(held, outer) && entered && number == 0,
        Err(refusal) => refusal.number() == number && refusal.value() == value && entered,
    }
}

fn main(rt: HostRuntime) -> io::Result<()> {
    let mut text = Vec::new(rt.alloc());
    rt.stdin().read_to_end(&mut text)?;
    let mut numbers = Numbers::new(&text);
    let mut agree = 0u32;
    for cave in 0..CAVES {
        if agrees_cave(&mut numbers) {
            agree = agree.saturating_add(1);
        } else {
            println!(rt; "cave {cave} disagrees")?;
        }
    }
    println!(rt; "caves {CAVES}")?;
    println!(rt; "agree {agree}")
}
