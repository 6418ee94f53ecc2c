// Drives each kind of object with no kernel, and says what it does with each event; and what each policy picks.
//
// Standard input has blocks, with empty lines between them. A block is a scenario file. A line that begins with `#` is a
// comment, wherever it stands, and belongs to no block. For each block this is printed:
//
//     block 3
//     start 0,0,0,0,0,0,0,0 1 2
//     3 7 H 4 | post 1 9 5, publish 8 0, recall
//
// The first line has the number of the block. The second has the state of each object before any event: the marks of the
// net's places, the flat object's state, and the chart's, which is 0 with no states. Then each `p` line of the script has
// a line, which says what the object that it names does with the event: the object, the signal, the verdict (H handled,
// D deferred, I ignored), the state afterwards and, behind a bar, the sends in order; there is no bar with no sends.
// Of the set-up only the pools matter, which say how many words an event may have; of the script, only the `p` lines. A faulty block has its `!` line in place of the start.
//
// Before the blocks it prints in which state the worked chart of five states starts, and what the two policies pick from
// a row of sets, one set after the other.
#![tactic(auto)]

mod text;
mod trio;

use objects::chart_object::ChartObject;
use objects::worked::five_states;
use policies::policy::Policy;
use policies::rotating::Rotating;
use policies::strict::Strict;
use scenario::listing::fault_line;
use scenario::reader::{ReadError, Scenario, read};
use scenario::script::Command;
use std::io::{BufRead, BufReader};
use terms::event::Event;
use terms::object_set::ObjectSet;
use text::Sent;
use trio::Trio;

// Gives an event to an object and prints what it does.
fn step(rt: &HostRuntime, trio: &mut Trio, object: u8, event: &Event) -> anyhow::Result<()> {
    let reaction = trio.handle(object, event);
    let signal = event.signal();
    let verdict = reaction.verdict;
    let state = trio.standing(object);
    let sends = Sent(reaction.sends.as_slice());
    println!(rt; "{object} {signal} {verdict} {state}{sends}")?;
    Ok(())
}

fn play(rt: &HostRuntime, scenario: &Scenario) -> anyhow::Result<()> {
    let mut trio = Trio::new(&scenario.tables);
    let net = trio.standing(1);
    let flat = trio.standing(2);
    let chart = trio.standing(3);
    println!(rt; "start {net} {flat} {chart}")?;
    for command in scenario.script.iter() {
        if let Command::Post { object, event } = command {
            step(rt, &mut trio, *object, event)?;
        }
    }
    Ok(())
}

// Plays a block, or prints its fault.
fn block(rt: &HostRuntime, number: u64, file: &str) -> anyhow::Result<()> {
    let heap = rt.alloc();
    println!(rt; "block {number}")?;
    match read(heap, file.as_bytes()) {
        Ok(scenario) => play(rt, &scenario),
        Err(ReadError::Faulty(fault)) => Ok(rt.print(fault_line(heap, fault)?)?),
        Err(error) => Err(error.into()),
    }
}

// Prints what a policy picks from several sets in turn.
fn pick_all<P: Policy>(rt: &HostRuntime, name: &str, policy: &mut P) -> anyhow::Result<()> {
    let sets = [
        set_of(&[1, 3]),
        set_of(&[1, 3]),
        set_of(&[1, 3]),
        set_of(&[]),
        set_of(&[1, 4, 6]),
        set_of(&[8]),
        set_of(&[1, 2, 3, 4, 5, 6, 7, 8]),
        set_of(&[1]),
    ];
    for set in sets {
        let bits = set.bits();
        let picked = policy.pick(set);
        println!(rt; "{name} {bits} {picked}")?;
    }
    Ok(())
}

fn set_of(members: &[u8]) -> ObjectSet {
    members
        .iter()
        .fold(ObjectSet::EMPTY, |set, member| set.with(*member))
}

fn run(rt: &HostRuntime) -> anyhow::Result<()> {
    let heap = rt.alloc();
    let worked = ChartObject::new(five_states().chart()).state();
    println!(rt; "five states {worked}")?;
    pick_all(rt, "strict", &mut Strict)?;
    pick_all(rt, "rotating", &mut Rotating::new())?;
    let mut number: u64 = 0;
    let mut file = String::new(heap);
    for line in BufReader::new(heap, rt.stdin())?.lines(heap) {
        let line = line?;
        if line.starts_with('#') {
            continue;
        }
        if !line.is_empty() {
            file.push_str(line.as_str())?;
            file.push('\n')?;
        } else if !file.is_empty() {
            number = number.wrapping_add(1);
            block(rt, number, file.as_str())?;
            file.clear();
        }
    }
    if !file.is_empty() {
        block(rt, number.wrapping_add(1), file.as_str())?;
    }
    Ok(())
}

fn main(rt: HostRuntime) -> anyhow::Result<()> {
    run(&rt)
}
