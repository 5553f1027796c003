// Reads a bench log from standard input and says what it forces. A line `same A B` says that the tags A and B were seen
// equal, a line `on S` that the switch S was seen on. After the log come the pairs of seen tags that are forced equal, and
// an example: a value for each seen tag and switch that fits all that was seen and makes nothing else true.

#![tactic(auto)]

use logic::{Assumed, Equation, Logic, Refusal, TellingLogic};
use std::collections::BTreeSet;
use std::io;
use std::ops::Bound;
use switches::Switches;
use tags::Tags;

// What a line of the log says.
#[derive(Clone, Copy)]
enum Sighting {
    Same(u16, u16),
    On(u16),
}

// The bench: its two logics, and the tags and switches that the log speaks of.
#[derive(Drop)]
struct Bench {
    tags: Tags,
    switches: Switches,
    seen_tags: BTreeSet<u16>,
    seen_switches: BTreeSet<u16>,
}

// The sighting of a line, if it has the form of one.
fn read_sighting(line: &str) -> Option<Sighting> {
    let mut words = line.split_whitespace();
    let what = words.next()?;
    let first = words.next()?.parse::<u16>().ok()?;
    let second = words.next();
    if words.next().is_some() {
        return None;
    }
    match (what, second) {
        ("on", None) => Some(Sighting::On(first)),
        ("same", Some(second)) => Some(Sighting::Same(first, second.parse::<u16>().ok()?)),
        _ => None,
    }
}

// Takes a sighting into its logic, and notes what it speaks of where it is not refused.
fn take(bench: &mut Bench, seen: Sighting) -> anyhow::Result<Result<Assumed, Refusal>> {
    match seen {
        Sighting::Same(left, right) => {
            let answer = bench.tags.assume(Equation::new(left, right));
            if answer.is_ok() {
                bench.seen_tags.insert(left)?;
                bench.seen_tags.insert(right)?;
            }
            Ok(answer)
        }
        Sighting::On(left) => {
            let answer = bench.switches.assume(Equation::new(left, 0));
            if answer.is_ok() {
                bench.seen_switches.insert(left)?;
            }
            Ok(answer)
        }
    }
}

// Reads the log; a line that is no sighting, or that is refused, is named and passed over.
fn read_log(rt: &HostRuntime, bench: &mut Bench) -> anyhow::Result<()> {
    for (before, line) in rt.lines(rt.alloc()).enumerate() {
        let line = line?;
        let number = before.saturating_add(1);
        match read_sighting(line.as_str()) {
            None => println!(rt; "line {number}: no sighting")?,
            Some(seen) => {
                if let Err(refusal) = take(bench, seen)? {
                    println!(rt; "line {number}: {refusal}")?;
                }
            }
        }
    }
    Ok(())
}

// Each pair of the numbers that is forced equal.
fn print_forced<L: Logic>(rt: &HostRuntime, logic: &L, numbers: &BTreeSet<u16>) -> io::Result<()> {
    for left in numbers.iter() {
        for right in numbers.range((Bound::Excluded(*left), Bound::Unbounded)) {
            if logic.forced(Equation::new(*left, *right)) {
                println!(rt; "forced {left} = {right}")?;
            }
        }
    }
    Ok(())
}

// What the example has for each of the numbers.
fn print_example<L: TellingLogic>(
    rt: &HostRuntime,
    logic: &L,
    what: &str,
    numbers: &BTreeSet<u16>,
) -> io::Result<()> {
    for number in numbers.iter() {
        match logic.tell(*number) {
            Ok((kind, told)) => println!(rt; "{what} {number} {kind} {told}")?,
            Err(refusal) => println!(rt; "{what} {number} {refusal}")?,
        }
    }
    Ok(())
}

fn main(rt: HostRuntime) -> anyhow::Result<()> {
    let heap = rt.alloc();
    let mut bench = Bench {
        tags: Tags::new(heap)?,
        switches: Switches::new(heap)?,
        seen_tags: BTreeSet::new(heap),
        seen_switches: BTreeSet::new(heap),
    };
    read_log(&rt, &mut bench)?;
    print_forced(&rt, &bench.tags, &bench.seen_tags)?;
    print_example(&rt, &bench.tags, "tag", &bench.seen_tags)?;
    print_example(&rt, &bench.switches, "switch", &bench.seen_switches)?;
    Ok(())
}
