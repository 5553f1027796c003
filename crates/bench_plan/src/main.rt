// Which transitions of a ticket gate can be taken together? The guards are rules over tags. The program plays the calls of
// a session, pair by pair in scopes, and prints each call with its reply; then it tells the example of the last answer.
//
// The tags: 0 the zone on the ticket, 1 the zone of the gate, 2 the zone of the depot, 3 the class on the ticket, 4 the
// class of staff.

#![tactic(auto)]

use logic::TellingLogic;
use rules::Literal;
use session::{Call, Refusal, Reply, Session, play};
use std::alloc::AllocError;
use std::io;
use tags::Tags;

const BUDGET: u64 = 10;

// Prints a call with its reply.
fn print_reply(rt: &HostRuntime, call: &Call, reply: &Result<Reply, Refusal>) -> io::Result<()> {
    match reply {
        Ok(reply) => println!(rt; "{call}: {reply}"),
        Err(refusal) => println!(rt; "{call}: {refusal}"),
    }
}

fn print_told<L: TellingLogic + Drop>(
    rt: &HostRuntime,
    session: &Session<L>,
    number: u16,
) -> io::Result<()> {
    match session.tell(number) {
        Ok((kind, told)) => println!(rt; "tell {number}: {kind} {told}"),
        Err(refusal) => println!(rt; "tell {number}: {refusal}"),
    }
}

// The calls that ask, in a scope of its own, whether two guards can hold together.
fn add_pair<'a>(
    calls: &mut Vec<Call<'a>>,
    first: &'a [Literal],
    second: &'a [Literal],
) -> Result<(), AllocError> {
    calls.push(Call::Open)?;
    calls.push(Call::Post(first))?;
    calls.push(Call::Post(second))?;
    calls.push(Call::Ask(BUDGET))?;
    calls.push(Call::Choice(0))?;
    calls.push(Call::Choice(1))?;
    calls.push(Call::Close)?;
    Ok(())
}

// Plays the calls, prints each with its reply, and tells the example that is shown at the end.
fn show(rt: &HostRuntime, calls: &[Call]) -> anyhow::Result<()> {
    let heap = rt.alloc();
    let (session, replies) = play(heap, Tags::new(heap)?, calls)?;
    for (call, reply) in calls.iter().zip(replies.iter()) {
        print_reply(rt, call, reply)?;
    }
    for tag in 0..5 {
        print_told(rt, &session, tag)?;
    }
    print_told(rt, &session, 1024)?;
    Ok(())
}

fn main(rt: HostRuntime) -> anyhow::Result<()> {
    // The gate is not in the depot.
    let always = [Literal::denied(1, 2)];
    // Enter: the ticket is for this zone.
    let enter = [Literal::equal(0, 1)];
    // Staff: the class is staff, or the ticket is for the depot.
    let staff = [Literal::equal(3, 4), Literal::equal(0, 2)];
    // Reject: the ticket is for another zone.
    let reject = [Literal::denied(0, 1)];
    let mut calls = Vec::new(rt.alloc());
    calls.push(Call::Choice(0))?;
    calls.push(Call::Post(&always))?;
    add_pair(&mut calls, &enter, &staff)?;
    add_pair(&mut calls, &enter, &reject)?;
    add_pair(&mut calls, &staff, &reject)?;
    calls.push(Call::Close)?;
    calls.push(Call::Post(&staff))?;
    calls.push(Call::Ask(0))?;
    calls.push(Call::Ask(1))?;
    show(&rt, &calls)
}
