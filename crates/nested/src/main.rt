// Guards over nested messages: each case writes a sheet of terms, closes it, and asks a session over trees and switches which
// rules can hold together. The even numbers of the pair are terms, and the odd ones are switches.

#![tactic(auto)]

use logic::TellingLogic;
use pair::Pair;
use rules::Literal;
use session::Session;
use sheet::OpenSheet;
use std::io;
use switches::Switches;
use trees::Trees;

const BUDGET: u64 = 10;

// The symbols that stand in every sheet.
const BASE: u8 = 0;

const STEP: u8 = 1;

type Guards = Pair<Trees, Switches>;

// The equation of two terms is to be true, in the pair's numbers.
fn equal(left: u16, right: u16) -> Literal {
    Literal::equal(left.saturating_mul(2), right.saturating_mul(2))
}

// It is to be false.
fn denied(left: u16, right: u16) -> Literal {
    Literal::denied(left.saturating_mul(2), right.saturating_mul(2))
}

// The switch of that number is on, in the pair's numbers.
fn on(switch: u16) -> Literal {
    Literal::equal(switch.saturating_mul(2).saturating_add(1), 1)
}

// Closes the sheet: nothing more can be written into it.
fn begin(rt: &HostRuntime, sheet: OpenSheet) -> anyhow::Result<Session<Guards>> {
    let heap = rt.alloc();
    let logic = Pair::new(heap, Trees::new(heap, sheet)?, Switches::new(heap)?)?;
    Ok(Session::new(heap, logic)?)
}

fn post(rt: &HostRuntime, session: &mut Session<Guards>, rule: &[Literal]) -> io::Result<()> {
    match session.post(rule) {
        Ok(_) => Ok(()),
        Err(refusal) => println!(rt; "  {refusal}"),
    }
}

// Asks, and prints the answer with its choices.
fn ask(rt: &HostRuntime, session: &mut Session<Guards>) -> io::Result<()> {
    let (word, trials) = session.ask(BUDGET);
    println!(rt; "  {word} {trials}")?;
    for k in 0..2 {
        if let Ok((left, right)) = session.choice(k) {
            println!(rt; "  choice {k}: {left} = {right}")?;
        }
    }
    Ok(())
}

// What the shown example has for a number of the pair, under the name that the case gives it.
fn tell(rt: &HostRuntime, session: &Session<Guards>, name: &str, number: u16) -> io::Result<()> {
    match session.tell(number) {
        Ok((kind, told)) => println!(rt; "  {name} {kind} {told}"),
        Err(refusal) => println!(rt; "  {name}: {refusal}"),
    }
}

// A term inside itself.
fn inside_itself(rt: &HostRuntime) -> anyhow::Result<()> {
    println!(rt; "x = step x")?;
    let mut sheet = OpenSheet::new(rt.alloc())?;
    let x = sheet.name()?;
    let above = sheet.term(STEP, &[x])?;
    let mut session = begin(rt, sheet)?;
    post(rt, &mut session, &[equal(x, above)])?;
    ask(rt, &mut session)?;
    tell(rt, &session, "x", 0)?;
    Ok(())
}

// A denial alone: the tower of a free name is too high to be any term of the sheet.
fn two_steps_apart(rt: &HostRuntime) -> anyhow::Result<()> {
    println!(rt; "x != step step x")?;
    let mut sheet = OpenSheet::new(rt.alloc())?;
    let x = sheet.name()?;
    let above = sheet.term(STEP, &[x])?;
    let top = sheet.term(STEP, &[above])?;
    let mut session = begin(rt, sheet)?;
    post(rt, &mut session, &[denied(x, top)])?;
    ask(rt, &mut session)?;
    tell(rt, &session, "x", 0)?;
    Ok(())
}

// Terms are brought together argument by argument.
fn both_base(rt: &HostRuntime) -> anyhow::Result<()> {
    println!(rt; "cons x y = cons y base")?;
    let mut sheet = OpenSheet::new(rt.alloc())?;
    let cons = sheet.symbol(2)?;
    let x = sheet.name()?;
    let y = sheet.name()?;
    let first = sheet.term(cons, &[x, y])?;
    let base = sheet.term(BASE, &[])?;
    let second = sheet.term(cons, &[y, base])?;
    let mut session = begin(rt, sheet)?;
    post(rt, &mut session, &[equal(first, second)])?;
    ask(rt, &mut session)?;
    tell(rt, &session, "x", 0)?;
    tell(rt, &session, "y", 2)?;
    Ok(())
}

// Terms that no merge touches are equal where their arguments are.
fn congruent(rt: &HostRuntime) -> anyhow::Result<()> {
    println!(rt; "x = y ; cons x x != cons y y")?;
    let mut sheet = OpenSheet::new(rt.alloc())?;
    let cons = sheet.symbol(2)?;
    let x = sheet.name()?;
    let y = sheet.name()?;
    let first = sheet.term(cons, &[x, x])?;
    let second = sheet.term(cons, &[y, y])?;
    let mut session = begin(rt, sheet)?;
    post(rt, &mut session, &[equal(x, y)])?;
    post(rt, &mut session, &[denied(first, second)])?;
    ask(rt, &mut session)?;
    Ok(())
}

// The first equation clashes halfway, after x was brought to base: nothing of it stays.
fn no_half_stays(rt: &HostRuntime) -> anyhow::Result<()> {
    println!(rt; "cons x step y = cons base base | y = x")?;
    let mut sheet = OpenSheet::new(rt.alloc())?;
    let cons = sheet.symbol(2)?;
    let x = sheet.name()?;
    let y = sheet.name()?;
    let above = sheet.term(STEP, &[y])?;
    let first = sheet.term(cons, &[x, above])?;
    let base = sheet.term(BASE, &[])?;
    let second = sheet.term(cons, &[base, base])?;
    let mut session = begin(rt, sheet)?;
    post(rt, &mut session, &[equal(first, second), equal(y, x)])?;
    ask(rt, &mut session)?;
    tell(rt, &session, "x", 0)?;
    tell(rt, &session, "y", 2)?;
    Ok(())
}

// A rule over terms and a switch.
fn with_a_switch(rt: &HostRuntime) -> anyhow::Result<()> {
    println!(rt; "x = cons y nil | on p ; x != cons y nil")?;
    let mut sheet = OpenSheet::new(rt.alloc())?;
    let cons = sheet.symbol(2)?;
    let nil = sheet.symbol(0)?;
    let x = sheet.name()?;
    let y = sheet.name()?;
    let end = sheet.term(nil, &[])?;
    let list = sheet.term(cons, &[y, end])?;
    let mut session = begin(rt, sheet)?;
    post(rt, &mut session, &[equal(x, list), on(0)])?;
    post(rt, &mut session, &[denied(x, list)])?;
    ask(rt, &mut session)?;
    tell(rt, &session, "x", 0)?;
    tell(rt, &session, "y", 2)?;
    tell(rt, &session, "p", 1)?;
    tell(rt, &session, "cons y nil", 6)?;
    Ok(())
}

fn main(rt: HostRuntime) -> anyhow::Result<()> {
    inside_itself(&rt)?;
    two_steps_apart(&rt)?;
    both_base(&rt)?;
    congruent(&rt)?;
    no_half_stays(&rt)?;
    with_a_switch(&rt)?;
    Ok(())
}
