// Both sides of each limit of sheets, trees and pairs, run and printed.

#![tactic(auto)]

use beacon::Beacon;
use logic::{Assumed, Equation, Logic, TellingLogic};
use pair::Pair;
use sheet::{OpenSheet, Refusal};
use std::fmt::Display;
use std::io;
use switches::Switches;
use trees::Trees;

mod beacon;

const BASE: u8 = 0;

const STEP: u8 = 1;

// Prints the number of a symbol or a term that a sheet has given, or its refusal.
fn print_given<N: Display + Drop>(
    rt: &HostRuntime,
    what: &str,
    kind: &str,
    answer: Result<N, Refusal>,
) -> io::Result<()> {
    match answer {
        Ok(number) => println!(rt; "{what}: {kind} {number}"),
        Err(refusal) => println!(rt; "{what}: {refusal}"),
    }
}

fn print_assumed<L: Logic>(
    rt: &HostRuntime,
    what: &str,
    logic: &mut L,
    e: Equation,
) -> io::Result<()> {
    match logic.assume(e) {
        Ok(Assumed::Taken) => println!(rt; "{what}: taken"),
        Ok(Assumed::Clash) => println!(rt; "{what}: clash"),
        Err(refusal) => println!(rt; "{what}: {refusal}"),
    }
}

fn print_told<L: TellingLogic>(
    rt: &HostRuntime,
    what: &str,
    logic: &L,
    number: u16,
) -> io::Result<()> {
    match logic.tell(number) {
        Ok((kind, told)) => println!(rt; "{what}: {kind} {told}"),
        Err(refusal) => println!(rt; "{what}: {refusal}"),
    }
}

// Symbols of arity 8 and 9, and the 16th and the 17th symbol.
fn symbols(rt: &HostRuntime) -> anyhow::Result<()> {
    let mut sheet = OpenSheet::new(rt.alloc())?;
    print_given(rt, "arity 8", "symbol", sheet.symbol(8))?;
    print_given(rt, "arity 9", "symbol", sheet.symbol(9))?;
    for _ in 0..12 {
        sheet.symbol(2)?;
    }
    print_given(rt, "16th symbol", "symbol", sheet.symbol(0))?;
    print_given(rt, "17th symbol", "symbol", sheet.symbol(0))?;
    print_given(rt, "17th symbol, of arity 9", "symbol", sheet.symbol(9))?;
    print_given(rt, "symbol 16", "term", sheet.term(16, &[]))?;
    print_given(rt, "base of an argument", "term", sheet.term(BASE, &[0]))?;
    print_given(rt, "step of no term", "term", sheet.term(STEP, &[0]))?;
    Ok(())
}

// A sheet of 1,024 terms, a tower over base, and one term more, new and old; then the logic on it.
fn terms(rt: &HostRuntime) -> anyhow::Result<()> {
    let mut sheet = OpenSheet::new(rt.alloc())?;
    let mut top = sheet.term(BASE, &[])?;
    for _ in 0..1022 {
        top = sheet.term(STEP, &[top])?;
    }
    print_given(rt, "1,024th term", "term", sheet.name())?;
    print_given(rt, "1,025th term, a name", "term", sheet.name())?;
    print_given(
        rt,
        "1,025th term, compound",
        "term",
        sheet.term(STEP, &[top]),
    )?;
    print_given(
        rt,
        "an old term in a full sheet",
        "term",
        sheet.term(STEP, &[0]),
    )?;
    bound(rt, Trees::new(rt.alloc(), sheet)?)?;
    Ok(())
}

// The name and the top of the tower, apart and brought together.
fn bound(rt: &HostRuntime, mut trees: Trees) -> io::Result<()> {
    print_told(rt, "the free name", &trees, 1023)?;
    print_assumed(
        rt,
        "terms 1023 and 1024",
        &mut trees,
        Equation::new(1023, 1024),
    )?;
    print_assumed(
        rt,
        "the name and the top",
        &mut trees,
        Equation::new(1023, 1022),
    )?;
    print_told(rt, "the bound name", &trees, 1023)?;
    print_told(rt, "no name", &trees, 1022)?;
    print_assumed(
        rt,
        "the top and the term below it",
        &mut trees,
        Equation::new(1022, 1021),
    )
}

// 256 and 257 standing equations, in trees and in a pair, which counts both sides together.
fn standing(rt: &HostRuntime) -> anyhow::Result<()> {
    let heap = rt.alloc();
    let mut sheet = OpenSheet::new(heap)?;
    sheet.name()?;
    let mut trees = Trees::new(heap, sheet)?;
    for _ in 0..255 {
        trees.assume(Equation::new(0, 0))?;
    }
    print_assumed(rt, "256th equation", &mut trees, Equation::new(0, 0))?;
    print_assumed(rt, "257th equation", &mut trees, Equation::new(0, 0))?;
    print_assumed(
        rt,
        "257th equation, of no term",
        &mut trees,
        Equation::new(0, 1),
    )?;
    let mut both = Pair::new(heap, trees, Switches::new(heap)?)?;
    println!(rt; "standing in a new pair: {}", both.standing())?;
    for switch in 0..128u16 {
        both.assume(Equation::new(0, 0))?;
        both.assume(Equation::new(switch * 2 + 1, 1))?;
    }
    println!(rt; "standing in the pair: {}", both.standing())?;
    print_assumed(
        rt,
        "257th equation of the pair",
        &mut both,
        Equation::new(0, 0),
    )?;
    print_assumed(
        rt,
        "257th equation, of mixed numbers",
        &mut both,
        Equation::new(0, 1),
    )?;
    both.back(1);
    println!(rt; "standing after back: {}", both.standing())?;
    Ok(())
}

// Two towers of 30 pairs over two names, t = cons t t: 31 terms stand for a billion leaves on each side.
fn shared(rt: &HostRuntime) -> anyhow::Result<()> {
    let mut sheet = OpenSheet::new(rt.alloc())?;
    let cons = sheet.symbol(2)?;
    let mut left = sheet.name()?;
    let mut right = sheet.name()?;
    for _ in 0..30 {
        left = sheet.term(cons, &[left, left])?;
        right = sheet.term(cons, &[right, right])?;
    }
    let mut trees = Trees::new(rt.alloc(), sheet)?;
    println!(rt;
        "forced before: {}",
        trees.forced(Equation::new(left, right))
    )?;
    print_assumed(rt, "the leaves", &mut trees, Equation::new(0, 1))?;
    println!(rt;
        "forced after: {}",
        trees.forced(Equation::new(left, right))
    )?;
    trees.back(0);
    print_assumed(rt, "the tops", &mut trees, Equation::new(left, right))?;
    println!(rt; "leaves forced: {}", trees.forced(Equation::new(0, 1)))?;
    print_assumed(
        rt,
        "a leaf and the top",
        &mut trees,
        Equation::new(0, right),
    )?;
    Ok(())
}

// A told term's number is doubled by each pair, up to 65,535.
fn far_terms(rt: &HostRuntime) -> anyhow::Result<()> {
    let heap = rt.alloc();
    for term in [16383, 16384] {
        let inner = Pair::new(heap, Beacon::new(term), Switches::new(heap)?)?;
        print_told(rt, "a term in a pair", &inner, 0)?;
        let outer = Pair::new(heap, Switches::new(heap)?, inner)?;
        print_told(rt, "a term in a pair of pairs", &outer, 1)?;
    }
    Ok(())
}

fn main(rt: HostRuntime) -> anyhow::Result<()> {
    symbols(&rt)?;
    terms(&rt)?;
    standing(&rt)?;
    shared(&rt)?;
    far_terms(&rt)?;
    Ok(())
}
