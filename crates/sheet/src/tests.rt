// Both sides of each limit, run.

use super::*;
use std::test::Fail;

#[test]
fn symbols_end_at_16(rt: HostRuntime) -> Result<(), Fail> {
    let mut sheet = OpenSheet::new(rt.alloc())?;
    assert_eq!(rt; sheet.symbol(9), Err(Refusal::BigArity));
    for number in 2..16 {
        assert_eq!(rt; sheet.symbol(8), Ok(number));
    }
    assert_eq!(rt; sheet.symbol(9), Err(Refusal::BigArity));
    assert_eq!(rt; sheet.symbol(0), Err(Refusal::ManySymbols));
    assert_eq!(rt; sheet.arities().len(), 16);
    Ok(())
}

#[test]
fn terms_end_at_1024(rt: HostRuntime) -> Result<(), Fail> {
    let mut sheet = OpenSheet::new(rt.alloc())?;
    assert_eq!(rt; sheet.term(0, &[]), Ok(0));
    for number in 1..1023 {
        assert_eq!(rt; sheet.term(1, &[number - 1]), Ok(number));
    }
    assert_eq!(rt; sheet.name(), Ok(1023));
    assert_eq!(rt; sheet.name(), Err(Refusal::ManyTerms));
    assert_eq!(rt; sheet.term(1, &[1022]), Err(Refusal::ManyTerms));
    assert_eq!(rt; sheet.term(1, &[1021]), Ok(1022));
    assert_eq!(rt; sheet.term(0, &[]), Ok(0));
    assert_eq!(rt; sheet.terms().len(), 1024);
    Ok(())
}

#[test]
fn refusals_come_in_order(rt: HostRuntime) -> Result<(), Fail> {
    let mut sheet = OpenSheet::new(rt.alloc())?;
    assert_eq!(rt; sheet.term(2, &[7, 7]), Err(Refusal::UnknownSymbol));
    assert_eq!(rt; sheet.symbol(2), Ok(2));
    assert_eq!(rt; sheet.term(2, &[7]), Err(Refusal::WrongCount));
    assert_eq!(rt; sheet.name(), Ok(0));
    assert_eq!(rt; sheet.term(2, &[0, 1]), Err(Refusal::NoTerm));
    assert_eq!(rt; sheet.term(2, &[0, 0]), Ok(1));
    assert_eq!(rt; sheet.term(2, &[0, 1]), Ok(2));
    assert_eq!(rt; sheet.term(2, &[0, 0]), Ok(1));
    Ok(())
}

#[test]
fn refusals_print_their_numbers(rt: HostRuntime) -> Result<(), Fail> {
    let text = format!(in rt.alloc(); "{}", Refusal::NoTerm)?;
    assert_eq!(rt; text.as_str(), "refused 16");
    Ok(())
}
