//! Outside vectors: codes and figures whose answers are known from elsewhere, and which no case of the program has.
use desk_codes::*;
use std::test::Fail;

/// Texts that are no ISINs, and why.
const ISINS: [(&[u8], CodeFault); 5] = [
    (b"US037833100X", CodeFault::Check(5)),
    (b"U50378331005", CodeFault::Prefix),
    (b"US03783310a5", CodeFault::Body),
    (b"US037833100", CodeFault::Length),
    (b"US03783310055", CodeFault::Length),
];

#[test]
fn isins(rt: HostRuntime) {
    for (text, fault) in &ISINS {
        assert!(rt; Isin::parse(text).err() == Some(*fault));
    }
    assert!(rt; check_digit(*b"AU0000XVGZA") == Some(3));
    assert!(rt; check_digit(*b"US03783310-").is_none());
}

/// Texts, and the BIC that each spells, or why it spells none.
const BICS: [(&[u8], Result<&str, CodeFault>); 7] = [
    (b"DESKDEFFXXX", Ok("DESKDEFF")),
    (b"DESKDEFF001", Ok("DESKDEFF001")),
    (b"D3SKDE2F", Ok("D3SKDE2F")),
    (b"DESKDEFFX", Err(CodeFault::Length)),
    (b"", Err(CodeFault::Length)),
    (b"DESKD3FF", Err(CodeFault::Shape)),
    (b"DESKDEFFxxx", Err(CodeFault::Shape)),
];

/// How a BIC is written, where it is one.
fn spelled(bic: &Result<Bic, CodeFault>) -> Result<&str, CodeFault> {
    match bic {
        Ok(bic) => Ok(bic.as_str()),
        Err(fault) => Err(*fault),
    }
}

#[test]
fn bics(rt: HostRuntime) {
    for (text, want) in &BICS {
        assert!(rt; spelled(&Bic::parse(text)) == *want);
    }
}

/// All currencies in their order, and how many decimals each has.
const CURRENCIES: [(&[u8], Ccy, usize); 6] = [
    (b"CHF", Ccy::Chf, 2),
    (b"EUR", Ccy::Eur, 2),
    (b"GBP", Ccy::Gbp, 2),
    (b"JPY", Ccy::Jpy, 0),
    (b"KWD", Ccy::Kwd, 3),
    (b"USD", Ccy::Usd, 2),
];

#[test]
fn currencies(rt: HostRuntime) {
    let mut before = None;
    for (text, ccy, decimals) in &CURRENCIES {
        assert!(rt;
            Ccy::parse(text) == Some(*ccy) && ccy.decimals() == *decimals && before < Some(*ccy)
        );
        before = Some(*ccy);
    }
}

/// Texts, how many decimals there may be, and the number that is read.
const READ: [(&[u8], usize, Result<u64, NumberFault>); 7] = [
    (b"1,005", 3, Ok(1005)),
    (b"1000", 2, Err(NumberFault::Shape)),
    (b",5", 2, Err(NumberFault::Shape)),
    (b"1,2,3", 2, Err(NumberFault::Shape)),
    (b"-1,", 2, Err(NumberFault::Shape)),
    (b"", 2, Err(NumberFault::Shape)),
    (b"99999999999999,", 0, Ok(99_999_999_999_999)),
];

#[test]
fn numbers_read(rt: HostRuntime) {
    for (text, decimals, want) in &READ {
        assert!(rt; read_number(text, *decimals) == *want);
    }
}

/// Numbers, how many decimals they have, and how they are written.
const WRITTEN: [(u64, usize, &[u8]); 3] = [(5, 2, b"0,05"), (1005, 3, b"1,005"), (0, 2, b"0,")];

#[test]
fn numbers_written(rt: HostRuntime) -> Result<(), Fail> {
    for (value, decimals, want) in &WRITTEN {
        assert!(rt; write_number(rt.alloc(), *value, *decimals)?.as_slice() == *want);
    }
    Ok(())
}

/// Eight bytes, and how many days after the first of January 1970 the day is that they spell.
const DAYS: [(&[u8; 8], Option<i32>); 9] = [
    (b"19700101", Some(0)),
    (b"20240229", Some(19782)),
    (b"20000229", Some(11016)),
    (b"00000229", Some(-719469)),
    (b"99991231", Some(2932896)),
    (b"19000229", None),
    (b"20241301", None),
    (b"20240100", None),
    (b"2024 101", None),
];

#[test]
fn days(rt: HostRuntime) {
    for (text, want) in &DAYS {
        assert!(rt; Day::read(text).map(|day| day.number()) == *want);
    }
}

/// Texts, and whether each is a reference, and the name of an account.
const NAMES: [(&[u8], bool, bool); 9] = [
    (b"A/1 (B)", true, true),
    (b"1234567890123456", true, true),
    (b"12345678901234567", false, true),
    (b"12345678901234567890123456789012345", false, true),
    (b"123456789012345678901234567890123456", false, false),
    (b"/A", false, true),
    (b"A/", false, true),
    (b"A//B", false, true),
    (b"A\x7f", false, false),
];

#[test]
fn references_and_accounts(rt: HostRuntime) {
    for (text, is_reference, is_account) in &NAMES {
        assert!(rt;
            Reference::read(text).is_some() == *is_reference
                && AccountId::read(text).is_some() == *is_account
        );
    }
}
