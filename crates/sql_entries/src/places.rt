//! The places of the columns in a row that is shown of an entry.

pub(crate) const SENDER: usize = 0;

pub(crate) const REFERENCE: usize = 1;

pub(crate) const KIND: usize = 2;

pub(crate) const BIC: usize = 3;

pub(crate) const ACCOUNT: usize = 4;

pub(crate) const ISIN: usize = 5;

pub(crate) const UNIT: usize = 6;

pub(crate) const QUANTITY: usize = 7;

pub(crate) const CURRENCY: usize = 8;

pub(crate) const AMOUNT: usize = 9;

pub(crate) const DAY: usize = 10;

pub(crate) const RULE: usize = 11;

pub(crate) const MT: usize = 12;

pub(crate) const SETTLEMENT: usize = 13;

pub(crate) const PLACE: usize = 14;

pub(crate) const PREVIOUS: usize = 15;
