//! The statements, as texts of SQL, of each table.
ghost use Rattle.std.specs.Prelude.{◌≡◌};
ghost use Rattle.sql_rows.specs.AmountStatements.{amount_text, take_text, put_text, first_text};

use crate::amounts::key::Ledger;

/// The amount of a key.
pub(crate) fn amount_of_key(ledger: Ledger) -> &'static str
    ensures { result.now ≡ amount_text ledger }
{
    match ledger {
        Ledger::Balance => "SELECT quantity FROM balance WHERE account = ?1 AND isin = ?2",
        Ledger::Cash => "SELECT amount FROM cash WHERE bic = ?1 AND currency = ?2",
        Ledger::Total => "SELECT amount FROM total WHERE subject = ?1 AND code = ?2",
    }
}

/// Takes off the amount of a key, where there is as much.
pub(crate) fn take_off(ledger: Ledger) -> &'static str
    ensures { result.now ≡ take_text ledger }
{
    match ledger {
        Ledger::Balance =>
            "UPDATE balance SET quantity = quantity - ?3 WHERE account = ?1 AND isin = ?2 AND quantity >= ?3",
        Ledger::Cash =>
            "UPDATE cash SET amount = amount - ?3 WHERE bic = ?1 AND currency = ?2 AND amount >= ?3",
        Ledger::Total =>
            "UPDATE total SET amount = amount - ?3 WHERE subject = ?1 AND code = ?2 AND amount >= ?3",
    }
}

/// Puts on the amount of a key.
pub(crate) fn put_on(ledger: Ledger) -> &'static str
    ensures { result.now ≡ put_text ledger }
{
    match ledger {
        Ledger::Balance =>
            "UPDATE balance SET quantity = quantity + ?3 WHERE account = ?1 AND isin = ?2",
        Ledger::Cash => "UPDATE cash SET amount = amount + ?3 WHERE bic = ?1 AND currency = ?2",
        Ledger::Total => "UPDATE total SET amount = amount + ?3 WHERE subject = ?1 AND code = ?2",
    }
}

/// The first row of a key.
pub(crate) fn first_row(ledger: Ledger) -> &'static str
    ensures { result.now ≡ first_text ledger }
{
    match ledger {
        Ledger::Balance => "INSERT INTO balance (account, isin, quantity) VALUES (?1, ?2, ?3)",
        Ledger::Cash => "INSERT INTO cash (bic, currency, amount) VALUES (?1, ?2, ?3)",
        Ledger::Total => "INSERT INTO total (subject, code, amount) VALUES (?1, ?2, ?3)",
    }
}
