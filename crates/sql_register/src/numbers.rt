//! The numbers that the tables can hold.
ghost use Rattle.std.specs.Prelude.{◌≡◌, ◌<◌, OnOk, IfOk, IsOk};

use desk_rules::MOST_ENTRIES;
use sql_tables::values::CORRUPT;
use sqlite::Error;

/// An entry's number, where a register can have an entry of it; else the tables have broken their word.
pub fn checked(number: u64) -> Result<u64, Error>
    ensures same { IfOk result (λ n. n ≡ number) }
    ensures some { IfOk result (λ n. 0 < n) }
    ensures small { IfOk result (λ n. n < 1_000_000_000) }
    ensures all { 0 < number → number < 1_000_000_000 → IsOk result }
{
    if 0 < number && number <= MOST_ENTRIES {
        Ok(number)
    } else {
        Err(CORRUPT)
    }
}

/// Two entries' numbers, the earlier one first, where a register can have entries of both; else the tables have broken
/// their word.
pub fn in_order(earlier: u64, later: u64) -> Result<(), Error>
    ensures first { OnOk result (0 < earlier) }
    ensures order { OnOk result (earlier < later) }
    ensures small { OnOk result (later < 1_000_000_000) }
    ensures all { 0 < earlier → earlier < later → later < 1_000_000_000 → IsOk result }
{
    if 0 < earlier && earlier < later && later <= MOST_ENTRIES {
        Ok(())
    } else {
        Err(CORRUPT)
    }
}
