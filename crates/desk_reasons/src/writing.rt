//! Reasons, written with their words.
ghost use Rattle.std.specs.Prelude.{◌≡◌, ◌<◌, ◌++◌, ◌∷◌, [], true, codes, decimal, OnErr, OnOk};
ghost use Rattle.std.specs.List.{flat_map};
ghost use Rattle.std.specs.Io.KnownBytes.{Appends};
ghost use Rattle.desk_codes.specs.Currency.{letters_of};
ghost use Rattle.desk_reasons.specs.Words.{hex_digit, hex_digits, byte_tail, known_currencies, number_tail, amount_tail, value_tail, tail_words, words_of};
ghost use Rattle.desk_reasons.specs.Tails.{tail_said};

use crate::reasons::{
    AmountReason, CurrencyReason, LineReason, MissingReason, NestingReason, NumberReason,
    QuantityReason, Reason, SecurityReason, ValueReason,
};
use crate::words::front_words;
use desk_codes::{CURRENCIES, Ccy, CodeFault};
use desk_streams::Sink;
use std::io;

/// What a reason has of the text, which stands behind its words.
#[derive(Clone, Copy)]
enum Tail {
    Nothing,
    Number(usize),
    Letter(u8),
    /// A column and its byte
    Byte(usize, u8),
    Currencies,
}

fn number_tail(reason: NumberReason) -> Tail
    ensures { tail_said result ≡ number_tail reason }
{
    match reason {
        NumberReason::Decimals(most) => Tail::Number(most),
        _ => Tail::Nothing,
    }
}

fn amount_tail(reason: AmountReason) -> Tail
    ensures { tail_said result ≡ amount_tail reason }
{
    match reason {
        AmountReason::Currency(CurrencyReason::Unknown) => Tail::Currencies,
        AmountReason::Number(reason) => number_tail(reason),
        _ => Tail::Nothing,
    }
}

fn value_tail(reason: ValueReason) -> Tail
    ensures { tail_said result ≡ value_tail reason }
{
    match reason {
        ValueReason::Amount(reason) => amount_tail(reason),
        ValueReason::Quantity(QuantityReason::Number(reason)) => number_tail(reason),
        ValueReason::Security(SecurityReason::Isin(CodeFault::Check(digit))) => {
            Tail::Number(usize::from(digit))
        }
        _ => Tail::Nothing,
    }
}

/// What a reason has of the text.
fn tail_of(reason: Reason) -> Tail
    ensures { tail_said result ≡ tail_words reason }
{
    match reason {
        Reason::Line(LineReason::Byte(column, byte)) => Tail::Byte(column, byte),
        Reason::Nesting(NestingReason::OtherOpen(line) | NestingReason::StillOpen(line)) => {
            Tail::Number(line)
        }
        Reason::Missing(MissingReason::OtherOption(letter)) => Tail::Letter(letter),
        Reason::Repeated(line) => Tail::Number(line),
        Reason::Value(reason) => value_tail(reason),
        _ => Tail::Nothing,
    }
}

/// One of the sixteen digits.
fn hex_digit(n: u8) -> u8
    requires { n < 16 }
    ensures { result ≡ hex_digit n }
{
    b"0123456789ABCDEF"[usize::from(n)]
}

/// Writes the two digits of a byte.
fn write_digits<W: Sink>(byte: u8, writer: &mut W) -> io::Result<()>
    ensures written { OnOk result (Appends (W.contents writer.old) (W.contents writer.new) (hex_digits byte)) }
    ensures failed { OnErr result (W.may_fail ≡ true) }
{
    writer.put(&[hex_digit(byte / 16), hex_digit(byte % 16)])
}

/// Writes in which column it stands.
fn write_column<W: Sink>(column: usize, writer: &mut W) -> io::Result<()>
    ensures written { OnOk result (Appends (W.contents writer.old) (W.contents writer.new) (codes ", in column " ++ decimal column)) }
    ensures failed { OnErr result (W.may_fail ≡ true) }
{
    writer.put_text(format_args!(", in column {column}"))
}

/// Writes the two digits of a byte, and its column.
fn write_byte<W: Sink>(column: usize, byte: u8, writer: &mut W) -> io::Result<()>
    ensures written { OnOk result (Appends (W.contents writer.old) (W.contents writer.new) (byte_tail column byte)) }
    ensures failed { OnErr result (W.may_fail ≡ true) }
{
    write_digits(byte, writer)?;
    write_column(column, writer)?;
    Ok(())
}

/// Writes a space and a currency.
fn write_currency<W: Sink>(ccy: Ccy, writer: &mut W) -> io::Result<()>
    ensures written { OnOk result (Appends (W.contents writer.old) (W.contents writer.new) (codes " " ++ letters_of ccy)) }
    ensures failed { OnErr result (W.may_fail ≡ true) }
{
    writer.put_text(format_args!(" {}", ccy.as_str()))
}

/// Writes these currencies, a space before each.
fn write_currencies<W: Sink>(currencies: &[Ccy], writer: &mut W) -> io::Result<()>
    ensures written { OnOk result (Appends (W.contents writer.old) (W.contents writer.new) (flat_map (λ ccy. codes " " ++ letters_of ccy) currencies.now)) }
    ensures failed { OnErr result (W.may_fail ≡ true) }
{
    for ccy in currencies {
        write_currency(*ccy, writer)?;
    }
    Ok(())
}

/// Writes what a reason has of the text.
fn write_tail<W: Sink>(tail: Tail, writer: &mut W) -> io::Result<()>
    ensures written { OnOk result (Appends (W.contents writer.old) (W.contents writer.new) (tail_said tail)) }
    ensures failed { OnErr result (W.may_fail ≡ true) }
{
    match tail {
        Tail::Nothing => Ok(()),
        Tail::Number(number) => writer.put_text(format_args!("{number}")),
        Tail::Letter(letter) => writer.put(&[letter]),
        Tail::Byte(column, byte) => write_byte(column, byte, writer),
        Tail::Currencies => write_currencies(&CURRENCIES, writer),
    }
}

/// Writes a reason as a sentence without its full stop: printable characters, of which none is a quotation mark or a backslash.
pub fn write_reason<W: Sink>(reason: Reason, writer: &mut W) -> io::Result<()>
    ensures written { OnOk result (Appends (W.contents writer.old) (W.contents writer.new) (words_of reason)) }
    ensures failed { OnErr result (W.may_fail ≡ true) }
{
    writer.put(front_words(reason).as_bytes())?;
    write_tail(tail_of(reason), writer)?;
    Ok(())
}
