//! The currencies in which the desk settles (ISO 4217).
ghost use Rattle.std.specs.Prelude.{◌≡◌, ◌↔◌, ◌≤◌, IfSome, IfNone};
ghost use Rattle.desk_codes.specs.declared.currency.Ccy.{Ccy};
ghost use Rattle.desk_codes.specs.Currency.{ccy_of, letters_of, decimals_of};

/// A currency of the desk (ISO 4217), in the order of the letters.
#[derive(Clone, Copy, PartialEq, Eq, PartialOrd, Ord)]
pub enum Ccy {
    /// Swiss franc
    Chf,
    /// Euro
    Eur,
    /// Pound sterling
    Gbp,
    /// Yen
    Jpy,
    /// Kuwaiti dinar
    Kwd,
    /// US dollar
    Usd,
}

/// Each currency, in the order of the letters.
pub const CURRENCIES: [Ccy; 6] = [Ccy::Chf, Ccy::Eur, Ccy::Gbp, Ccy::Jpy, Ccy::Kwd, Ccy::Usd];

impl Ccy {
    /// The currency of three capital letters; None for any other text.
    pub fn parse(text: &[u8]) -> Option<Ccy>
        ensures found { IfSome result (λ ccy. letters_of ccy ≡ text.now) }
        ensures none { IfNone result ((ccy : Ccy) → ¬ (letters_of ccy ≡ text.now)) }
        ensures by_list { result ≡ ccy_of text.now }
    {
        match text {
            b"CHF" => Some(Ccy::Chf),
            b"EUR" => Some(Ccy::Eur),
            b"GBP" => Some(Ccy::Gbp),
            b"JPY" => Some(Ccy::Jpy),
            b"KWD" => Some(Ccy::Kwd),
            b"USD" => Some(Ccy::Usd),
            _ => None,
        }
    }

    /// How many decimals its minor unit has.
    pub fn decimals(self) -> usize
        ensures value { result ≡ decimals_of self }
        ensures few { result ≤ 3 }
    {
        match self {
            Ccy::Jpy => 0,
            Ccy::Kwd => 3,
            Ccy::Chf | Ccy::Eur | Ccy::Gbp | Ccy::Usd => 2,
        }
    }

    /// Its three letters.
    pub fn as_bytes(&self) -> &'static [u8]
        ensures { result.now ≡ letters_of self.now }
    {
        self.as_str().as_bytes()
    }

    /// Its three letters as text.
    pub fn as_str(&self) -> &'static str
        ensures { result.now ≡ letters_of self.now }
    {
        match self {
            Ccy::Chf => "CHF",
            Ccy::Eur => "EUR",
            Ccy::Gbp => "GBP",
            Ccy::Jpy => "JPY",
            Ccy::Kwd => "KWD",
            Ccy::Usd => "USD",
        }
    }
}
