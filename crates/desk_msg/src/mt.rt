//! The types of settlement messages.
ghost use Rattle.std.specs.Prelude.{◌≡◌};
ghost use Rattle.desk_msg.specs.MessageType.{number_of_type, digits_of_type, is_instruction, is_against_payment, is_delivery};
ghost use Rattle.desk_msg.specs.ConfirmationText.{confirming_type};
ghost use Rattle.desk_msg.specs.Named.{ReadsType};

use thiserror::Error;

/// A message type of settlement (ISO 15022, category 5): 540 to 543 instruct, 544 to 547 confirm.
#[derive(Clone, Copy, PartialEq, Eq)]
pub enum Mt {
    /// Receive free
    Mt540,
    /// Receive against payment
    Mt541,
    /// Deliver free
    Mt542,
    /// Deliver against payment
    Mt543,
    /// Receive free confirmation
    Mt544,
    /// Receive against payment confirmation
    Mt545,
    /// Deliver free confirmation
    Mt546,
    /// Deliver against payment confirmation
    Mt547,
}

/// A text or a number that is no message type of settlement.
#[derive(Clone, Copy, Debug, PartialEq, Eq, Error)]
#[error("no message type of settlement")]
pub struct UnknownType;

/// The type of three digits.
impl TryFrom<&[u8]> for Mt {
    type Error = UnknownType;

    ghost try_from_gives = { λ digits read. ReadsType (λ mt. digits_of_type mt ≡ digits.now) read };

    fn try_from(digits: &[u8]) -> Result<Mt, UnknownType> {
        match digits {
            b"540" => Ok(Mt::Mt540),
            b"541" => Ok(Mt::Mt541),
            b"542" => Ok(Mt::Mt542),
            b"543" => Ok(Mt::Mt543),
            b"544" => Ok(Mt::Mt544),
            b"545" => Ok(Mt::Mt545),
            b"546" => Ok(Mt::Mt546),
            b"547" => Ok(Mt::Mt547),
            _ => Err(UnknownType),
        }
    }
}

/// The type of a number.
impl TryFrom<u16> for Mt {
    type Error = UnknownType;

    ghost try_from_gives = { λ number read. ReadsType (λ mt. number_of_type mt ≡ number) read };

    fn try_from(number: u16) -> Result<Mt, UnknownType> {
        match number {
            540 => Ok(Mt::Mt540),
            541 => Ok(Mt::Mt541),
            542 => Ok(Mt::Mt542),
            543 => Ok(Mt::Mt543),
            544 => Ok(Mt::Mt544),
            545 => Ok(Mt::Mt545),
            546 => Ok(Mt::Mt546),
            547 => Ok(Mt::Mt547),
            _ => Err(UnknownType),
        }
    }
}

impl Mt {
    /// The number of the type, 540 to 547.
    pub fn number(self) -> u16
        ensures { result ≡ number_of_type self }
    {
        match self {
            Mt::Mt540 => 540,
            Mt::Mt541 => 541,
            Mt::Mt542 => 542,
            Mt::Mt543 => 543,
            Mt::Mt544 => 544,
            Mt::Mt545 => 545,
            Mt::Mt546 => 546,
            Mt::Mt547 => 547,
        }
    }

    /// The number as text, three digits.
    pub fn as_str(self) -> &'static str
        ensures { result.now ≡ digits_of_type self }
    {
        match self {
            Mt::Mt540 => "540",
            Mt::Mt541 => "541",
            Mt::Mt542 => "542",
            Mt::Mt543 => "543",
            Mt::Mt544 => "544",
            Mt::Mt545 => "545",
            Mt::Mt546 => "546",
            Mt::Mt547 => "547",
        }
    }

    /// The type that confirms it: MT544 confirms MT540, MT545 MT541, MT546 MT542 and MT547 MT543; a confirmation's own
    /// type is given back.
    pub fn confirming(self) -> Mt
        ensures { result ≡ confirming_type self }
    {
        match self {
            Mt::Mt540 | Mt::Mt544 => Mt::Mt544,
            Mt::Mt541 | Mt::Mt545 => Mt::Mt545,
            Mt::Mt542 | Mt::Mt546 => Mt::Mt546,
            Mt::Mt543 | Mt::Mt547 => Mt::Mt547,
        }
    }

    /// Whether a participant sends it to instruct the desk.
    pub fn is_instruction(self) -> bool
        ensures { result ≡ is_instruction self }
    {
        matches!(self, Mt::Mt540 | Mt::Mt541 | Mt::Mt542 | Mt::Mt543)
    }

    /// Whether cash moves with the securities.
    pub fn is_against_payment(self) -> bool
        ensures { result ≡ is_against_payment self }
    {
        matches!(self, Mt::Mt541 | Mt::Mt543 | Mt::Mt545 | Mt::Mt547)
    }

    /// Whether its sender, or the one it is sent to, delivers the securities.
    pub fn is_delivery(self) -> bool
        ensures { result ≡ is_delivery self }
    {
        matches!(self, Mt::Mt542 | Mt::Mt543 | Mt::Mt546 | Mt::Mt547)
    }
}
