//! Pairs of opposite instructions, and their settlement.
ghost use Rattle.std.specs.Prelude.{◌≡◌};
ghost use Rattle.desk_rules.specs.Settlement.{is_past};

/// Two opposite instructions by their entry numbers. The pair's number is that of the later entry.
#[derive(Clone, Copy, PartialEq, Eq)]
pub struct Pair {
    pub earlier: u64,
    pub later: u64,
}

/// A pair that a run settled.
#[derive(Clone, Copy, PartialEq, Eq)]
pub struct Settled {
    /// The run's entry number
    pub run: u64,
    /// The run's pass that settled it: 1, 2, ..
    pub pass: u64,
    pub pair: Pair,
}

/// A place in the order in which a run takes pairs: by settlement day, then by number.
#[derive(Clone, Copy, PartialEq, Eq, PartialOrd, Ord)]
pub struct Place {
    /// The settlement day, as the number YYYYMMDD
    pub day: u64,
    /// The pair's number, that of its later instruction
    pub number: u64,
}

impl Place {
    /// Whether it is past another place, or past none.
    #[tactic(auto, using(crate::proofs::PlaceLemmas::by_order))]
    pub fn is_past(&self, last: &Option<Place>) -> bool
        ensures { result ≡ is_past last.now self.now }
    {
        match last {
            None => true,
            Some(last) => last < self,
        }
    }
}

/// What an uncovered pair lacks.
#[derive(Clone, Copy)]
pub enum Lack {
    /// The deliverer holds too little of the security (reason LACK).
    Securities,
    /// The payer has too little cash (reason MONY).
    Money,
}
