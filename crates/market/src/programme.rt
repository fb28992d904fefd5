// A programme.

ghost use Rattle.std.specs.Prelude.{◌≡◌};
ghost use Rattle.market.specs.Problems.{admits_rank};

/// A programme.
#[derive(Clone, Copy)]
pub struct Prog {
    /// The index of its score type.
    pub kind: u32,
    /// How many seats it has.
    pub quota: u32,
    /// The worst rank that it admits, from 1 to `MAX_RANK`; None admits every rank.
    pub bar: Option<u32>,
}

impl Prog {
    /// Whether it admits a candidate with this rank in its type. Nobody without a rank is admitted,
    /// with a bar or without.
    pub fn admits_rank(self, rank: Option<u32>) -> bool
        ensures { result ≡ admits_rank self.bar rank }
    {
        match (rank, self.bar) {
            (None, _) => false,
            (Some(_), None) => true,
            (Some(rank), Some(bar)) => rank <= bar,
        }
    }
}
