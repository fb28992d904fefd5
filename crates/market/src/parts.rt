// What a market is made of, as it is given.

ghost use Rattle.std.specs.Prelude.{◌≡◌, ◌<◌, ◌≤◌, length, slice_get};
ghost use Rattle.market.specs.declared.limits.TheConstants.{MAX_QUOTA};
ghost use Rattle.market.specs.Problems.{IsValid, problem, list_of, order_of, ranks_of, programme_at, with_quota};

use crate::{List, Prog};
use std::marker::Model;

/// The programmes, the preference list of each candidate, and for each type the candidates in turn
/// order and their ranks. Contracts see them as a `Problem`, which is always valid.
pub struct Parts {
    types: u32,
    programmes: Vec<Prog>,
    lists: Vec<List>,
    orders: Vec<List>,
    ranks: Vec<List>,
}

// By hand, so that letting one go is one call in the proof of whoever holds it.
impl Drop for Parts {
    fn drop(self) {
        let Self {
            types: _,
            programmes: _programmes,
            lists: _lists,
            orders: _orders,
            ranks: _ranks,
        } = self;
    }
}

impl Model for Parts {
    ghost use Rattle.market.specs.Problems.{Problem, IsValid, problem};

    ghost Value = { Problem };

    ghost view = { λ m.
        problem m.types m.programmes.items m.lists.items m.orders.items m.ranks.items };

    ghost invariant = { λ m.
        IsValid (problem m.types m.programmes.items m.lists.items m.orders.items m.ranks.items) };
}

/// What a market was built of, as `Market::build` takes it.
#[derive(Drop)]
pub struct MarketParts {
    /// How many score types there are.
    pub types: u32,
    /// The programmes, by index.
    pub programmes: Vec<Prog>,
    /// The preference list of each candidate: programmes, best first.
    pub lists: Vec<List>,
    /// The turn order of each type: the candidates who have a rank in it, best rank first.
    pub orders: Vec<List>,
    /// The ranks of each type, in its turn order.
    pub ranks: Vec<List>,
}

impl Parts {
    /// These parts. It takes no memory.
    pub fn new(
        types: u32,
        programmes: Vec<Prog>,
        lists: Vec<List>,
        orders: Vec<List>,
        ranks: Vec<List>,
    ) -> Parts
        requires { IsValid (problem types programmes.items lists.items orders.items ranks.items) }
        ensures { result ≡ problem types programmes.items lists.items orders.items ranks.items }
    {
        Parts {
            types,
            programmes,
            lists,
            orders,
            ranks,
        }
    }

    /// Gives these parts back. It takes no memory.
    pub fn into_parts(self) -> MarketParts
        ensures parts { problem result.types result.programmes.items result.lists.items
            result.orders.items result.ranks.items ≡ self }
        ensures valid { IsValid self }
    {
        let Self {
            types,
            programmes,
            lists,
            orders,
            ranks,
        } = self;
        MarketParts {
            types,
            programmes,
            lists,
            orders,
            ranks,
        }
    }

    /// Gives a programme this quota. It takes no memory.
    pub fn set_quota(&mut self, programme: u32, quota: u32)
        requires programme { programme < length self.old.programmes }
        requires quota { quota ≤ MAX_QUOTA }
        ensures { self.new ≡ with_quota self.old programme quota }
    {
        self.programmes[programme as usize].quota = quota;
    }

    /// How many score types there are.
    pub fn type_count(&self) -> u32
        ensures count { result ≡ self.now.types }
        ensures valid { IsValid self.now }
    {
        self.types
    }

    /// The programmes, by index.
    pub fn programmes(&self) -> &[Prog]
        ensures programmes { result.now ≡ self.now.programmes }
        ensures valid { IsValid self.now }
    {
        &self.programmes
    }

    /// How many candidates there are.
    pub fn candidate_count(&self) -> u32
        ensures count { result ≡ length self.now.lists }
        ensures valid { IsValid self.now }
    {
        self.lists.len() as u32
    }

    /// A programme by its index.
    pub fn programme(&self, programme: u32) -> Prog
        requires { programme < length self.now.programmes }
        ensures { result ≡ programme_at self.now programme }
    {
        self.programmes[programme as usize]
    }

    /// The preference list of a candidate: programmes, best first.
    #[tactic(auto, unfolding(crate::specs::Problems::list_of))]
    pub fn list(&self, candidate: u32) -> &[u32]
        requires { candidate < length self.now.lists }
        ensures list { result.now ≡ list_of self.now candidate }
        ensures valid { IsValid self.now }
    {
        let list = &self.lists[candidate as usize];
        list.items()
    }

    /// The turn order of a type: the candidates who have a rank in it, best rank first.
    #[tactic(auto, unfolding(crate::specs::Problems::order_of))]
    pub fn order(&self, kind: u32) -> &[u32]
        requires { kind < self.now.types }
        ensures order { result.now ≡ order_of self.now kind }
        ensures valid { IsValid self.now }
    {
        let order = &self.orders[kind as usize];
        order.items()
    }

    /// The rank at a turn of a type, None where there is no such turn.
    #[tactic(auto, unfolding(crate::specs::Problems::ranks_of))]
    pub fn rank_at(&self, kind: u32, turn: u32) -> Option<u32>
        requires { kind < self.now.types }
        ensures { result ≡ slice_get (ranks_of self.now kind) turn }
    {
        let ranks = &self.ranks[kind as usize];
        ranks.items().get(turn as usize).copied()
    }
}
