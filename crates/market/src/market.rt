// A market: a placement problem with the tables that make its look-ups quick.

ghost use Rattle.std.specs.Prelude.{◌≡◌, ◌<◌, ◌≤◌, length, slice_index, map, drop, IfOk};
ghost use Rattle.market.specs.declared.limits.TheConstants.{MAX_QUOTA};
ghost use Rattle.market.specs.Problems.{IsValid, problem, list_of, order_of, rank_of, turn_of, programme_at, quota_of, admits, with_quota};
ghost use Rattle.market.specs.Mechanism.{IsCuts};
ghost use Rattle.market.specs.LocalNumbers.{programmes_of, local_of, local_dictatorship, local_list as local_turn_list, IsFill, IsFillBefore, ChoosesAlike};
ghost use Rattle.market.specs.Tables.{IsLocals};
ghost use Rattle.market.specs.TypeLists.{IsTypeLists, HasTypeLists};

use crate::build::{all_members, local_numbers, turn_tables};
use crate::flat_lists::{FlatLists, first_bound};
use crate::parts::Parts;
use crate::type_lists::{TypeLists, add_turn, all_type_lists};
use crate::type_lists_by::type_lists_by;
use crate::{Cuts, Dict, List, MarketParts, Prog};
use std::alloc::{AllocError, Global};
use std::marker::Model;
use std::thread::Threads;

/// Score types, programmes with quotas and rank bars, and candidates with preference lists and
/// ranks. Contracts see it as a `Problem`, which is always valid.
pub struct Market {
    parts: Parts,
    // For each type the turn of each candidate, or the number of turns for none.
    turns: Vec<List>,
    // For each type its programmes.
    members: Vec<List>,
    // For each programme its local number.
    locals: Vec<u32>,
    // For each type the lists of its turns, as local numbers.
    type_lists: Vec<TypeLists>,
}

// By hand, so that letting one go is one call in the proof of whoever holds it.
impl Drop for Market {
    fn drop(self) {
        let Self {
            parts: _parts,
            turns: _turns,
            members: _members,
            locals: _locals,
            type_lists: _type_lists,
        } = self;
    }
}

impl Model for Market {
    ghost use Rattle.market.specs.Problems.{Problem};
    ghost use Rattle.market.specs.TypeLists.{HasTables};

    ghost Value = { Problem };

    ghost view = { λ m. m.parts };

    ghost invariant = { λ m.
        HasTables m.parts m.turns.items m.members.items m.locals.items m.type_lists.items };
}

impl Market {
    /// The market of these parts: the programmes, the preference list of each candidate, and for
    /// each type the candidates in turn order and their ranks. Nothing but memory is refused.
    pub fn build(
        alloc: Global,
        types: u32,
        programmes: Vec<Prog>,
        lists: Vec<List>,
        orders: Vec<List>,
        ranks: Vec<List>,
    ) -> Result<Market, AllocError>
        requires { IsValid (problem types programmes.items lists.items orders.items ranks.items) }
        ensures { IfOk result (λ m. m
            ≡ problem types programmes.items lists.items orders.items ranks.items) }
    {
        let parts = Parts::new(types, programmes, lists, orders, ranks);
        let locals = local_numbers(alloc, &parts)?;
        let type_lists = all_type_lists(alloc, &parts, &locals)?;
        Market::with_tables(alloc, parts, locals, type_lists)
    }

    /// The same market, its lists by type made by so many threads; `build` makes them by itself.
    pub fn build_by<R: Threads + Sync>(
        rt: &R,
        alloc: Global,
        threads: u32,
        types: u32,
        programmes: Vec<Prog>,
        lists: Vec<List>,
        orders: Vec<List>,
        ranks: Vec<List>,
    ) -> Result<Market, AllocError>
        requires threads { 0 < threads }
        requires valid { IsValid
            (problem types programmes.items lists.items orders.items ranks.items) }
        ensures { IfOk result (λ m. m
            ≡ problem types programmes.items lists.items orders.items ranks.items) }
    {
        let parts = Parts::new(types, programmes, lists, orders, ranks);
        let locals = local_numbers(alloc, &parts)?;
        let type_lists = type_lists_by(rt, alloc, threads, &parts, &locals)?;
        Market::with_tables(alloc, parts, locals, type_lists)
    }

    // The market of these parts and lists, with the tables that are left.
    fn with_tables(
        alloc: Global,
        parts: Parts,
        locals: Vec<u32>,
        type_lists: Vec<TypeLists>,
    ) -> Result<Market, AllocError>
        requires numbers { IsLocals parts locals.items }
        requires type_lists { HasTypeLists parts type_lists.items }
        ensures { IfOk result (λ m. m ≡ parts) }
    {
        let turns = turn_tables(alloc, &parts)?;
        let members = all_members(alloc, &parts)?;
        Ok(Market {
            parts,
            turns,
            members,
            locals,
            type_lists,
        })
    }

    /// Gives back what the market was built of. It takes no memory.
    pub fn into_parts(self) -> MarketParts
        ensures parts { problem result.types result.programmes.items result.lists.items
            result.orders.items result.ranks.items ≡ self }
        ensures valid { IsValid self }
    {
        let Self {
            parts,
            turns: _turns,
            members: _members,
            locals: _locals,
            type_lists: _type_lists,
        } = self;
        parts.into_parts()
    }

    /// Gives a programme this quota, at most `MAX_QUOTA`; all else stays. It takes no memory, and
    /// the same time for every market.
    pub fn set_quota(&mut self, programme: u32, quota: u32)
        requires programme { programme < length self.old.programmes }
        requires quota { quota ≤ MAX_QUOTA }
        ensures { self.new ≡ with_quota self.old programme quota }
    {
        self.parts.set_quota(programme, quota);
    }

    /// How many score types there are.
    pub fn type_count(&self) -> u32
        ensures count { result ≡ self.now.types }
        ensures valid { IsValid self.now }
    {
        self.parts.type_count()
    }

    /// How many programmes there are.
    pub fn programme_count(&self) -> u32
        ensures { result ≡ length self.now.programmes }
    {
        self.parts.programmes().len() as u32
    }

    /// How many candidates there are.
    pub fn candidate_count(&self) -> u32
        ensures count { result ≡ length self.now.lists }
        ensures valid { IsValid self.now }
    {
        self.parts.candidate_count()
    }

    /// A programme by its index.
    pub fn programme(&self, programme: u32) -> Prog
        requires { programme < length self.now.programmes }
        ensures { result ≡ programme_at self.now programme }
    {
        self.parts.programme(programme)
    }

    /// The preference list of a candidate: programmes, best first.
    pub fn list(&self, candidate: u32) -> &[u32]
        requires { candidate < length self.now.lists }
        ensures list { result.now ≡ list_of self.now candidate }
        ensures valid { IsValid self.now }
    {
        self.parts.list(candidate)
    }

    /// The turn order of a type: the candidates who have a rank in it, best rank first.
    pub fn order(&self, kind: u32) -> &[u32]
        requires { kind < self.now.types }
        ensures order { result.now ≡ order_of self.now kind }
        ensures valid { IsValid self.now }
    {
        self.parts.order(kind)
    }

    /// The turn of a candidate in a type, or the number of turns where there is none.
    pub fn turn(&self, kind: u32, candidate: u32) -> u32
        requires kind { kind < self.now.types }
        requires candidate { candidate < length self.now.lists }
        ensures { result ≡ turn_of self.now kind candidate }
    {
        let turns = &self.turns[kind as usize];
        turns.items()[candidate as usize]
    }

    /// The rank of a candidate in a type, None where there is none.
    #[tactic(auto, unfolding(crate::specs::Problems::rank_of))]
    pub fn rank(&self, kind: u32, candidate: u32) -> Option<u32>
        requires kind { kind < self.now.types }
        requires candidate { candidate < length self.now.lists }
        ensures { result ≡ rank_of self.now kind candidate }
    {
        self.parts.rank_at(kind, self.turn(kind, candidate))
    }

    /// Whether a programme admits a candidate: the candidate has a rank in its type, and that rank
    /// is at most the programme's bar where it has one.
    pub fn admits(&self, programme: u32, candidate: u32) -> bool
        requires programme { programme < length self.now.programmes }
        requires candidate { candidate < length self.now.lists }
        ensures { result ≡ admits self.now programme candidate }
    {
        // Its clause says that the market is valid.
        let _ = self.type_count();
        let programme = self.programme(programme);
        programme.admits_rank(self.rank(programme.kind, candidate))
    }

    /// The programmes of a type, rising. The one at place j has the local number j.
    pub fn type_programmes(&self, kind: u32) -> &[u32]
        requires { kind < self.now.types }
        ensures members { result.now ≡ programmes_of self.now kind }
        ensures valid { IsValid self.now }
    {
        // Its clause says that the market is valid.
        let _ = self.type_count();
        let members = &self.members[kind as usize];
        members.items()
    }

    /// The local number of a programme: its place among those of its type.
    pub fn local(&self, programme: u32) -> u32
        requires { programme < length self.now.programmes }
        ensures { result ≡ local_of self.now programme }
    {
        self.locals[programme as usize]
    }

    /// The dictatorship of a type under cuts, over local numbers, from a turn on and with these
    /// seats taken before it. The list of turn k is that of the candidate at place `from_turn` + k
    /// of the turn order, up to the cut and restricted to the programmes of the type that are
    /// acceptable to the candidate.
    pub fn dict(
        &self,
        alloc: Global,
        kind: u32,
        cuts: &Cuts,
        from_turn: u32,
        fill: &[u32],
    ) -> Result<Dict, AllocError>
        requires kind { kind < self.now.types }
        requires cuts { IsCuts self.now cuts.now }
        requires from { from_turn ≤ length (order_of self.now kind) }
        requires fill { IsFill self.now kind fill.now }

        ensures dictatorship { IfOk result (λ d. d
            ≡ local_dictatorship self.now cuts.now kind from_turn fill.now) }

        // With the seats that the turns before `from_turn` take, its turns choose as those of the
        // type's own dictatorship over the market's numbers.
        ensures alike { IfOk result (λ d. IsFillBefore self.now cuts.now kind from_turn fill.now
            → ChoosesAlike self.now cuts.now kind from_turn d) }
    {
        let lists = self.turn_lists(alloc, kind, cuts, from_turn)?;
        let quota = self.quotas(alloc, kind)?;
        let fill = Vec::from_slice(alloc, fill)?;
        Ok(Dict::from_flat(quota, fill, lists))
    }

    // The quotas of the programmes of a type.
    fn quotas(&self, alloc: Global, kind: u32) -> Result<Vec<u32>, AllocError>
        requires { kind < self.now.types }
        ensures { IfOk result (λ quota. quota.items
            ≡ map (quota_of self.now) (programmes_of self.now kind)) }
    {
        let mut quota = Vec::new(alloc);
        let members = self.type_programmes(kind);
        for programme in members {
            let seats = self.programme(*programme).quota;
            quota.push(seats)?;
        }
        Ok(quota)
    }

    // The lists of a type in turn order.
    fn type_lists(&self, kind: u32) -> &TypeLists
        requires { kind < self.now.types }
        ensures lists { IsTypeLists self.now kind result.now }
        ensures valid { IsValid self.now }
    {
        // Its clause says that the market is valid.
        let _ = self.type_count();
        &self.type_lists[kind as usize]
    }

    // The lists of the turns of a type from a turn on.
    fn turn_lists(
        &self,
        alloc: Global,
        kind: u32,
        cuts: &Cuts,
        from_turn: u32,
    ) -> Result<FlatLists, AllocError>
        requires kind { kind < self.now.types }
        requires cuts { IsCuts self.now cuts.now }
        requires from { from_turn ≤ length (order_of self.now kind) }
        ensures valid { IsValid self.now }
        ensures lists { IfOk result (λ lists. lists
            ≡ map (local_turn_list self.now cuts.now kind)
            (drop from_turn (order_of self.now kind))) }
    {
        let order = self.order(kind);
        let rest = &order[from_turn as usize..];
        let type_lists = self.type_lists(kind);
        let mut items = Vec::with_capacity(alloc, type_lists.items().len())?;
        let mut bounds = first_bound(alloc, rest.len())?;
        for (index, candidate) in rest.iter().enumerate() {
            let turn = from_turn as usize + index;
            add_turn(&mut items, type_lists, turn, cuts.cut(*candidate))?;
            bounds.push(items.len() as u32)?;
        }
        Ok(FlatLists::from_parts(items, bounds))
    }
}
