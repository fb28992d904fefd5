// What the rounds keep: what each candidate and each turn has chosen, and whose choices changed.

ghost use Rattle.std.specs.Prelude.{◌≡◌, ℕ, ◌+◌, ◌<◌, ◌≤◌, [], length, slice_index_or, replicate, IfOk};
ghost use Rattle.market.specs.declared.limits.TheConstants.{MAX_ENTRIES};
ghost use Rattle.market.specs.Problems.{IsValid, order_of};
ghost use Rattle.market.specs.Dictatorships.{choice};
ghost use Rattle.market.specs.LocalNumbers.{local_dictatorship, IsFillBefore};
ghost use Rattle.market.specs.Choices.{empty_table};
ghost use Rattle.market.specs.Reruns.{IsRunUpto};
ghost use Rattle.round_rerun.specs.Kept.{choice_byte, IsKept, KeepsUnmarked};

use crate::turn_choices::TurnChoices;
use market::{Cuts, Dict, Market, Tentative};
use std::alloc::{AllocError, Global};

/// The byte of a turn that has chosen nothing: no list has so many entries.
pub const NO_CHOICE: u8 = u8::MAX;

/// The choices of all candidates, the same by turn, and a mark for each candidate with another
/// choice since the last cuts. A rerun is compared with the bytes, which lie in turn order, so the
/// choices of those for whom nothing changes are not looked up.
#[derive(Drop)]
pub struct Kept {
    /// The choices of all candidates.
    pub table: Tentative,
    chosen: Vec<TurnChoices>,
    changed: Vec<bool>,
}

impl Kept {
    /// No choice anywhere, and nobody marked.
    pub fn none(alloc: Global, market: &Market) -> Result<Kept, AllocError>
        ensures table { IfOk result (λ kept. kept.table ≡ empty_table market.now) }
        ensures kept { IfOk result (IsKept market.now) }
        ensures valid { IsValid market.now }
    {
        let table = Tentative::none(alloc, market)?;
        let chosen = no_choices(alloc, market)?;
        let changed = vec![in alloc; false; market.candidate_count() as usize]?;
        Ok(Kept {
            table,
            chosen,
            changed,
        })
    }

    /// The candidates with another choice since the marks were last taken away.
    pub fn changed(&self) -> &[bool]
        ensures { result.now ≡ self.now.changed.items }
    {
        &self.changed
    }

    /// Takes all marks away.
    pub fn forget_changes(&mut self)
        ensures table { self.new.table ≡ self.old.table }
        ensures chosen { self.new.chosen ≡ self.old.chosen }
        ensures marks { length self.new.changed.items ≡ length self.old.changed.items }
    {
        self.changed.fill(false);
    }

    /// Writes what a turn of a type's dictatorship takes, where `place` is its choice, and marks
    /// its candidate, if it is not what the turn took before. The dictatorship is that of the
    /// market from a turn on, with the seats that the turns before it take.
    pub fn write_turn(
        &mut self,
        market: &Market,
        cuts: &Cuts,
        kind: u32,
        from_turn: u32,
        dict: &Dict,
        turn: u32,
        place: u32,
    )
        requires kind { kind < market.now.types }
        requires turn { from_turn + turn < length (order_of market.now kind) }
        requires dict { dict.now
            ≡ local_dictatorship market.now cuts.now kind from_turn dict.now.fill }
        requires fill { IsFillBefore market.now cuts.now kind from_turn dict.now.fill }
        requires choice { place ≡ choice dict.now turn }
        requires row { IsRunUpto market.now cuts.now kind (from_turn + turn)
            (slice_index_or self.old.table kind []) }
        requires kept { IsKept market.now self.old }

        ensures row { IsRunUpto market.now cuts.now kind (from_turn + turn + 1)
            (slice_index_or self.new.table kind []) }
        ensures others { (t : ℕ) → (t ≡ kind → ⊥)
            → slice_index_or self.new.table t [] ≡ slice_index_or self.old.table t [] }
        ensures kept { IsKept market.now self.new }
        ensures unmarked { KeepsUnmarked self.old self.new }
    {
        let order = market.order(kind);
        // Its clause says that the dictatorship is valid.
        let _ = dict.turns();
        let byte = byte_of(dict.list(turn).len(), place);
        let at = from_turn as usize + turn as usize;
        if self.chosen[kind as usize].byte(at) == byte {
            return;
        }
        let chosen = &mut self.chosen[kind as usize];
        chosen.write(at, byte);
        self.table
            .write_turn(market, cuts, kind, from_turn, dict, turn, place);
        let candidate = order[at];
        self.changed[candidate as usize] = true;
    }
}

// The byte in which a choice among so many entries is kept.
fn byte_of(entries: usize, place: u32) -> u8
    requires { entries ≤ MAX_ENTRIES }
    ensures { result ≡ choice_byte entries place }
{
    if (place as usize) < entries {
        return place as u8;
    }
    NO_CHOICE
}

// For each type a byte for each turn, none of which has chosen yet.
fn no_choices(alloc: Global, market: &Market) -> Result<Vec<TurnChoices>, AllocError>
    ensures types { IfOk result (λ chosen. length chosen.items ≡ market.now.types) }
    ensures each { IfOk result (λ chosen. (t : ℕ) → t < market.now.types
        → slice_index_or chosen.items t [] ≡ replicate (length (order_of market.now t)) NO_CHOICE) }
    ensures valid { IsValid market.now }
{
    let mut chosen = Vec::new(alloc);
    for kind in 0..market.type_count() {
        let turns = market.order(kind).len();
        let of_kind = TurnChoices::all(alloc, NO_CHOICE, turns)?;
        chosen.push(of_kind)?;
    }
    Ok(chosen)
}
