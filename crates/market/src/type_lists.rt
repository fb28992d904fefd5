// The lists of a type in turn order, from which its dictatorships are copied.

ghost use Rattle.std.specs.Prelude.{◌≡◌, ◌+◌, ◌<◌, ◌≤◌, ◌++◌, ◌&&◌, ◌==◌, length, slice_index, IfOk};
ghost use Rattle.market.specs.Problems.{admits_rank, rank_of};
ghost use Rattle.market.specs.FlatLists.{between};
ghost use Rattle.market.specs.Tables.{IsLocals};
ghost use Rattle.market.specs.TypeLists.{items_below, type_items, type_places, IsTypeLists, HasTypeLists};

use crate::Prog;
use crate::flat_lists::first_bound;
use crate::parts::Parts;
use std::alloc::{AllocError, Global};
use std::marker::Model;

/// The lists of a type's turns, whole and restricted to the programmes of the type that admit the
/// candidate: local numbers, and beside each its place in the preference list, so that a cut keeps
/// those whose place is below it.
pub struct TypeLists {
    items: Vec<u32>,
    places: Vec<u8>,
    bounds: Vec<u32>,
}

// By hand, so that letting one go is one call in the proof of whoever holds it.
impl Drop for TypeLists {
    fn drop(self) {
        let Self {
            items: _items,
            places: _places,
            bounds: _bounds,
        } = self;
    }
}

impl Model for TypeLists {
    ghost use Rattle.market.specs.TypeLists.{FlatTypeLists};

    ghost Value = { FlatTypeLists };

    ghost view = { λ f. record {
      items = f.items.items;
      places = f.places.items;
      bounds = f.bounds.items;
    } };
}

impl TypeLists {
    /// The local numbers of all lists.
    pub fn items(&self) -> &[u32]
        ensures { result.now ≡ self.now.items }
    {
        &self.items
    }

    /// Their places in the preference lists.
    pub fn places(&self) -> &[u8]
        ensures { result.now ≡ self.now.places }
    {
        &self.places
    }

    /// The bounds between the lists.
    pub fn bounds(&self) -> &[u32]
        ensures { result.now ≡ self.now.bounds }
    {
        &self.bounds
    }
}

// Whether the turn of a candidate with this rank in the type may take the programme.
fn is_offered(programme: Prog, kind: u32, rank: Option<u32>) -> bool
    ensures { result ≡ (programme.kind == kind) && admits_rank programme.bar rank }
{
    programme.kind == kind && programme.admits_rank(rank)
}

// Adds the local numbers of the programmes of a type that a candidate with this rank in it lists and
// is admitted to, and their places in the list.
fn add_list(
    items: &mut Vec<u32>,
    places: &mut Vec<u8>,
    parts: &Parts,
    locals: &[u32],
    kind: u32,
    candidate: u32,
    rank: Option<u32>,
) -> Result<(), AllocError>
    requires numbers { IsLocals parts.now locals.now }
    requires candidate { candidate < length parts.now.lists }
    requires rank { rank ≡ rank_of parts.now kind candidate }
    ensures items { IfOk result (λ _. items.new.items
        ≡ items.old.items ++ type_items parts.now kind candidate) }
    ensures places { IfOk result (λ _. places.new.items
        ≡ places.old.items ++ type_places parts.now kind candidate) }
{
    let list = parts.list(candidate);
    for (place, programme) in list.iter().enumerate() {
        if is_offered(parts.programme(*programme), kind, rank) {
            items.push(locals[*programme as usize])?;
            places.push(place as u8)?;
        }
    }
    Ok(())
}

/// The lists of a type in turn order.
pub fn lists_of_type(
    alloc: Global,
    parts: &Parts,
    locals: &[u32],
    kind: u32,
) -> Result<TypeLists, AllocError>
    requires numbers { IsLocals parts.now locals.now }
    requires kind { kind < parts.now.types }
    ensures { IfOk result (IsTypeLists parts.now kind) }
{
    let order = parts.order(kind);
    let mut items = Vec::new(alloc);
    let mut places = Vec::new(alloc);
    let mut bounds = first_bound(alloc, order.len())?;
    for (turn, candidate) in order.iter().enumerate() {
        let rank = parts.rank_at(kind, turn as u32);
        add_list(
            &mut items,
            &mut places,
            parts,
            locals,
            kind,
            *candidate,
            rank,
        )?;
        bounds.push(items.len() as u32)?;
    }
    Ok(TypeLists {
        items,
        places,
        bounds,
    })
}

/// The lists of each type in turn order.
pub fn all_type_lists(
    alloc: Global,
    parts: &Parts,
    locals: &[u32],
) -> Result<Vec<TypeLists>, AllocError>
    requires { IsLocals parts.now locals.now }
    ensures { IfOk result (λ found. HasTypeLists parts.now found.items) }
{
    let mut found = Vec::new(alloc);
    for kind in 0..parts.type_count() {
        let of_kind = lists_of_type(alloc, parts, locals, kind)?;
        found.push(of_kind)?;
    }
    Ok(found)
}

// Adds the items whose places are below the cut.
fn add_below(found: &mut Vec<u32>, items: &[u32], places: &[u8], cut: u32) -> Result<(), AllocError>
    requires { length places.now ≡ length items.now }
    ensures { IfOk result (λ _. found.new.items
        ≡ found.old.items ++ items_below cut items.now places.now) }
{
    for (index, item) in items.iter().enumerate() {
        if u32::from(places[index]) < cut {
            found.push(*item)?;
        }
    }
    Ok(())
}

/// Adds the list of a turn up to a cut.
pub fn add_turn(
    found: &mut Vec<u32>,
    lists: &TypeLists,
    turn: usize,
    cut: u32,
) -> Result<(), AllocError>
    requires turn { turn + 1 < length lists.now.bounds }
    requires rising { slice_index lists.now.bounds turn ≤ slice_index lists.now.bounds (turn + 1) }
    requires items { slice_index lists.now.bounds (turn + 1) ≤ length lists.now.items }
    requires places { slice_index lists.now.bounds (turn + 1) ≤ length lists.now.places }
    ensures { IfOk result (λ _. found.new.items ≡ found.old.items
        ++ items_below cut (between lists.now.items lists.now.bounds turn)
        (between lists.now.places lists.now.bounds turn)) }
{
    let bounds = lists.bounds();
    let start = bounds[turn] as usize;
    let end = bounds[turn + 1] as usize;
    let items = &lists.items()[start..end];
    let places = &lists.places()[start..end];
    add_below(found, items, places, cut)
}
