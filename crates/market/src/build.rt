// The tables that a market keeps: the turn of each candidate, the programmes of each type, and their
// numbers among themselves.

ghost use Rattle.std.specs.Prelude.{◌≡◌, ◌<◌, length, IfOk};
ghost use Rattle.market.specs.Problems.{order_of};
ghost use Rattle.market.specs.LocalNumbers.{programmes_of};
ghost use Rattle.market.specs.Tables.{IsTurnTable, HasTurnTables, HasMembers, IsLocals};

use crate::List;
use crate::parts::Parts;
use std::alloc::{AllocError, Global};

// The turn of each candidate in a type, or the number of turns for none.
fn turn_table(alloc: Global, parts: &Parts, kind: u32) -> Result<Vec<u32>, AllocError>
    requires { kind < parts.now.types }
    ensures { IfOk result (λ table.
        IsTurnTable (length parts.now.lists) (order_of parts.now kind) table.items) }
{
    let order = parts.order(kind);
    let none = order.len() as u32;
    let mut table = vec![in alloc; none; parts.candidate_count() as usize]?;
    for (turn, candidate) in order.iter().enumerate() {
        table[*candidate as usize] = turn as u32;
    }
    Ok(table)
}

/// The turns of each type.
pub fn turn_tables(alloc: Global, parts: &Parts) -> Result<Vec<List>, AllocError>
    ensures { IfOk result (λ turns. HasTurnTables parts.now turns.items) }
{
    let mut turns = Vec::new(alloc);
    for kind in 0..parts.type_count() {
        let table = turn_table(alloc, parts, kind)?;
        turns.push(List::from_vec(table))?;
    }
    Ok(turns)
}

// The programmes of a type, rising.
fn type_members(alloc: Global, parts: &Parts, kind: u32) -> Result<Vec<u32>, AllocError>
    ensures { IfOk result (λ found. found.items ≡ programmes_of parts.now kind) }
{
    let programmes = parts.programmes();
    let mut found = Vec::new(alloc);
    for (index, programme) in programmes.iter().enumerate() {
        if programme.kind == kind {
            found.push(index as u32)?;
        }
    }
    Ok(found)
}

/// The programmes of each type.
pub fn all_members(alloc: Global, parts: &Parts) -> Result<Vec<List>, AllocError>
    ensures { IfOk result (λ members. HasMembers parts.now members.items) }
{
    let mut members = Vec::new(alloc);
    for kind in 0..parts.type_count() {
        let of_kind = type_members(alloc, parts, kind)?;
        members.push(List::from_vec(of_kind))?;
    }
    Ok(members)
}

/// The number of each programme among those of its type.
pub fn local_numbers(alloc: Global, parts: &Parts) -> Result<Vec<u32>, AllocError>
    ensures { IfOk result (λ locals. IsLocals parts.now locals.items) }
{
    let programmes = parts.programmes();
    let mut counts = vec![in alloc; 0u32; parts.type_count() as usize]?;
    let mut locals = Vec::new(alloc);
    for programme in programmes {
        let kind = programme.kind as usize;
        locals.push(counts[kind])?;
        counts[kind] += 1;
    }
    Ok(locals)
}
