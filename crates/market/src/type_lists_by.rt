// The lists of all types in turn order, made by several threads.

ghost use Rattle.std.specs.Prelude.{◌≡◌, ℕ, ◌<◌, ◌≤◌, length, slice_index_or, IfOk, Option};
ghost use Rattle.std.specs.Option.{IfSome};
ghost use Rattle.market.specs.declared.limits.TheConstants.{MAX_TYPES};
ghost use Rattle.market.specs.Tables.{IsLocals};
ghost use Rattle.market.specs.TypeLists.{FlatTypeLists, IsTypeLists, HasTypeLists};

use crate::parts::Parts;
use crate::type_lists::{TypeLists, lists_of_type};
use std::alloc::{AllocError, Global};
use std::thread;
use std::thread::Threads;

/// The lists of each type in turn order, made by so many threads.
pub fn type_lists_by<R: Threads + Sync>(
    rt: &R,
    alloc: Global,
    threads: u32,
    parts: &Parts,
    locals: &[u32],
) -> Result<Vec<TypeLists>, AllocError>
    requires threads { 0 < threads }
    requires numbers { IsLocals parts.now locals.now }
    ensures { IfOk result (λ found. HasTypeLists parts.now found.items) }
{
    let types = parts.type_count();
    let mut made = no_lists(alloc, types)?;
    make_lists(rt, alloc, threads, parts, locals, made.as_mut_slice());
    let mut found = Vec::new(alloc);
    for kind in 0..types {
        let Some(of_kind) = made[kind as usize].take() else {
            return Err(AllocError);
        };
        found.push(of_kind)?;
    }
    Ok(found)
}

// Nothing made yet.
fn no_lists(alloc: Global, types: u32) -> Result<Vec<Option<TypeLists>>, AllocError>
    ensures { IfOk result (λ made. length made.items ≡ types) }
{
    let mut made = Vec::new(alloc);
    for _ in 0..types {
        made.push(None)?;
    }
    Ok(made)
}

// Makes the lists of each type, none where memory was refused.
fn make_lists<R: Threads + Sync>(
    rt: &R,
    alloc: Global,
    threads: u32,
    parts: &Parts,
    locals: &[u32],
    made: &mut [Option<TypeLists>],
)
    requires threads { 0 < threads }
    requires types { length made.old ≡ parts.now.types }
    requires few { parts.now.types ≤ MAX_TYPES }
    requires numbers { IsLocals parts.now locals.now }
    ensures { (t : ℕ) (d : Option FlatTypeLists) → t < length made.old
        → IfSome (slice_index_or made.new t d) (IsTypeLists parts.now t) }
{
    thread::for_each_mut(
        rt,
        made,
        threads as usize,
        &|kind, of_kind: &mut Option<TypeLists>|
            requires { (kind < parts.now.types) × (parts.now.types ≤ MAX_TYPES)
                × IsLocals parts.now locals.now }
            ensures { IfSome of_kind.new (IsTypeLists parts.entry.now kind) }
        {
            *of_kind = lists_of_type(alloc, parts, locals, kind as u32).ok();
        },
    );
}
