// Who holds something else than before.

ghost use Rattle.std.specs.Prelude.{◌≡◌, ◌<◌, ◌^◌, length, IfSome};
ghost use Rattle.quota_sweep.specs.Sweeps.{changed_count, changed_since, is_same};

use market::Placement;

/// How many candidates hold something else than before, and 0 where there is nothing before.
pub fn changed(before: &Option<Placement>, now: &Placement) -> u32
    requires few { length now.now < 2 ^ 32 }
    requires before { IfSome before.now (λ held. length held ≡ length now.now) }
    ensures { result ≡ changed_since before.now now.now }
{
    match before {
        Some(before) => changed_between(before.held(), now.held()),
        None => 0,
    }
}

// How many candidates hold something else in the second.
fn changed_between(before: &[Option<u32>], now: &[Option<u32>]) -> u32
    requires few { length now.now < 2 ^ 32 }
    requires same { length before.now ≡ length now.now }
    ensures { result ≡ changed_count before.now now.now }
{
    let mut count: u32 = 0;
    for (candidate, holds) in now.iter().enumerate() {
        if !is_same(before[candidate], *holds) {
            count += 1;
        }
    }
    count
}

// Whether the same is held, a programme or nothing.
fn is_same(before: Option<u32>, now: Option<u32>) -> bool
    ensures { result ≡ is_same before now }
{
    match (before, now) {
        (None, None) => true,
        (Some(programme), Some(other)) => programme == other,
        _ => false,
    }
}
