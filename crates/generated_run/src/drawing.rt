//! Draws.
ghost use Rattle.std.specs.Prelude.{◌≡◌, ◌<◌, ◌^◌, map, IfOk};
ghost use Rattle.std.specs.List.{range_with_len};
ghost use Rattle.generated_run.specs.Draws as spec;

use gh_base::NoMemory;
use std::alloc::Global;

/// What a draw is above.
const LOW_BITS: u32 = 65_536;

fn next(state: u32) -> u32
    ensures { result ≡ spec.next state }
{
    ((1_103_515_245 * u64::from(state) + 12_345) % 2_147_483_648) as u32
}

/// The first draws of a size.
#[tactic(auto, unfolding(crate::specs::Draws::state_after))]
pub(crate) fn draws(alloc: Global, size: u32, count: u32) -> Result<Vec<u32>, NoMemory>
    ensures { IfOk result (λ draws. draws.items ≡ map (spec.draw size) (range_with_len 0 count)) }
{
    let mut state = size;
    let mut draws = Vec::new(alloc);
    for _ in 0..count {
        state = next(state);
        draws.push(state / LOW_BITS)?;
    }
    Ok(draws)
}
