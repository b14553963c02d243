//! Groups of nodes, each led by its least: of every node what stands above it in its group.
ghost use Rattle.std.specs.Prelude.{◌≡◌, ◌<◌, ◌≤◌, ◌^◌, ℕ, length, slice_index, IfOk};
ghost use Rattle.landmark_choice.specs.Grouping.{IsForest, Leads, merged, AreSizes};

use gh_base::NoMemory;
use std::alloc::Global;

/// Each number a group of its own.
pub fn apart(alloc: Global, count: u32) -> Result<Vec<u32>, NoMemory>
    ensures long { IfOk result (λ above. length above.items ≡ count) }
    ensures alone { IfOk result (λ above. Leads above.items (λ one. one)) }
{
    let mut above = Vec::new(alloc);
    for one in 0..count {
        above.push(one)?;
    }
    Ok(above)
}

/// The leader of a number's group. It shortens the way there.
pub fn find(above: &mut [u32], number: u32) -> u32
    requires forest { IsForest above.old }
    requires number { number < length above.old }
    ensures forest { IsForest above.new }
    ensures leader { (leader : ℕ → ℕ) → Leads above.old leader → result ≡ leader number }
    ensures same { (leader : ℕ → ℕ) → Leads above.old leader → Leads above.new leader }
    ensures within { result ≤ number }
{
    let mut at = number;
    'up: while above[at as usize] != at {
        let next = above[above[at as usize] as usize];
        above[at as usize] = next;
        at = next;
    }
    at
}

/// Makes the groups of two numbers one.
pub fn join(above: &mut [u32], first: u32, second: u32)
    requires forest { IsForest above.old }
    requires first { first < length above.old }
    requires second { second < length above.old }
    ensures forest { IsForest above.new }
    ensures merged { (leader : ℕ → ℕ) → Leads above.old leader → Leads above.new (merged leader (leader first) (leader second)) }
{
    let first = find(above, first);
    let second = find(above, second);
    if first < second {
        above[second as usize] = first;
    } else {
        above[first as usize] = second;
    }
}

/// How many numbers each number leads.
pub fn sizes(alloc: Global, above: &mut [u32]) -> Result<Vec<u32>, NoMemory>
    requires forest { IsForest above.old }
    requires few { length above.old < 2 ^ 32 }
    ensures long { IfOk result (λ sizes. length sizes.items ≡ length above.old) }
    ensures each { (leader : ℕ → ℕ) → Leads above.old leader → IfOk result (λ sizes. AreSizes leader (length above.old) sizes.items) }
    ensures same { (leader : ℕ → ℕ) → Leads above.old leader → Leads above.new leader }
{
    let mut sizes = zeros(alloc, above.len())?;
    for number in 0..above.len() {
        let leader = find(above, number as u32) as usize;
        sizes[leader] += 1;
    }
    Ok(sizes)
}

fn zeros(alloc: Global, count: usize) -> Result<Vec<u32>, NoMemory>
    ensures long { IfOk result (λ list. length list.items ≡ count) }
    ensures each { IfOk result (λ list. (one : ℕ) → slice_index list.items one ≡ 0) }
{
    Ok(vec![in alloc; 0; count]?)
}
