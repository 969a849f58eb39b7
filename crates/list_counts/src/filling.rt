ghost use Rattle.std.specs.Prelude.{◌≡◌, ◌^◌, ◌-◌, ◌<◌, length, slice_index_or, IfOk};
ghost use Rattle.list_counts.specs.Filling.{fill, filled, free_positions, is_wished};

use crate::NoMemory;
use std::alloc::Global;

/// The positions of a group's teams, in the order of the wishes: each has the position that it
/// wishes, and the others get the positions that nobody wishes, the least first. Positions count
/// from 1, and there are as many as wishes. Where none is left, as clean wishes never come to, it
/// is 0.
pub fn filled(alloc: Global, wishes: &[Option<u32>]) -> Result<Vec<u32>, NoMemory>
    requires { length wishes.now < 2 ^ 32 - 1 }
    ensures { IfOk result (λ positions. positions.items ≡ filled wishes.now) }
{
    let free = free_positions(alloc, wishes)?;
    fill(alloc, &free, wishes)
}

/// The positions that nobody wishes, in order.
fn free_positions(alloc: Global, wishes: &[Option<u32>]) -> Result<Vec<u32>, NoMemory>
    requires { length wishes.now < 2 ^ 32 - 1 }
    ensures { IfOk result (λ free. free.items ≡ free_positions wishes.now) }
{
    let mut free = Vec::new(alloc);
    for place in 0..wishes.len() {
        let position = place as u32 + 1;
        if is_wished(wishes, position) {
            continue;
        }
        free.push(position)?;
    }
    Ok(free)
}

/// Whether somebody wishes the position.
fn is_wished(wishes: &[Option<u32>], position: u32) -> bool
    ensures { result ≡ is_wished wishes.now position }
{
    for wish in wishes {
        if *wish == Some(position) {
            return true;
        }
    }
    false
}

/// The wishes, and in place of those that are open the free positions in order.
#[tactic(auto, using(crate::proofs::CleanWishes::fill_next))]
fn fill(alloc: Global, free: &[u32], wishes: &[Option<u32>]) -> Result<Vec<u32>, NoMemory>
    ensures { IfOk result (λ positions. positions.items ≡ fill free.now wishes.now) }
{
    let mut positions = Vec::new(alloc);
    let mut next = 0;
    for wish in wishes {
        match *wish {
            Some(position) => positions.push(position)?,
            None => {
                positions.push(position_at(free, next))?;
                next += 1;
            }
        }
    }
    Ok(positions)
}

/// The free position at a place, 0 past their end.
fn position_at(free: &[u32], place: usize) -> u32
    ensures { result ≡ slice_index_or free.now place 0 }
{
    if place < free.len() { free[place] } else { 0 }
}
