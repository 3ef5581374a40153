//! The place of each number in an order of numbers.
ghost use Rattle.std.specs.Prelude.{◌≡◌, ◌<◌, ◌^◌, length, slice_get, slice_index, Some, IsPermutation, IfOk, EachIndex};
ghost use Rattle.std.specs.List.{All, range_with_len};
ghost use Rattle.rig_links.specs.Tables.{ArePlaces};

use rig_io::NoMemory;
use std::alloc::{AllocError, Global};

/// The place of each number in an order of all numbers below its length.
pub(crate) fn places_in(alloc: Global, order: &[u32]) -> Result<Vec<u32>, NoMemory>
    requires same { IsPermutation (range_with_len 0 (length order.now)) order.now }
    requires few { length order.now < 2 ^ 32 }
    ensures { IfOk result (λ places. ArePlaces order.now places.items) }
{
    let mut places = zeros(alloc, order.len())?;
    write_places(places.as_mut_slice(), order);
    Ok(places)
}

fn zeros(alloc: Global, count: usize) -> Result<Vec<u32>, AllocError>
    ensures { IfOk result (λ v. length v.items ≡ count) }
{
    vec![in alloc; 0; count]
}

/// Writes at each number of an order where it stands there.
fn write_places(places: &mut [u32], order: &[u32])
    requires below { All (λ n. n < length places.old) order.now }
    requires few { length order.now < 2 ^ 32 }
    ensures len { length places.new ≡ length places.old }
    ensures each { EachIndex order.now (λ i. slice_get order.now (slice_index places.new (slice_index order.now i)) ≡ Some (slice_index order.now i)) }
{
    for (place, number) in order.iter().enumerate() {
        places[*number as usize] = place as u32;
    }
}
