//! What stands at a place of a list, and between two.
ghost use Rattle.std.specs.Prelude.{◌≡◌, ◌≤◌, ◌<◌, ◌⊎◌, [], length, replicate, IfOk, slice_index_or, slice_range, slice_set};

use std::alloc::{AllocError, Global};

/// A number that no place of a list is: what a lookup answers that found nothing.
pub const NOWHERE: usize = usize::MAX;

/// What stands at a place; the other value, if the list has no such place.
pub fn at<T: Copy>(list: &[T], place: usize, other: T) -> T
    ensures { result ≡ slice_index_or list.now place other }
{
    if place < list.len() {
        list[place]
    } else {
        other
    }
}

/// What stands from a place on, up to another; nothing, if the list has no such places.
pub fn between<T>(list: &[T], from: usize, to: usize) -> &[T]
    ensures within { from ≤ to → to ≤ length list.now → result.now ≡ slice_range list.now from to }
    ensures outside { (to < from) ⊎ (length list.now < to) → result.now ≡ [] }
{
    if from <= to && to <= list.len() {
        &list[from..to]
    } else {
        &[]
    }
}

/// Puts a value at a place, if the list has it.
pub fn put<T: Copy>(list: &mut Vec<T>, place: usize, value: T)
    ensures { list.new.items ≡ slice_set list.old.items place value }
{
    if place < list.len() {
        list[place] = value;
    }
}

/// This value, so many times.
pub fn filled<T: Clone>(alloc: Global, value: T, count: usize) -> Result<Vec<T>, AllocError>
    ensures len { IfOk result (λ list. length list.items ≡ count) }
    ensures items_if_clones_equal { IfOk result (λ list. ((y : T) → T.is_clone value y → y ≡ value) → list.items ≡ replicate count value) }
{
    vec![in alloc; value; count]
}
