//! Places that are taken and filled again.

/// What is at the place, which is empty then.
pub fn take<T>(slots: &mut Vec<Option<T>>, place: usize) -> Option<T> {
    match slots.get_mut(place) {
        Some(slot) => slot.take(),
        None => None,
    }
}

/// Puts it at the place. What was there is dropped; where there is no such place, the value is.
pub fn put<T: Drop>(slots: &mut Vec<Option<T>>, place: usize, value: T) {
    if let Some(slot) = slots.get_mut(place) {
        *slot = Some(value);
    }
}
