// Places of a table.
ghost use Rattle.std.specs.Prelude.{◌≡◌, slice_set};

// Puts this into place i; where there is no such place nothing is altered.
// By its index, since no contract says what a write through `get_mut` leaves in a slice.
pub fn put<T: Copy>(places: &mut [T], i: usize, new: T)
    ensures { places.new ≡ slice_set places.old i new }
{
    if i < places.len() {
        places[i] = new;
    }
}
