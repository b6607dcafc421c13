//! Changes of the lists. Only [`make_room`] allocates.

ghost use Rattle.std.specs.Prelude.{◌≡◌, ◌<◌, ◌≤◌, ◌∷◌, take, length, IfOk};
ghost use Rattle.std.specs.Vec.{vec_len, vec_capacity};

use std::alloc::AllocError;

/// How many elements a list that grows has room for at first.
pub(crate) const FIRST_ROOM: usize = 4;

/// Makes room for one more element, if there are less than `most`: then for as many more as there are, but not for more
/// than `most`.
pub(crate) fn make_room<T: Drop>(most: u32, xs: &mut Vec<T>) -> Result<(), AllocError>
    ensures items { xs.new.items ≡ xs.old.items }
    ensures room { IfOk result
        (λ _. length xs.new.items < most → length xs.new.items < vec_capacity xs.new) }
{
    let count = xs.len();
    if most as usize <= count || count < xs.capacity() {
        return Ok(());
    }
    let more = count.max(FIRST_ROOM).min(most as usize - count);
    xs.reserve_exact(more)
}

/// Inserts an element in front.
pub(crate) fn put_first<T: Drop>(xs: &mut Vec<T>, x: T)
    requires room { vec_len xs.old < vec_capacity xs.old }
    ensures items { xs.new.items ≡ x ∷ xs.old.items }
    ensures capacity { vec_capacity xs.new ≡ vec_capacity xs.old }
{
    match xs.insert(0, x) {
        Ok(()) => {}
        Err(_) => unreachable!(),
    }
}

/// Keeps the newest elements.
pub(crate) fn keep<T: Drop>(most: u32, x: T, xs: &mut Vec<T>)
    requires room { length xs.old.items < most → length xs.old.items < vec_capacity xs.old }
    requires few { length xs.old.items ≤ most }
    ensures items { xs.new.items ≡ take most (x ∷ xs.old.items) }
    ensures capacity { vec_capacity xs.new ≡ vec_capacity xs.old }
{
    if most == 0 {
        return;
    }
    if xs.len() == most as usize {
        xs.pop();
    }
    put_first(xs, x);
}
