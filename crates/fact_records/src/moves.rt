//! Moves of items within a list and from one list to another, in the room that they have.
ghost use Rattle.std.specs.Prelude.{◌≡◌, ◌+◌, ◌-◌, ◌≤◌, ◌++◌, length, take, drop};
ghost use Rattle.std.specs.Vec.{vec_capacity};

/// Puts items in at a place.
pub(crate) fn put_in<T: Copy>(list: &mut Vec<T>, at: usize, items: &[T])
    requires place { at ≤ length list.old.items }
    requires room { length list.old.items + length items.now ≤ vec_capacity list.old }
    ensures items { list.new.items ≡ take at list.old.items ++ (items.now ++ drop at list.old.items) }
    ensures room { vec_capacity list.old ≤ vec_capacity list.new }
{
    let end = list.len();
    if list.extend_from_slice(items).is_err() {
        unreachable!()
    }
    if at < end {
        list[at..].rotate_right(items.len());
    }
}

/// Takes out so many items at a place, one by one: there are few, and a rotation by two to six of them clears a room of 4 KB each time.
pub(crate) fn take_out<T: Copy>(list: &mut Vec<T>, at: usize, count: usize)
    requires { at + count ≤ length list.old.items }
    ensures items { list.new.items ≡ take at list.old.items ++ drop (at + count) list.old.items }
    ensures room { vec_capacity list.old ≤ vec_capacity list.new }
{
    for _ in 0..count {
        list.remove(at);
    }
}

/// Writes items over as many from a place on.
pub(crate) fn write_over<T: Copy>(list: &mut Vec<T>, at: usize, items: &[T])
    requires { at + length items.now ≤ length list.old.items }
    ensures items { list.new.items ≡ take at list.old.items ++ (items.now ++ drop (at + length items.now) list.old.items) }
    ensures room { vec_capacity list.old ≤ vec_capacity list.new }
{
    list[at..at + items.len()].copy_from_slice(items);
}

/// Moves the items from a place on to the front of the next list.
pub(crate) fn give_end<T: Copy>(list: &mut Vec<T>, from: usize, next: &mut Vec<T>)
    requires place { from ≤ length list.old.items }
    requires room { (length list.old.items - from) + length next.old.items ≤ vec_capacity next.old }
    ensures front { list.new.items ≡ take from list.old.items }
    ensures back { next.new.items ≡ drop from list.old.items ++ next.old.items }
    ensures room { vec_capacity list.old ≤ vec_capacity list.new }
    ensures next_room { vec_capacity next.old ≤ vec_capacity next.new }
{
    if next.extend_from_slice(&list[from..]).is_err() {
        unreachable!()
    }
    next.rotate_right(list.len() - from);
    list.truncate(from);
}

/// Moves so many items from the front of the next list after these.
pub(crate) fn take_front<T: Copy>(list: &mut Vec<T>, count: usize, next: &mut Vec<T>)
    requires place { count ≤ length next.old.items }
    requires room { length list.old.items + count ≤ vec_capacity list.old }
    ensures front { list.new.items ≡ list.old.items ++ take count next.old.items }
    ensures back { next.new.items ≡ drop count next.old.items }
    ensures room { vec_capacity list.old ≤ vec_capacity list.new }
    ensures next_room { vec_capacity next.old ≤ vec_capacity next.new }
{
    if list.extend_from_slice(&next[..count]).is_err() {
        unreachable!()
    }
    next.rotate_left(count);
    next.truncate(next.len() - count);
}
