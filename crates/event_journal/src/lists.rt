//! Lists that have room for more elements.

ghost use Rattle.std.specs.Prelude.{◌≡◌, ◌+◌, ◌<◌, ◌≤◌, ◌∷◌, ◌++◌, [], vec_capacity, vec_len};

/// One more element, for which there is room.
pub fn push<T: Drop>(list: &mut Vec<T>, one: T)
    requires { vec_len list.old < vec_capacity list.old }
    ensures items { list.new.items ≡ list.old.items ++ one ∷ [] }
    ensures len { vec_len list.new ≡ vec_len list.old + 1 }
    ensures capacity { vec_capacity list.old ≤ vec_capacity list.new }
{
    if list.push(one).is_err() {
        unreachable!();
    }
}
