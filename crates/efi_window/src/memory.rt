//! Vectors that are used within memory that was taken before.
ghost use Rattle.std.specs.Prelude.{◌≡◌, ◌-◌, ◌≤◌, ◌++◌, max, replicate, vec_len};
ghost use Rattle.std.specs.Vec.{vec_capacity};

/// Makes a list at least so long, by copies of an item. It takes no memory: there is enough.
pub fn lengthen<T: Copy>(list: &mut Vec<T>, len: usize, item: T)
    requires { len ≤ vec_capacity list.old }
    ensures items { list.new.items ≡ list.old.items ++ replicate (len - vec_len list.old) item }
    ensures len { vec_len list.new ≡ max (vec_len list.old) len }
    ensures capacity { vec_capacity list.old ≤ vec_capacity list.new }
{
    if list.len() < len {
        let _ = list.resize(len, item);
    }
}
