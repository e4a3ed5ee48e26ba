ghost use Rattle.std.specs.Prelude.{◌≡◌, ℕ, ◌+◌, ◌<◌, ◌≤◌, None, Some, cond, nat_eq, nat_lt, true, false, length};
ghost use Rattle.std.specs.Prelude.{vec_len, vec_capacity};
ghost use Rattle.head_queue.specs.Newest.{lookup, Ascending};
ghost use Rattle.head_queue.specs.declared.newest.Owned.{Owned};
ghost use Rattle.std.specs.List.Sorted.{IsPartitionedBy, IsPartitionPoint};

/// Whose a number is.
#[derive(Clone, Copy)]
pub struct Owned {
    pub owner: u64,
    pub node: u32,
}

/// How many stand before an owner.
fn place_of(newest: &[Owned], owner: u64) -> usize
    ensures bound { result ≤ length newest.now }
    ensures parts { IsPartitionedBy (λ (x : Owned). nat_lt x.owner owner) newest.now
        → IsPartitionPoint (λ (x : Owned). nat_lt x.owner owner ≡ true) (λ (x : Owned). nat_lt x.owner owner ≡ false)
        newest.now result }
{
    newest.partition_point(|one| one.owner < owner)
}

/// The newest number of an owner.
pub fn newest_of(newest: &[Owned], owner: u64) -> Option<u32>
    requires { Ascending newest.now }
    ensures { result ≡ lookup owner newest.now }
{
    let at = place_of(newest, owner);
    if at < newest.len() && newest[at].owner == owner {
        return Some(newest[at].node);
    }
    None
}

/// Makes a number the newest of an owner. Takes no memory.
pub fn put(newest: &mut Vec<Owned>, owner: u64, node: u32)
    requires order { Ascending newest.old.items }
    requires room { lookup owner newest.old.items ≡ None → vec_len newest.old < vec_capacity newest.old }
    ensures told { (o : ℕ) → lookup o newest.new.items ≡ cond (nat_eq o owner) (Some node) (lookup o newest.old.items) }
    ensures order { Ascending newest.new.items }
    ensures len { vec_len newest.new ≤ vec_len newest.old + 1 }
    ensures known { (k : ℕ) → lookup owner newest.old.items ≡ Some k → vec_len newest.new ≤ vec_len newest.old }
    ensures capacity { vec_capacity newest.old ≤ vec_capacity newest.new }
{
    let at = place_of(newest, owner);
    if at < newest.len() && newest[at].owner == owner {
        newest[at].node = node;
        return;
    }
    if newest.insert(at, Owned { owner, node }).is_err() {
        unreachable!();
    }
}

/// Forgets an owner.
pub fn forget(newest: &mut Vec<Owned>, owner: u64)
    requires order { Ascending newest.old.items }
    ensures told { (o : ℕ) → lookup o newest.new.items ≡ cond (nat_eq o owner) None (lookup o newest.old.items) }
    ensures order { Ascending newest.new.items }
    ensures len { vec_len newest.new ≤ vec_len newest.old }
    ensures capacity { vec_capacity newest.old ≤ vec_capacity newest.new }
{
    let at = place_of(newest, owner);
    if at < newest.len() && newest[at].owner == owner {
        let _gone = newest.remove(at);
    }
}
