ghost use Rattle.std.specs.Prelude.{◌≡◌, ℕ, ◌+◌, ◌-◌, ◌<◌, ◌≤◌, ◌∷◌, ◌++◌, [], cond, nat_eq, vec_len, vec_capacity};
ghost use Rattle.std.specs.Prelude.{length};
ghost use Rattle.head_queue.specs.Links.{after_of, before_of, blank};

/// The numbers beside a number of a chain, or 0 where it is the first or the last.
#[derive(Clone, Copy)]
pub struct Link {
    pub before: u32,
    pub after: u32,
}

/// What stands after a number, or first.
pub fn number_after(ends: &Link, links: &[Link], at: u32) -> u32
    requires { at ≤ length links.now }
    ensures { result ≡ after_of ends.now links.now at }
{
    if at == 0 {
        ends.after
    } else {
        links[at as usize - 1].after
    }
}

/// What stands before a number, or last.
pub fn number_before(ends: &Link, links: &[Link], at: u32) -> u32
    requires { at ≤ length links.now }
    ensures { result ≡ before_of ends.now links.now at }
{
    if at == 0 {
        ends.before
    } else {
        links[at as usize - 1].before
    }
}

/// Has another number after a number.
pub fn set_after(ends: &mut Link, links: &mut Vec<Link>, at: u32, to: u32)
    requires { at ≤ vec_len links.old }
    ensures after { (s : ℕ) → after_of ends.new links.new.items s
        ≡ cond (nat_eq s at) to (after_of ends.old links.old.items s) }
    ensures before { (s : ℕ) → before_of ends.new links.new.items s ≡ before_of ends.old links.old.items s }
    ensures len { vec_len links.new ≡ vec_len links.old }
    ensures capacity { vec_capacity links.new ≡ vec_capacity links.old }
{
    if at == 0 {
        ends.after = to;
    } else {
        links[at as usize - 1].after = to;
    }
}

/// Has another number before a number.
pub fn set_before(ends: &mut Link, links: &mut Vec<Link>, at: u32, to: u32)
    requires { at ≤ vec_len links.old }
    ensures before { (s : ℕ) → before_of ends.new links.new.items s
        ≡ cond (nat_eq s at) to (before_of ends.old links.old.items s) }
    ensures after { (s : ℕ) → after_of ends.new links.new.items s ≡ after_of ends.old links.old.items s }
    ensures len { vec_len links.new ≡ vec_len links.old }
    ensures capacity { vec_capacity links.new ≡ vec_capacity links.old }
{
    if at == 0 {
        ends.before = to;
    } else {
        links[at as usize - 1].before = to;
    }
}

/// Adds a link that stands in no chain. Takes no memory.
pub fn widen(links: &mut Vec<Link>)
    requires { 1 ≤ vec_capacity links.old - vec_len links.old }
    ensures items { links.new.items ≡ links.old.items ++ blank ∷ [] }
    ensures len { vec_len links.new ≡ vec_len links.old + 1 }
    ensures capacity { vec_capacity links.old ≤ vec_capacity links.new }
{
    if links
        .push(Link {
            before: 0,
            after: 0,
        })
        .is_err()
    {
        unreachable!();
    }
}
