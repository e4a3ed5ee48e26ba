ghost use Rattle.std.specs.Prelude.{◌≡◌};
ghost use Rattle.plain_tree.specs.Paths.{parent_of, same_path, is_at_or_below, is_below};

use tape_types::Text;

/// The path without its last name.
pub fn parent(path: &[Text]) -> &[Text]
    ensures { result.now ≡ parent_of path.now }
{
    &path[..path.len().saturating_sub(1)]
}

pub fn same_path(a: &[Text], b: &[Text]) -> bool
    ensures { result ≡ same_path a.now b.now }
{
    a == b
}

/// Whether the second path is the first one, or goes on from it.
pub fn is_at_or_below(front: &[Text], path: &[Text]) -> bool
    ensures { result ≡ is_at_or_below front.now path.now }
{
    path.starts_with(front)
}

pub fn is_below(front: &[Text], path: &[Text]) -> bool
    ensures { result ≡ is_below front.now path.now }
{
    is_at_or_below(front, path) && path.len() != front.len()
}
