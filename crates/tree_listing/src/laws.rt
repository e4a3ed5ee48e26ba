//! A law of listings.

ghost use Rattle.std.specs.Prelude.{◌≡◌, ◌++◌, ℕ, false};
ghost use Rattle.std.specs.List.{flat_map};
ghost use Rattle.std.specs.FinMap as fin;
ghost use Rattle.index_model.specs.declared.indexes.Spot.{Spot};
ghost use Rattle.plain_tree.specs.Tree.{Tree};
ghost use Rattle.tree_listing.specs.Listing.{generation_line, listing_text, short_line};

/// Where not all is told, a listing has one line for each node and one for the index, and says nothing of attributes,
/// of read-only nodes and of the lock state.
pub fn short_listings_have_a_line_for_each_node()
    ensures { (generation : ℕ) (spot : Spot) (tree : Tree) → listing_text false generation spot tree
        ≡ flat_map short_line (fin.entries tree.nodes) ++ generation_line generation spot }
{}
