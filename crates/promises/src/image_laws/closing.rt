//! Plans that go on, and what a cartridge stands for that was closed.

ghost use Rattle.std.specs.Prelude.{◌≡◌, ◌⊎◌, List, Option, None};
ghost use Rattle.content_laws.specs.Ends.{EndsWithLast};
ghost use Rattle.tape_types.specs.declared.cartridges.Cartridge.{Cartridge};
ghost use Rattle.tape_types.specs.declared.cartridges.Part.{Part};
ghost use Rattle.tape_types.specs.declared.cartridges.Part.TheVariants.{Dp};
ghost use Rattle.index_model.specs.declared.indexes.Index.{Index};
ghost use Rattle.tape_layout.specs.declared.ops.Op.{Op};
ghost use Rattle.cartridge_meaning.specs.Pointers.{indexes_of};
ghost use Rattle.cartridge_meaning.specs.declared.labels.Labels.{Labels};
ghost use Rattle.promises.specs.ImageLaws.Closed.{Begins, EndsWithClose, IsExact, PutsOn};
ghost use Rattle.promises.specs.ImageLaws.Events.{IsDone, IsFailed};
ghost use Rattle.promises.specs.ImageLaws.Images.{IsNext};
ghost use Rattle.promises.specs.ImageLaws.Left.{CloseStands, PlansGoOn};
ghost use Rattle.promises.specs.ImageLaws.Made.{CoveredIndex, Job, Made, Trees, Volume, after, makes};
ghost use Rattle.promises.specs.ImageLaws.Starts.{made_of};

/// What is so of a plan stays so as it goes on.
#[tactic(auto, using(crate::proofs::ImageLaws::Longer::plans_go_on))]
pub fn plans_go_on()
    ensures { (v : Volume) (t : Trees) → PlansGoOn v t }
{}

/// What a cartridge stands for that ends with a close's index, over any history.
#[tactic(auto, using(crate::proofs::ImageLaws::Closed::close_told))]
pub fn a_close_stands()
    ensures { (c : Cartridge) (l : Labels) (last index : Index) → EndsWithClose c l last index
        → CloseStands c l last index }
{}

/// A partition ends where it was made to once an item is put on it, as long as no op on it fails; the data partition of
/// a mount does where it ends with its last index.
#[tactic(auto, using(crate::proofs::ImageLaws::Exact::done_exact, crate::proofs::ImageLaws::Exact::failed_exact, crate::proofs::ImageLaws::Exact::begun_exact))]
pub fn partitions_end_where_they_were_made_to()
    ensures begun { (c : Cartridge) (on_ip : Option Index) (on_dp : Index) → EndsWithLast c.dp (indexes_of c.dp)
        → IsExact Dp (made_of c on_ip on_dp) c }
    ensures done { (part : Part) (op : Op) (whole : Option CoveredIndex) (s : Made) (old new : Cartridge) → IsNext op s
        → ((written : Part) → Begins written s old) → IsDone op old new → (PutsOn part op ⊎ IsExact part s old)
        → IsExact part (makes (record { op = op; whole = whole }) s) new }
    ensures failed { (part : Part) (op : Op) (s : Made) (old new : Cartridge) → ¬ PutsOn part op → IsFailed op old new
        → IsExact part s old → IsExact part s new }
{}

/// Once no index is ahead, none ever is.
#[tactic(auto, using(crate::proofs::ImageLaws::Flushes::none_stays))]
pub fn none_is_ahead_again()
    ensures { (jobs : List Job) (s : Made) → s.base.ahead ≡ None → (after s jobs).base.ahead ≡ None }
{}
