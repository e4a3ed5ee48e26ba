//! What a crash may leave within an op.

ghost use Rattle.std.specs.Prelude.{Option};
ghost use Rattle.tape_types.specs.declared.cartridges.Cartridge.{Cartridge};
ghost use Rattle.tape_layout.specs.declared.ops.Op.{Op};
ghost use Rattle.promises.specs.ImageLaws.Events.{Within};
ghost use Rattle.promises.specs.ImageLaws.Images.{AreUpTo, IsImage, IsNext, IsSound};
ghost use Rattle.promises.specs.ImageLaws.Kept.{ReadsAs};
ghost use Rattle.promises.specs.ImageLaws.Made.{CoveredIndex, Made, Trees, Volume, does};

/// Within an op that comes next, a crash leaves what it could leave by what was flushed.
pub fn ops_leave_images()
    ensures { (v : Volume) (t : Trees) (plan : Cartridge) (whole : Option CoveredIndex) (s : Made) (held : Cartridge) (op : Op)
        → IsNext op s → ReadsAs v t plan s held → IsSound v t plan s → IsSound v t plan (does op whole s)
        → (before c : Cartridge) → IsImage v t plan s.base before → AreUpTo v held.vcr before → Within op held before c
        → IsImage v t plan s.base c × AreUpTo v held.vcr c }
{}
