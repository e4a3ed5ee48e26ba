//! A view of a generation.

ghost use Rattle.std.specs.Prelude.{◌≡◌, ◌+◌, ◌*◌, Some, IfOk, IfErr};
ghost use Rattle.tape_types.specs.declared.cartridges.Cartridge.{Cartridge};
ghost use Rattle.tape_drive.specs.Looks.{Looks};
ghost use Rattle.generation_view.specs.Told.{HasCounts};
ghost use Rattle.generation_view.specs.Views.{IsOpenOn, IsViewOf, RefusesView};

use crate::errors::{ReadErr, ViewErr, refusal};
use crate::reads::read_file;
use crate::seeking::{Sought, seek};
use file_tree::{Tree, file_at};
use index_model::Spot;
use mount_recover::begin;
use plain_tree::Answer;
use std::alloc::Global;
use std::marker::Model;
use std::snapshot::Snapshot;
use tape_drive::Drive;
use tape_types::{List, Part, Place, Text};

/// The tree of a generation of a volume, whose bytes are read from the drive on which it was opened.
#[derive(Drop)]
pub struct View<D: Drive> {
    tree: Tree,
    generation: u64,
    spot: Spot,
    first: Snapshot<D>,
}

impl<D: Drive> Model for View<D> {
    ghost use Rattle.std.specs.FinMap as fin;
    ghost use Rattle.std.specs.Coded.{codes, coded_list, coded_ℕ};
    ghost use Rattle.plain_tree.specs.Paths.{path_cmp};
    ghost use Rattle.file_tree.specs.contracts.nodes.Node as node;
    ghost use Rattle.generation_view.specs.Views.{CanBeRead, Opened};

    ghost Value = { Opened };

    ghost coded = { Prim.hlevel (codes, fin.code {R = path_cmp} (coded_list (coded_list coded_ℕ)) node.the_row.coded) };

    ghost view = { λ v. record {
      tree = v.tree;
      generation = v.generation;
      spot = v.spot;
      told = D.held v.first.value;
      limits = D.limits v.first.value;
    } };

    ghost invariant = { λ v. CanBeRead (D.held v.first.value) (D.limits v.first.value) v.tree };
}

/// Opens a view of a generation that the data partition of a volume still has. Nothing is written (LTFS 2.4 on back
/// pointers).
///
/// # Errors
///
/// `Mount` where the cartridge doesn't mount; `Broken` where the indexes from the newest back are newer, and the next
/// one is no link, with its first block and the first test that it fails; `NoGeneration` where the way is sound, and
/// has no such generation; `Drive` where the drive failed, and `NoMemory` where memory was refused.
pub fn open_view<D: Drive>(
    alloc: Global,
    drive: &mut D,
    generation: u64,
) -> Result<View<D>, ViewErr>
    ensures found { IfOk result (λ view. (c : Cartridge) → D.held drive.old ≡ Some c → IsViewOf generation c view) }
    ensures opened { IfOk result (IsOpenOn D.Drive drive.new generation) }
    ensures refused { IfErr result (λ e. (c : Cartridge) → D.held drive.old ≡ Some c → RefusesView generation e c) }
    ensures counts { HasCounts (D.faults drive.old) (D.faults drive.new) result }
    ensures looks { Looks D.Drive
        ((26 + 2 * (D.limits drive.old).cap_ip + 5 * (D.limits drive.old).cap_dp) * D.MOST) drive.old drive.new }
{
    let start = begin(drive);
    match seek(alloc, drive, start, generation) {
        Ok(Sought::There(tree, spot)) => Ok(View {
            tree,
            generation,
            spot,
            first: Snapshot::of(drive),
        }),
        Ok(Sought::Lacking) => Err(ViewErr::NoGeneration(generation)),
        Ok(Sought::Broken(pos, why)) => Err(ViewErr::Broken(
            Place {
                part: Part::Dp,
                pos,
            },
            why,
        )),
        Err(fault) => Err(refusal(fault)),
    }
}

impl<D: Drive> View<D> {
    ghost use Rattle.std.specs.Prelude.{◌≡◌, length};
    ghost use Rattle.tape_types.specs.declared.cartridges.Part.TheVariants.{Dp};
    ghost use Rattle.plain_tree.specs.Calls.{answer};
    ghost use Rattle.plain_tree.specs.declared.calls.Call.TheVariants.{Read};
    ghost use Rattle.extent_map.specs.Cells.{tape_of};
    ghost use Rattle.file_tree.specs.Tree.{plain_of};
    ghost use Rattle.generation_view.specs.Reads.{IsReadBy, blocks_read};

    /// Its tree.
    pub fn tree(&self) -> &Tree
        ensures { result.now ≡ self.now.tree }
    {
        &self.tree
    }

    /// Its tree, and nothing else of it.
    pub fn into_tree(self) -> Tree
        ensures { result ≡ self.tree }
    {
        let View { tree, .. } = self;
        tree
    }

    /// Its generation.
    pub fn generation(&self) -> u64
        ensures { result ≡ self.now.generation }
    {
        self.generation
    }

    /// The first block of its index, and the letter of the data partition.
    pub fn spot(&self) -> Spot
        ensures { result ≡ self.now.spot }
    {
        self.spot
    }

    /// The place of the first block of its index.
    pub fn at(&self) -> Place
        ensures { result ≡ record { part = Dp; pos = self.now.spot.block } }
    {
        Place {
            part: Part::Dp,
            pos: self.spot.block,
        }
    }

    /// What a read of at most so many bytes of a file, from an offset on, is answered, as the plain tree answers it: a
    /// file's bytes up to its end, or a refusal, `Damaged` where a byte is lost. Each block is read once. It needs a
    /// drive that tells the same as when the view was opened.
    ///
    /// # Errors
    ///
    /// `Drive` where the drive failed, and `NoMemory` where memory was refused.
    pub fn read(
        &self,
        alloc: Global,
        drive: &mut D,
        path: List<Text>,
        offset: u64,
        count: u64,
    ) -> Result<Answer, ReadErr>
        requires told { D.held drive.old ≡ self.now.told }
        requires limits { D.limits drive.old ≡ self.now.limits }
        ensures { IsReadBy D.Drive (length (blocks_read self.now.tree path offset count))
            (λ c. answer (plain_of (tape_of c) self.now.tree) (Read path offset count)) drive.old drive.new result }
    {
        // The number of commands is in its range.
        let _commands_are_in_range = drive.commands();
        match file_at(&self.tree, path.as_slice()) {
            Ok(file) => read_file(alloc, &self.tree, drive, file, offset, count),
            Err(refusal) => Ok(Answer::Refused(refusal)),
        }
    }
}
