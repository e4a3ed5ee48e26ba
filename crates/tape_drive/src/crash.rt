// What a crash of the drive in memory may leave, by choice.
ghost use Rattle.std.specs.Prelude.{ℕ, ◌≡◌, ◌≤◌, ◌<◌, ◌+◌, ◌-◌, ◌*◌, ◌^◌, ◌++◌, ◌↔◌, if◌then◌else◌, reverse, OnOk};
ghost use Rattle.std.specs.Prelude.{IfOk, Option, Some, None};
ghost use Rattle.tape_types.specs.declared.cartridges.Cartridge.{Cartridge};
ghost use Rattle.tape_types.specs.Cartridges.{items_of, capacity, HoldsAtMost, FitsLimits};
ghost use Rattle.tape_drive.specs.Since.{GaveSince};
ghost use Rattle.tape_drive.specs.Images.{moments_after, moments, stood, earlier_or, next_put, torn_at, image_of};
ghost use Rattle.tape_drive.specs.Images.{crash_image, Gave};

use crate::drive::Drive;
use crate::memory::MemDrive;
use crate::record::{Act, DoneCommand};
use std::alloc::Global;
use tape_types::{Cartridge, Item, List, NoMemory, Part};

/// A moment of one partition since the last flush that succeeded.
#[derive(Clone, Copy, Debug, PartialEq, Eq)]
pub struct Cut {
    /// 0 is that flush, or the drive's making where there was none. Each write or mark that reached the tape has two
    /// moments: its cut, and its item.
    pub moment: u64,
    /// Whether the partition is cut at the position of the item that was written next in it, with a Torn at its end.
    /// Where none was written, it counts as false.
    pub torn: bool,
}

impl MemDrive {
    /// How many moments there are from the last flush that succeeded up to now, with both. Each write or mark that
    /// succeeded, or was listed to fail, has added two.
    pub fn moments(&self) -> u64
        ensures value { result ≡ moments self.now.acts }
        ensures some { 1 ≤ result }
    {
        count_moments(self.acts())
    }

    /// A cartridge that a crash may leave now: each partition is as a cut of its own says, and the volume change
    /// reference and both attributes are as they read.
    pub fn crash(&self, ip: Cut, dp: Cut) -> Result<Cartridge, NoMemory>
        requires ip { ip.moment < moments self.now.acts }
        requires dp { dp.moment < moments self.now.acts }
        ensures image { IfOk result (λ c. c ≡ crash_image self.now.held self.now.acts ip dp) }
        ensures left { IfOk result (λ c. ⟦<MemDrive as Drive>⟧.leaves self.now c) }
        ensures fits { IfOk result (λ c. FitsLimits self.now.limits c) }
    {
        let ip_items = self.image(Part::Ip, ip)?;
        let dp_items = self.image(Part::Dp, dp)?;
        Ok(Cartridge {
            ip: ip_items,
            dp: dp_items,
            vcr: self.vcr_held(),
            note_ip: self.note_of(Part::Ip),
            note_dp: self.note_of(Part::Dp),
        })
    }

    fn image(&self, part: Part, cut: Cut) -> Result<List<Item>, NoMemory>
        requires { cut.moment < moments self.now.acts }
        ensures image { IfOk result (λ l. l
            ≡ image_of part (items_of part self.now.held) self.now.acts cut.moment cut.torn) }
        ensures fits { IfOk result (λ l. HoldsAtMost (capacity part self.now.limits) l) }
    {
        let mut items = Vec::new(self.alloc());
        append_copies(self.alloc(), &mut items, self.items_of(part))?;
        let mut walk = Walk {
            count: self.moments(),
            items,
            next: None,
        };
        walk.back(self.alloc(), part, cut.moment, self.acts())?;
        let Walk {
            count: _,
            items,
            next,
        } = walk;
        let image = torn_if(cut.torn, next, items)?;
        Ok(image)
    }
}

/// What a crash may leave now is what `crash` gives by some two cuts, or gave before the failed writes and marks that
/// no command which settles the volume change reference has succeeded after.
pub fn crash_gives_all(drive: &MemDrive)
    ensures { (image : Cartridge)
        → ⟦<MemDrive as Drive>⟧.leaves drive.now image ↔ Gave drive.now.held drive.now.acts image }
{
    let _ = drive;
}

/// What a crash may have left since the number of commands was t is what it may leave now, and what it left while an
/// act of the record went on that had begun at that number or later: what choices gave before that act, and what they
/// show of it.
pub fn since_gives_all(drive: &MemDrive)
    ensures { (t : ℕ) (image : Cartridge)
        → ⟦<MemDrive as Drive>⟧.left_since drive.now t image ↔ GaveSince drive.now.held drive.now.acts t image }
{
    // What is kept of the commands leads back to what was before them.
    let _sound = drive.acts();
}

fn count_moments(acts: &[DoneCommand]) -> u64
    ensures value { result ≡ moments (reverse acts.now) }
    ensures some { 1 ≤ result }
{
    let mut n = 1;
    for entry in acts {
        n = count_with(&entry.act, n);
    }
    n
}

fn count_with(act: &Act, n: u64) -> u64
    requires { n < 2 ^ 63 }
    ensures { result ≡ moments_after act.now n }
{
    match act {
        Act::Put {
            part: _,
            gone: _,
            failed: _,
        } => n + 2,
        Act::Flushed => 1,
        Act::Noted { part: _, before: _ } => n,
        Act::Settled => n,
    }
}

fn append_copies(alloc: Global, items: &mut Vec<Item>, more: &[Item]) -> Result<(), NoMemory>
    ensures { OnOk result (items.new.items ≡ items.old.items ++ more.now) }
{
    for item in more {
        items.push(item.try_clone(alloc)?)?;
    }
    Ok(())
}

fn torn_if(torn: bool, next: Option<u64>, mut items: Vec<Item>) -> Result<List<Item>, NoMemory>
    ensures { IfOk result (λ l. l ≡ torn_at (if torn then next else None) items.items) }
{
    if torn {
        match next {
            Some(pos) => {
                items.truncate(pos as usize);
                items.push(Item::Torn)?;
                Ok(List::from_vec(items))
            }
            None => Ok(List::from_vec(items)),
        }
    } else {
        Ok(List::from_vec(items))
    }
}

// A walk back over a record, as one partition saw it: how many moments are left, what stood there, and where the
// next item was written.
#[derive(Drop)]
struct Walk {
    count: u64,
    items: Vec<Item>,
    next: Option<u64>,
}

impl Walk {
    ghost use Rattle.tape_drive.specs.Walks.{Steps, PutSteps};

    // Goes back to a moment.
    fn back(
        &mut self,
        alloc: Global,
        part: Part,
        moment: u64,
        acts: &[DoneCommand],
    ) -> Result<(), NoMemory>
        requires count { self.old.count ≡ moments (reverse acts.now) }
        requires moment { moment < self.old.count }
        ensures items { OnOk result (self.new.items.items ≡ stood part self.old.items.items (reverse acts.now) moment) }
        ensures next { OnOk result (self.new.next
            ≡ earlier_or (next_put part self.old.items.items (reverse acts.now) moment) self.old.next) }
    {
        let mut left = acts.len();
        while left > 0 {
            left -= 1;
            if self.step(alloc, part, moment, &acts[left].act)? {
                return Ok(());
            }
        }
        Ok(())
    }

    // Goes back over one act, or to a moment within it. Answers whether it has reached the moment.
    fn step(&mut self, alloc: Global, part: Part, moment: u64, act: &Act) -> Result<bool, NoMemory>
        requires { moments_after act.now 0 ≤ self.old.count }
        ensures { IfOk result (λ reached. Steps reached part moment act.now self.old self.new) }
    {
        match act {
            Act::Put {
                part: other,
                gone,
                failed: _,
            } => self.step_over(alloc, part == *other, moment, gone.as_slice()),
            Act::Flushed => Ok(true),
            Act::Noted { part: _, before: _ } => Ok(false),
            Act::Settled => Ok(false),
        }
    }

    // The same over an item that was put, in this partition or not.
    fn step_over(
        &mut self,
        alloc: Global,
        own: bool,
        moment: u64,
        gone: &[Item],
    ) -> Result<bool, NoMemory>
        requires { 2 ≤ self.old.count }
        ensures { IfOk result (λ reached. PutSteps reached own moment gone.now self.old self.new) }
    {
        let cut = self.count - 2;
        if cut < moment {
            return Ok(true);
        }
        if own {
            self.next = Some((self.items.len() as u64).saturating_sub(1));
            let _ = self.items.pop();
        }
        if cut == moment {
            return Ok(true);
        }
        if own {
            append_copies(alloc, &mut self.items, gone)?;
        }
        self.count = cut;
        Ok(false)
    }
}
