ghost use Rattle.std.specs.Prelude.{◌≡◌, IfOk};

use crate::calls::Entry;
use std::alloc::Global;
use std::marker::Model;
use std::sync::Arc;
use tape_types::{List, NoMemory};

/// The lines of a listing. They are made once, however many answers hold them.
#[derive(Drop)]
pub struct Lines {
    shared: Arc<List<Entry>, Global>,
}

impl Model for Lines {
    ghost use Rattle.std.specs.Prelude.{List};
    ghost use Rattle.std.specs.Arc.{arc_value};
    ghost use Rattle.plain_tree.specs.declared.calls.Entry.{Entry};

    ghost Value = { List Entry };

    ghost view = { λ a. arc_value a.shared };
}

impl Lines {
    pub fn new(alloc: Global, entries: List<Entry>) -> Result<Lines, NoMemory>
        ensures { IfOk result (λ lines. lines ≡ entries) }
    {
        Ok(Lines {
            shared: Arc::new(alloc, entries)?,
        })
    }

    pub fn as_slice(&self) -> &[Entry]
        ensures { result.now ≡ self.now }
    {
        self.shared.as_slice()
    }

    /// The same lines once more, without a copy of one. It is refused where 2^63 answers hold them.
    pub fn share(&self) -> Result<Lines, NoMemory>
        ensures { IfOk result (λ lines. lines ≡ self.now) }
    {
        Ok(Lines {
            shared: Arc::try_clone(&self.shared)?,
        })
    }
}
