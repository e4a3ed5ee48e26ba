ghost use Rattle.std.specs.Prelude.{◌≡◌, IfOk};

use crate::calls::{Answer, Facts};
use std::alloc::Global;
use tape_types::NoMemory;

impl Facts {
    /// Second facts that equal these.
    pub fn try_clone(&self, alloc: Global) -> Result<Facts, NoMemory>
        ensures { IfOk result (λ copy. copy ≡ self.now) }
    {
        Ok(Facts {
            sort: self.sort,
            uid: self.uid,
            length: self.length,
            text: self.text.try_clone(alloc)?,
            times: self.times,
        })
    }
}

impl Answer {
    /// A second answer that equals this one. The lines of a listing are shared.
    pub fn try_clone(&self, alloc: Global) -> Result<Answer, NoMemory>
        ensures { IfOk result (λ copy. copy ≡ self.now) }
    {
        match self {
            Answer::Done => Ok(Answer::Done),
            Answer::Synced => Ok(Answer::Synced),
            Answer::Got(bytes) => Ok(Answer::Got(bytes.try_clone(alloc)?)),
            Answer::Names(lines) => Ok(Answer::Names(lines.share()?)),
            Answer::Facts(facts) => Ok(Answer::Facts(facts.try_clone(alloc)?)),
            Answer::Refused(refusal) => Ok(Answer::Refused(*refusal)),
        }
    }
}
