use crate::scripts::ScriptWhy;
use tape_types::NoMemory;

/// Why a line gives no call.
#[derive(Clone, Copy, Debug, PartialEq, Eq)]
pub enum LineFault {
    /// The line is refused, for the first of the reasons that holds of it.
    Bad(ScriptWhy),
    /// Memory was refused, so nothing is known of the line.
    NoMemory,
}

impl From<NoMemory> for LineFault {
    ghost use Rattle.std.specs.Prelude.{◌≡◌};
    ghost use Rattle.session_script.specs.declared.faults.LineFault.TheVariants as faults;

    ghost from_gives = { λ _ e. e ≡ faults.NoMemory };

    fn from(_e: NoMemory) -> LineFault {
        LineFault::NoMemory
    }
}

impl From<ScriptWhy> for LineFault {
    ghost use Rattle.std.specs.Prelude.{◌≡◌};
    ghost use Rattle.session_script.specs.declared.faults.LineFault.TheVariants as faults;

    ghost from_gives = { λ why e. e ≡ faults.Bad why };

    fn from(why: ScriptWhy) -> LineFault {
        LineFault::Bad(why)
    }
}
