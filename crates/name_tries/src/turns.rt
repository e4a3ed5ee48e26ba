/// Whether names seem to come in their order or against it, and which number is put in or taken out next then. This only
/// chooses how names are followed and which number is looked at first, so nothing is promised of it.
#[derive(Clone, Copy)]
pub struct Turns {
    last: u32,
    next: u32,
    in_turn: bool,
}

/// Numbers that are apart no more than this are close.
const CLOSE: u32 = 16;

impl Turns {
    pub fn new() -> Turns {
        Turns {
            last: 0,
            next: 0,
            in_turn: false,
        }
    }

    pub fn in_turn(&self) -> bool {
        self.in_turn
    }

    /// The number that comes next, if numbers come in even steps.
    pub fn next(&self) -> Option<u32> {
        if self.in_turn {
            return Some(self.next);
        }
        None
    }

    /// A number is put in beside another one. Names come in turn where that is close to the number that came before.
    pub fn came_beside(&mut self, number: u32, beside: u32) {
        self.in_turn = beside.abs_diff(self.last) <= CLOSE;
        self.came(number);
    }

    /// A number is put in or taken out.
    pub fn came(&mut self, number: u32) {
        if number != self.last {
            self.next = number.wrapping_add(number.wrapping_sub(self.last));
            self.last = number;
        }
    }
}
