// Yen of market value and lots of face value, as types of their own: each is added to and taken from its own kind alone.
#![tactic(auto)]

ghost use Rattle.std.specs.Prelude.{◌≡◌, ◌+◌, ◌-◌, ◌*◌, ◌/◌, ◌<◌, ◌≤◌, ◌^◌};

use std::ops::{Add, Sub};

// Yen of market value and lots of face value are never added: only the valuation turns lots into yen.
#[derive(Clone, Copy, PartialEq, Eq, PartialOrd, Ord)]
pub struct Yen(pub u64);

#[derive(Clone, Copy, PartialEq, Eq, PartialOrd, Ord)]
pub struct Lots(pub u64);

impl Yen {
    // Down to a multiple of the step.
    pub fn rounded_down(self, step: Yen) -> Yen
        requires { 0 < step.0 }
        ensures { result.0 ≡ self.0 / step.0 * step.0 }
    {
        Yen(self.0 / step.0 * step.0)
    }

    // Up to a multiple of the step.
    pub fn rounded_up(self, step: Yen) -> Yen
        requires some { 0 < step.0 }
        requires fits { self.0 + step.0 < 2 ^ 64 }
        ensures { result.0 ≡ (self.0 + (step.0 - 1)) / step.0 * step.0 }
    {
        Yen((self.0 + (step.0 - 1)) / step.0 * step.0)
    }
}

impl Add for Yen {
    type Output = Yen;

    ghost can_add = { λ a b. a.0 + b.0 < 2 ^ 64 };

    ghost add_gives = { λ a b r. r.0 ≡ a.0 + b.0 };

    fn add(self, more: Yen) -> Yen {
        Yen(self.0 + more.0)
    }
}

impl Sub for Yen {
    type Output = Yen;

    ghost can_sub = { λ a b. b.0 ≤ a.0 };

    ghost sub_gives = { λ a b r. r.0 ≡ a.0 - b.0 };

    fn sub(self, less: Yen) -> Yen {
        Yen(self.0 - less.0)
    }
}

impl Lots {
    // Down to a multiple of the step.
    pub fn rounded_down(self, step: Lots) -> Lots
        requires { 0 < step.0 }
        ensures { result.0 ≡ self.0 / step.0 * step.0 }
    {
        Lots(self.0 / step.0 * step.0)
    }
}

impl Add for Lots {
    type Output = Lots;

    ghost can_add = { λ a b. a.0 + b.0 < 2 ^ 64 };

    ghost add_gives = { λ a b r. r.0 ≡ a.0 + b.0 };

    fn add(self, more: Lots) -> Lots {
        Lots(self.0 + more.0)
    }
}

impl Sub for Lots {
    type Output = Lots;

    ghost can_sub = { λ a b. b.0 ≤ a.0 };

    ghost sub_gives = { λ a b r. r.0 ≡ a.0 - b.0 };

    fn sub(self, less: Lots) -> Lots {
        Lots(self.0 - less.0)
    }
}
