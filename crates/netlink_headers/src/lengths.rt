// The two lengths of a message or an attribute, kept apart by their types: outside this file neither is made from the other but by `step`.
ghost use Rattle.std.specs.Prelude.{◌≡◌};
ghost use Rattle.netlink_headers.specs.Lengths.{round_up4};

// A stated length: the header is counted, padding is not.
#[derive(Clone, Copy)]
pub struct Stated(u32);

// The step to what follows: the stated length rounded up to 4.
#[derive(Clone, Copy)]
pub struct Step(usize);

impl Stated {
    pub fn of(bytes: u32) -> Stated
        ensures { result.0 ≡ bytes }
    {
        Stated(bytes)
    }

    // The only way from a stated length to a step.
    pub fn step(self) -> Step
        ensures { result.0 ≡ round_up4 self.0 }
    {
        let n = self.0 as usize;
        Step((n + 3) / 4 * 4)
    }
}

impl Step {
    pub fn bytes(self) -> usize
        ensures { result ≡ self.0 }
    {
        self.0
    }
}
