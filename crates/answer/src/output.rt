// Standard output, answer by answer.
ghost use Rattle.std.specs.Prelude.{◌≡◌, ◌+◌};
ghost use Rattle.answer.specs.Run.{IsNext};

// How many answers were written. No contract can say what a write does; but a count is made here alone, and only by handing over the next answer.
#[derive(Clone, Copy)]
pub struct Written {
    count: usize,
}

impl Written {
    pub fn nothing() -> Written
        ensures { result.count ≡ 0 }
    {
        Written { count: 0 }
    }

    // Writes the next answer to the datagram, which is there to say which one that is.
    pub fn send(self, datagram: &[u8], answer: &[u8]) -> Written
        requires { IsNext datagram.now self.count answer.now }
        ensures { result.count ≡ self.count + 1 }
    {
        io::write_all(1, answer);
        Written {
            count: self.count + 1,
        }
    }
}
