//! The draws of a number, one after another.
ghost use Rattle.std.specs.Prelude.{◌≡◌, ◌+◌, ◌<◌, ◌^◌, ◌%◌};
ghost use Rattle.generated_index.specs.Generated.{state_after, draw, term_of};

/// A linear congruential generator of 64 bits.
#[derive(Clone, Copy)]
pub(crate) struct Draws {
    /// Where it started.
    number: u32,
    /// How many draws were made.
    made: u64,
    state: u64,
    ghost known: { state ≡ state_after number made },
}

impl Draws {
    /// No draws yet from this number on.
    pub(crate) fn of(number: u32) -> Draws
        ensures number { result.number ≡ number }
        ensures none { result.made ≡ 0 }
    {
        Draws {
            number,
            made: 0,
            state: u64::from(number),
        }
    }

    /// The next draw: 31 bits.
    #[inline]
    fn next(&mut self) -> u32
        requires { self.old.made < 2 ^ 32 }
        ensures drawn { result ≡ draw self.old.number self.old.made }
        ensures below { result < 2 ^ 31 }
        ensures made { self.new.made ≡ self.old.made + 1 }
        ensures same { self.new.number ≡ self.old.number }
    {
        let product = self.state.wrapping_mul(6364136223846793005);
        self.state = product.wrapping_add(1442695040888963407);
        self.made += 1;
        (self.state >> 33) as u32
    }

    /// The next draw as a topic.
    #[inline]
    pub(crate) fn topic(&mut self) -> u32
        requires { self.old.made < 2 ^ 32 }
        ensures drawn { result ≡ draw self.old.number self.old.made % 32 }
        ensures made { self.new.made ≡ self.old.made + 1 }
        ensures same { self.new.number ≡ self.old.number }
    {
        self.next() % 32
    }

    /// The next draw as a term of a document of this topic.
    #[inline]
    pub(crate) fn term(&mut self, topic: u32) -> u32
        requires few { self.old.made < 2 ^ 32 }
        requires topic { topic < 32 }
        ensures drawn { result ≡ term_of topic (draw self.old.number self.old.made) }
        ensures below { result < 2000 }
        ensures made { self.new.made ≡ self.old.made + 1 }
        ensures same { self.new.number ≡ self.old.number }
    {
        let drawn = self.next();
        if drawn % 4 == 3 {
            1280 + drawn / 4 % 720
        } else {
            topic * 40 + drawn / 4 % 40
        }
    }
}
