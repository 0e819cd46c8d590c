//! The generator of numbers, and what a number that is drawn says.

ghost use Rattle.std.specs.Prelude.{◌≡◌};
ghost use Rattle.po_sample.specs.Draws as draws;

/// Where the generator stands.
#[derive(Drop)]
pub struct Draws(pub u64);

impl Draws {
    /// Where the generator stands at the start of unit `k`.
    pub fn of_unit(seed: u32, k: u32) -> Draws
        ensures { result.0 ≡ draws.start seed k }
    {
        Draws(u64::from(seed).wrapping_add(u64::from(k).wrapping_mul(11400714819323198485)))
    }

    /// The next number, below 2^31.
    fn next(&mut self) -> u32
        ensures goes_on { self.new.0 ≡ draws.step self.old.0 }
        ensures number { result ≡ draws.number self.new.0 }
    {
        let Draws(x) = self;
        *x = x
            .wrapping_mul(6364136223846793005)
            .wrapping_add(1442695040888963407);
        (*x >> 33) as u32
    }

    /// The kind of a statement.
    pub fn kind(&mut self) -> u32
        ensures goes_on { self.new.0 ≡ draws.step self.old.0 }
        ensures kind { result ≡ draws.kind self.new.0 }
    {
        self.next() % 4
    }

    /// A place in the frame.
    pub fn place(&mut self) -> u32
        ensures goes_on { self.new.0 ≡ draws.step self.old.0 }
        ensures place { result ≡ draws.place self.new.0 }
    {
        1 + self.next() % 8
    }

    /// A constant.
    pub fn constant(&mut self) -> u32
        ensures goes_on { self.new.0 ≡ draws.step self.old.0 }
        ensures constant { result ≡ draws.constant self.new.0 }
    {
        self.next() % 400
    }
}
