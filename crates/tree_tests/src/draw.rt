// Numbers that look like drawn ones.
ghost use Rattle.std.specs.Prelude.{◌<◌};

/// A linear congruence: the same numbers for the same seed.
#[derive(Drop)]
pub struct Draw {
    pub seed: u64,
}

impl Draw {
    /// The next number below a bound.
    pub fn below(&mut self, bound: u64) -> u64
        requires { 0 < bound }
        ensures { result < bound }
    {
        self.seed = self
            .seed
            .wrapping_mul(6364136223846793005)
            .wrapping_add(1442695040888963407);
        (self.seed >> 33) % bound
    }
}
