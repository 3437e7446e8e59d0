// A linear congruential generator, which draws numbers from a seed.
ghost use Rattle.std.specs.Prelude.{◌<◌, ◌≡◌};
ghost use Rattle.row_generator.specs.Generator.{after_draw, number_drawn};

/// Numbers that a seed determines.
#[derive(Clone, Copy)]
pub struct Draws {
    /// The state. It is the seed before the first draw.
    pub state: u64,
}

impl Draws {
    /// Draws the next number, which is smaller than `most`.
    pub fn next_less_than(&mut self, most: u32) -> u32
        requires { 0 < most }
        ensures state { self.new.state ≡ after_draw self.old.state }
        ensures number { result ≡ number_drawn most self.new.state }
    {
        self.state = self
            .state
            .wrapping_mul(6_364_136_223_846_793_005)
            .wrapping_add(1_442_695_040_888_963_407);
        ((self.state >> 33) % u64::from(most)) as u32
    }
}
