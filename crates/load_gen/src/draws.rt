// The pseudorandom numbers that choose the lines of a script.

ghost use Rattle.std.specs.Prelude.{◌≡◌, ◌<◌};
ghost use Rattle.load_gen.specs.Draws.{drawn, next};

// A linear congruential generator. Its numbers are the upper 31 bits of its state.
#[derive(Drop)]
pub struct Draws {
    pub state: u64,
}

impl Draws {
    // Steps the generator and returns a number below `k`.
    pub fn draw(&mut self, k: u64) -> u64
        requires { 0 < k }
        ensures state { self.new.state ≡ next self.old.state }
        ensures number { result ≡ drawn k (next self.old.state) }
        ensures below { result < k }
    {
        self.state = self
            .state
            .wrapping_mul(6_364_136_223_846_793_005)
            .wrapping_add(1_442_695_040_888_963_407);
        (self.state >> 33) % k
    }
}
