//! Numbers that are drawn one after another.

ghost use Rattle.std.specs.Prelude.{◌≡◌, ◌<◌};
ghost use Rattle.dl_draw.specs.Generator.{draw};

const FACTOR: u64 = 6_364_136_223_846_793_005;

const SUMMAND: u64 = 1_442_695_040_888_963_407;

/// A state, which each draw moves on.
#[derive(Drop)]
pub(crate) struct Draws {
    pub state: u64,
}

impl Draws {
    pub fn make(seed: u64) -> Draws
        ensures { result.state ≡ seed }
    {
        Draws { state: seed }
    }

    /// Draws a number below a bound.
    #[tactic(auto, using(crate::proofs::Wrapping::wraps), unfolding(crate::specs::Generator::draw))]
    pub fn draw(&mut self, bound: u64) -> u64
        requires { 0 < bound }
        ensures value { result ≡ (draw bound self.old.state).value }
        ensures state { self.new.state ≡ (draw bound self.old.state).state }
        ensures within { result < bound }
    {
        self.state = self.state.wrapping_mul(FACTOR).wrapping_add(SUMMAND);
        (self.state >> 33) % bound
    }
}
