//! The numbers that a seed gives, one after another.
ghost use Rattle.std.specs.Prelude.{◌≡◌, ◌<◌};
ghost use Rattle.wm_gen.specs.Script.{draw, next};

/// By which a state is multiplied.
const FACTOR: u64 = 6_364_136_223_846_793_005;

/// What is added to it then.
const INCREMENT: u64 = 1_442_695_040_888_963_407;

/// The low bits of a state repeat themselves soon, and are left out of what is drawn.
const LOW_BITS: u32 = 33;

#[tactic(auto, using(crate::proofs::Drawn::wraps_once), unfolding(crate::specs::Script::next))]
fn next(state: u64) -> u64
    ensures { result ≡ next state }
{
    state.wrapping_mul(FACTOR).wrapping_add(INCREMENT)
}

/// Draws one of the numbers below the bound, and goes on to the next state.
#[tactic(auto, unfolding(crate::specs::Script::draw))]
pub(crate) fn draw(state: &mut u64, bound: u64) -> u64
    requires { 0 < bound }
    ensures drawn { result ≡ draw bound state.old }
    ensures state { state.new ≡ next state.old }
    ensures below { result < bound }
{
    *state = next(*state);
    (*state >> LOW_BITS) % bound
}
