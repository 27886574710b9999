ghost use Rattle.std.specs.Prelude.{◌≡◌};
ghost use Rattle.mine_model.specs.Draws.{next_state};

/// The state of the generator of draws behind this one.
pub fn next_state(state: u64) -> u64
    ensures { result ≡ next_state state }
{
    state
        .wrapping_mul(6_364_136_223_846_793_005)
        .wrapping_add(1_442_695_040_888_963_407)
}
