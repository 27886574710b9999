//! What a prefix still asks of a path.

ghost use Rattle.std.specs.Prelude.{◌≡◌};
ghost use Rattle.mask_sums.specs.Kept.{lacking as lacking_of};
ghost use Rattle.snapshot_project.specs.Aims.{goes, sees};

use stand_sums::Aim;

/// Whether with the rank what is needed is seen.
pub(crate) fn sees(aim: Aim, rank: u32) -> bool
    ensures { result ≡ sees aim.seen aim.need rank }
{
    match aim.need {
        Some(need) => aim.seen || need == rank,
        None => true,
    }
}

/// What is needed and not yet seen.
pub(crate) fn lacking(aim: Aim) -> Option<u32>
    ensures { result ≡ lacking_of aim }
{
    if aim.seen { None } else { aim.need }
}

/// Whether paths with this aim need not write what is needed: where something is needed that was seen.
pub(crate) fn goes_on(aim: Aim) -> bool
    ensures { result ≡ goes aim.seen aim.need }
{
    aim.seen && aim.need.is_some()
}
