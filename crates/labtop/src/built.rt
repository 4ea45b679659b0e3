// Which settings are built.
ghost use Rattle.std.specs.Prelude.{◌≡◌};
ghost use Rattle.labtop.specs.Settings.{is_built, is_unset, is_without_cutoffs};

use cutclass::{Cut, Cutoffs};
use scapconf::Settings;

fn is_unset(cut: Cut) -> bool
    ensures { result ≡ is_unset cut }
{
    match cut {
        Cut::Unset => true,
        Cut::Endless => false,
        Cut::At(_) => false,
    }
}

fn is_without_cutoffs(cutoffs: &Cutoffs) -> bool
    ensures { result ≡ is_without_cutoffs cutoffs.now }
{
    is_unset(cutoffs.default)
        && is_unset(cutoffs.fore)
        && is_unset(cutoffs.back)
        && cutoffs.classes.as_slice().is_empty()
}

/// Whether all that the settings say is built.
pub(crate) fn is_built(settings: &Settings) -> bool
    ensures { result ≡ is_built settings.now }
{
    settings.set.shape.overlap == 0
        && settings.set.shape.flush == 0
        && is_without_cutoffs(&settings.set.cutoffs)
        && settings.rules.as_slice().is_empty()
}
