//! How a live run ends.
use tea_base::WantOfMemory;
use view_shell::ViewEnd;

/// How a live run ends.
#[derive(Clone, Copy, Debug, PartialEq, Eq)]
pub enum LiveEnd {
    /// As its view.
    View(ViewEnd),
    /// A read of the feed failed.
    ReadFault,
}

impl From<ViewEnd> for LiveEnd {
    ghost use Rattle.std.specs.Prelude.{◌≡◌};
    ghost use Rattle.live_shell.specs.declared.ending.LiveEnd.TheVariants as lives;

    ghost from_gives = { λ end live. live ≡ lives.View end };

    fn from(end: ViewEnd) -> Self {
        LiveEnd::View(end)
    }
}

impl From<WantOfMemory> for LiveEnd {
    ghost use Rattle.std.specs.Prelude.{◌≡◌};
    ghost use Rattle.view_shell.specs.declared.ending.ViewEnd.TheVariants as ends;
    ghost use Rattle.live_shell.specs.declared.ending.LiveEnd.TheVariants as lives;

    ghost from_gives = { λ _ live. live ≡ lives.View ends.WantOfMemory };

    fn from(_error: WantOfMemory) -> Self {
        LiveEnd::View(ViewEnd::WantOfMemory)
    }
}
