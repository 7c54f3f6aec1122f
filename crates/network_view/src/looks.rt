//! How links look in either form of the picture.
#![tactic(auto, unfolding(crate::specs::Looks::beside_look, crate::specs::Looks::passed_look, crate::specs::Looks::state_look))]

ghost use Rattle.std.specs.Prelude.{◌≡◌};
ghost use Rattle.network_view.specs.Looks.{beside_look, passed_look, state_look};

/// The look of a link that the packet has passed.
pub(crate) fn passed_look(passed: bool) -> &'static str
    ensures { result.now ≡ passed_look passed }
{
    if passed {
        ", color=red, penwidth=4, arrowsize=0.6"
    } else {
        ""
    }
}

/// The end of a link's line, with the look of a link that is cut.
pub(crate) fn state_look(up: bool) -> &'static str
    ensures { result.now ≡ state_look up }
{
    if up { "];\n" } else { ", style=dashed];\n" }
}

/// The look of an AS: one that is not in the part that is shown has a gray name.
pub(crate) fn beside_look(inside: bool) -> &'static str
    ensures { result.now ≡ beside_look inside }
{
    if inside { "" } else { ", fontcolor=gray" }
}
