// What the controls say of the picture, made once for a call.
ghost use Rattle.std.specs.Prelude.{◌≡◌};
ghost use Rattle.picture.specs.Picture.{look_of};

use crate::Look;
use controller::Control;
use controller::named::counter_cell;

pub(crate) fn look(control: Control, phase: bool) -> Look
    ensures { result ≡ look_of phase control }
{
    let view = control.view;
    let counter = counter_cell(control.place);
    let shown = control.shown;
    Look {
        view,
        counter,
        cursor: shown.cursor,
        blink: shown.blink && phase,
        graphic: control.function.g,
        dark: !shown.display || control.standby,
    }
}
