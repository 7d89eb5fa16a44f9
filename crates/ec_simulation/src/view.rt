//! What lines can print and expect of a world.
ghost use Rattle.std.specs.Prelude.{◌≡◌};
ghost use Rattle.ec_simulation.specs.Views.{view_of};

use ec_script::MasterView;
use ec_world::World;

/// What lines can print and expect of the master of a world.
pub fn view_of<'w, 'p>(world: &'w World<'p>) -> MasterView<'w, 'p>
    ensures { result ≡ view_of world.now }
{
    MasterView {
        outcome: world.outcome(),
        report: world.report(),
        master: world.master(),
        byte: world.byte(),
    }
}
