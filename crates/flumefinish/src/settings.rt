// The settings of the flume's passes.
ghost use Rattle.std.specs.Prelude.{◌≡◌};
ghost use Rattle.flume.specs.Flume.{level_settings};

use flume::FlumeSettings;
use lattice::Settings;

// The flume's gravity has no y.
pub fn level(g: FlumeSettings) -> Settings
    ensures { result ≡ level_settings g }
{
    Settings {
        p: g.p,
        gx: g.gx,
        gy: 0,
        gz: g.gz,
        turbulent: g.turbulent,
    }
}
