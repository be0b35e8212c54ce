//! Laws of machines with applications. Each function does nothing: its clauses are the law.
ghost use Rattle.std.specs.Prelude.{◌≡◌, filter, length};
ghost use Rattle.app_loads.specs.declared.loaded.LoadedApp.{LoadedApp};
ghost use Rattle.app_loads.specs.Alike.{AreAlike};
ghost use Rattle.app_loads.specs.Applications.{AreApps};
ghost use Rattle.app_loads.specs.Host.{Host};
ghost use Rattle.app_loads.specs.Leaving.{is_delivery_of, NoneUnderWay};

use mesh_core::laws::each_target_has_one_way;

/// Two machines with the same applications, with the same packets unsent, on which no copy waits and none was dropped, have as
/// many deliveries of an application of which no packet is unsent.
pub fn alike_machines_have_as_many_deliveries()
    ensures { (h g : Host) (app : LoadedApp) → AreApps h → AreApps g → AreAlike h g
        → NoneUnderWay h.mesh app
        → length (filter (is_delivery_of app) h.mesh.delivered)
        ≡ length (filter (is_delivery_of app) g.mesh.delivered) }
{
    each_target_has_one_way();
}
