//! Numbers of tiles, of which their tags are made, over a run between whose calls the disk is read.
ghost use Rattle.std.specs.Prelude.{◌≡◌, ℕ, List};
ghost use Rattle.feature_store.specs.Layers.{layers};
ghost use Rattle.tile_service.specs.Machine.{Happening};
ghost use Rattle.tile_service.specs.Service.{ServiceView};
ghost use Rattle.tile_service.specs.Tags.{HasNumber, TellsNumber};
ghost use Rattle.service_laws.specs.Inside.{IsInside};
ghost use Rattle.service_laws.specs.Moments.{TakesBetweenReads};

use sector_disk::Sectors;

/// If a tile has the number that was told of it before such a run, it and each tile inside of it have the layers that they had then.
pub fn port_numbers_are_of_equal_tiles<D: Sectors>()
    ensures { (old new : ServiceView D) (happenings : List Happening) → TakesBetweenReads D.sectors D.honest D.history old happenings new
        → (z x y number : ℕ) → TellsNumber old z x y number → HasNumber new z x y number
        → (inner_z inner_x inner_y : ℕ) → IsInside z x y inner_z inner_x inner_y
        → layers new.features inner_z inner_x inner_y ≡ layers old.features inner_z inner_x inner_y }
{}
