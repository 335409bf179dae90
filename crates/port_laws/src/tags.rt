//! Tags of tiles.
ghost use Rattle.service_laws.specs.Inside.{IsInside};
ghost use Rattle.service_laws.specs.Moments.{TakesBetweenReads};
ghost use Rattle.std.specs.Prelude.{◌≡◌, ℕ, List, Some};
ghost use Rattle.feature_store.specs.Layers.{layers};
ghost use Rattle.http_requests.specs.Requests.{RequestView};
ghost use Rattle.http_serve.specs.Reply.{ReplyView};
ghost use Rattle.http_serve.specs.declared.replies.Tag.{Tag};
ghost use Rattle.map_replies.specs.Meanings.{Replies, asked_for};
ghost use Rattle.tile_routes.specs.Paths.{asked_tile};
ghost use Rattle.tile_routes.specs.declared.access.Access.{Access};
ghost use Rattle.tile_routes.specs.declared.target.TileFormat.{TileFormat};
ghost use Rattle.tile_service.specs.Machine.{Happening};
ghost use Rattle.tile_service.specs.Runs.{TakesRun};
ghost use Rattle.tile_service.specs.Service.{ServiceView};

use sector_disk::Sectors;

/// Equal tags mean equal tiles. Two requests for one tile were answered, and the service did whatever it did in between. If both replies
/// have the same tag, the tile had the same layers when they were made. So a client that names the tag of a tile which it has may be told
/// 304.
pub fn equal_tags_are_equal_tiles<D: Sectors>()
    ensures { (access : Access) (start : ℕ) (first between second after : ServiceView D) (run : List Happening) (one other : RequestView)
        (reply again : ReplyView) (tag : Tag) (z x y : ℕ) (f g : TileFormat)
        → Replies D.sectors D.honest D.history D.faults access (Some start) first one reply between
        → TakesRun D.sectors D.honest D.history between run second
        → Replies D.sectors D.honest D.history D.faults access (Some start) second other again after
        → asked_for access one ≡ asked_tile z x y f → asked_for access other ≡ asked_tile z x y g
        → reply.tag ≡ Some tag → again.tag ≡ Some tag
        → layers second.features z x y ≡ layers first.features z x y }
{}

/// So they do over a port, where downloads were read and a publication was prepared between the calls. Each tile inside of the tile had the same layers
/// too. So a client that shows many tiles may ask for the tag of one that they lie in.
pub fn equal_tags_are_equal_tiles_inside<D: Sectors>()
    ensures { (access : Access) (start : ℕ) (first between second after : ServiceView D) (run : List Happening) (one other : RequestView)
        (reply again : ReplyView) (tag : Tag) (z x y : ℕ) (f g : TileFormat)
        → Replies D.sectors D.honest D.history D.faults access (Some start) first one reply between
        → TakesBetweenReads D.sectors D.honest D.history between run second
        → Replies D.sectors D.honest D.history D.faults access (Some start) second other again after
        → asked_for access one ≡ asked_tile z x y f → asked_for access other ≡ asked_tile z x y g
        → reply.tag ≡ Some tag → again.tag ≡ Some tag
        → (inner_z inner_x inner_y : ℕ) → IsInside z x y inner_z inner_x inner_y
        → layers second.features inner_z inner_x inner_y ≡ layers first.features inner_z inner_x inner_y }
{}
