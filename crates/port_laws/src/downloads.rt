//! What a download is of.
ghost use Rattle.std.specs.Prelude.{◌≡◌, ◌≤◌, ◌+◌, ℕ, List, Ok, length, take, drop};
ghost use Rattle.http_requests.specs.Requests.{RequestView};
ghost use Rattle.http_serve.specs.Reply.{ReplyView};
ghost use Rattle.tile_service.specs.Service.{ShowsArchive};
ghost use Rattle.map_replies.specs.State.{ServiceSends, asked_service};
ghost use Rattle.map_replies.specs.Tickets.{ticket_for, KeepsTickets, ReadsRest};
ghost use Rattle.map_replies.specs.declared.service.MapReplies.{MapReplies};

use sector_disk::Sectors;

/// A download is of one archive. A reply sends the archive, and bytes of its content are read by its ticket, whatever was asked in between:
/// for each archive that the disk had when the reply began, they are the bytes of the content that the reply has, if the disk is honest
/// after the read.
pub fn download_is_of_one_archive<D: Sectors>()
    ensures { (old at before after : MapReplies D) (request : RequestView) (reply : ReplyView) (offset : ℕ) (bytes archive : List ℕ)
        → ServiceSends D.sectors D.honest D.history D.faults old request reply at
        → at.calls.oldest ≤ (asked_service at).generation → KeepsTickets D.honest D.history at.calls before.calls
        → ReadsRest D.sectors D.honest D.history D.faults before.calls (ticket_for at.calls) offset (length bytes) (Ok bytes) after.calls
        → D.honest (asked_service after).disk → ShowsArchive (D.history (asked_service old).disk) (asked_service old) archive
        → offset + length bytes ≤ length reply.content → bytes ≡ take (length bytes) (drop offset reply.content) }
{}
