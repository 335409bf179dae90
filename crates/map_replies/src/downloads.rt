//! The rest of a download, which is read by its ticket between other replies.
ghost use Rattle.std.specs.Prelude.{◌≡◌, ◌<◌, ◌+◌, Ok, MatchOption, length};
ghost use Rattle.http_serve.specs.Parts.{rest_outcome};
ghost use Rattle.map_replies.specs.Tickets.{place_of, ticket_for, KeepsTickets, ReadsRest};

use crate::calls::Calls;
use http_serve::{RestFault, Ticket};
use published_tiles::ArchivePlace;
use sector_disk::Sectors;
use tile_service::TicketFault;

/// Where the archive of a ticket is.
fn place_of(ticket: Ticket) -> ArchivePlace
    ensures { result ≡ place_of ticket }
{
    ArchivePlace {
        generation: ticket.version,
        first: ticket.place,
        len: ticket.total,
    }
}

/// Where a byte of a ticket's content is in the archive, or `None` if that exceeds 64 bits: then it is after the archive's end.
fn archive_offset(ticket: Ticket, offset: u64) -> Option<u64>
    ensures { MatchOption result (ticket.total < ticket.first + offset) (λ at. at ≡ ticket.first + offset) }
{
    ticket.first.checked_add(offset)
}

impl<D: Sectors + Drop> Calls<D> {
    /// The ticket for what the last reply with the archive sends.
    pub(crate) fn ticket(&self) -> Ticket
        ensures { result ≡ ticket_for self.now }
    {
        let place = self.service.archive();
        Ticket {
            version: place.generation,
            place: place.first,
            total: place.len,
            first: self.sending.first,
        }
    }

    /// Reads bytes of a ticket's content from an offset on, if they are there.
    pub(crate) fn read_rest(
        &mut self,
        ticket: Ticket,
        offset: u64,
        part: &mut [u8],
    ) -> Result<(), RestFault>
        ensures read { ReadsRest D.sectors D.honest D.history D.faults self.old ticket offset (length part.old)
            (rest_outcome result part.new) self.new }
        ensures held { KeepsTickets D.honest D.history self.old self.new }
        ensures length { length part.new ≡ length part.old }
    {
        let Some(at) = archive_offset(ticket, offset) else {
            return Err(RestFault::Gone);
        };
        match self
            .service
            .read_ticket(place_of(ticket), self.oldest, at, part)
        {
            Ok(()) => Ok(()),
            Err(TicketFault::Gone) => Err(RestFault::Gone),
            Err(TicketFault::Device) => Err(RestFault::Failed),
        }
    }
}
