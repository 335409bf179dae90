//! The archive published last.
ghost use Rattle.std.specs.Prelude.{◌≡◌, ◌≢◌, false, ◌<◌, ◌≤◌, ◌+◌, length, IfOk, IfErr, IfSome, OnOk, None, option_map};
ghost use Rattle.http_serve.specs.Reply.{head_view, HasShortWords};
ghost use Rattle.sector_disk.specs.Disk.{HasFailed};
ghost use Rattle.tile_routes.specs.declared.method.Method.TheVariants.{Head};
ghost use Rattle.tile_service.specs.Machine.{read};
ghost use Rattle.tile_service.specs.Runs.{Takes};
ghost use Rattle.tile_service.specs.Service.{status_of};
ghost use Rattle.map_replies.specs.Conditions.{ask_view};
ghost use Rattle.map_replies.specs.Meanings.{OrNoMemory, MeansArchive, MeansRange, Answers, DiskFailed};
ghost use Rattle.http_serve.specs.Parts.{read_outcome};
ghost use Rattle.map_replies.specs.Sending.{IsAnsweredInParts, IsBegun, BeginsOrFails, AnswersPart, IsSending, SendsAsked};
ghost use Rattle.map_replies.specs.Parts.{archive_tag, shown_tag};
ghost use Rattle.map_replies.specs.State.{sent_by};
ghost use Rattle.map_replies.specs.Tickets.{KeepsTickets};

use crate::calls::Calls;
use crate::conditions::{Ask, Judged, judge};
use crate::fault::RequestFault;
use crate::parts::{self, ArchiveRange, Sending, begin_size, is_head, part_of};
use http_serve::{Content, ContentFault, EntityTag, Reply, Tag};
use sector_disk::Sectors;
use std::alloc::AllocError;
use tile_routes::Method;

/// The tag of the archive in a reply, where replies have entity tags.
fn shown_tag(tags: Option<u64>, tag: EntityTag) -> Option<Tag>
    ensures { result ≡ shown_tag tags tag }
{
    match tags {
        None => None,
        Some(_) => Some(Tag::Strong(tag)),
    }
}

impl<D: Sectors + Drop> Calls<D> {
    /// `count` bytes of the archive from offset `at` on, or `None` if a disk read fails.
    fn archive_bytes(&mut self, at: u64, count: u64) -> Result<Option<Vec<u8>>, RequestFault>
        requires { at + count ≤ self.old.service.archive_len }
        ensures read { IfOk result (λ content. Takes D.sectors D.honest D.history self.old.service
            (read at (option_map (λ bytes. bytes.items) content)) self.new.service) }
        ensures failed { IfOk result (λ content. content ≡ None
            → HasFailed (D.faults self.old.service.disk) (D.faults self.new.service.disk)) }
        ensures unfailed { IfOk result (λ content. IfSome content (λ _.
            D.faults self.new.service.disk ≡ D.faults self.old.service.disk)) }
        ensures length { IfOk result (λ content. IfSome content (λ bytes. length bytes.items ≡ count)) }
        ensures refused { IfErr result (λ fault. (self.new.service ≡ self.old.service) × (fault ≡ RequestFault.Memory)) }
        ensures held { KeepsTickets D.honest D.history self.old self.new }
        ensures oldest { self.new.oldest ≡ self.old.oldest }
    {
        let Ok(mut bytes) = vec![in self.alloc; 0; count as usize] else {
            return Err(RequestFault::Memory);
        };
        match self.service.archive_read(at, &mut bytes) {
            Ok(()) => Ok(Some(bytes)),
            Err(_) => Ok(None),
        }
    }

    /// `length` bytes of the archive from offset `first` on, as content sent in parts. Those in the first sectors are read at once,
    /// unless only the head is sent. `None` if a read fails.
    fn send(&mut self, first: u64, length: u64, bare: bool) -> Result<Option<Content>, RequestFault>
        requires { first + length ≤ self.old.service.archive_len }
        ensures begun { IfOk result (BeginsOrFails D.sectors D.honest D.history self.old.service self.new.service first length) }
        ensures failed { IfOk result (λ content. content ≡ None
            → HasFailed (D.faults self.old.service.disk) (D.faults self.new.service.disk)) }
        ensures unfailed { IfOk result (λ content. IfSome content (λ _.
            D.faults self.new.service.disk ≡ D.faults self.old.service.disk)) }
        ensures sending { IfOk result (λ content. IfSome content (λ _. self.new.sending ≡ record { first = first; length = length })) }
        ensures refused { IfErr result (λ fault. (self.new.service ≡ self.old.service) × (fault ≡ RequestFault.Memory)) }
        ensures some { bare ≡ false → IfOk result (λ content. IfSome content IsBegun) }
        ensures held { KeepsTickets D.honest D.history self.old self.new }
        ensures oldest { self.new.oldest ≡ self.old.oldest }
    {
        match self.archive_bytes(first, begin_size(first, length, bare)) {
            Ok(Some(begun)) => {
                self.sending = Sending { first, length };
                Ok(Some(Content::Parts {
                    first: begun,
                    length,
                }))
            }
            Ok(None) => Ok(None),
            Err(fault) => Err(fault),
        }
    }

    /// The tag of the archive.
    fn archive_tag(&self) -> EntityTag
        ensures { result ≡ archive_tag (status_of self.now.service) }
    {
        let place = self.service.archive();
        EntityTag {
            version: place.generation,
            change: self.service.published(),
            length: place.len,
        }
    }

    /// The whole archive, which has so many bytes and this tag.
    fn whole_archive(
        &mut self,
        total: u64,
        tag: Option<Tag>,
        bare: bool,
    ) -> Result<Reply, RequestFault>
        requires { total ≡ self.old.service.archive_len }
        ensures answered { IfOk result (AnswersPart D.sectors D.honest D.history D.faults tag ArchiveRange.Whole
            self.old.service self.new.sending self.new.service) }
        ensures words { IfOk result (λ reply. HasShortWords (head_view reply)) }
        ensures refused { IfErr result (λ fault. (self.new.service ≡ self.old.service) × (fault ≡ RequestFault.Memory)) }
        ensures some { bare ≡ false → IfOk result (λ reply. IsBegun reply.content) }
        ensures held { KeepsTickets D.honest D.history self.old self.new }
        ensures oldest { self.new.oldest ≡ self.old.oldest }
    {
        match self.send(0, total, bare) {
            Ok(Some(content)) => Ok(parts::whole(tag, content)),
            Ok(None) => Ok(parts::unread()),
            Err(fault) => Err(fault),
        }
    }

    /// The bytes from `first` to `last` inclusive of the archive, which has so many bytes and this tag.
    fn archive_part(
        &mut self,
        first: u64,
        last: u64,
        total: u64,
        tag: Option<Tag>,
        bare: bool,
    ) -> Result<Reply, RequestFault>
        requires total { total ≡ self.old.service.archive_len }
        requires order { first ≤ last }
        requires within { last < total }
        ensures answered { IfOk result (AnswersPart D.sectors D.honest D.history D.faults tag (ArchiveRange.Between first last)
            self.old.service self.new.sending self.new.service) }
        ensures words { IfOk result (λ reply. HasShortWords (head_view reply)) }
        ensures refused { IfErr result (λ fault. (self.new.service ≡ self.old.service) × (fault ≡ RequestFault.Memory)) }
        ensures some { bare ≡ false → IfOk result (λ reply. IsBegun reply.content) }
        ensures held { KeepsTickets D.honest D.history self.old self.new }
        ensures oldest { self.new.oldest ≡ self.old.oldest }
    {
        match self.send(first, last + 1 - first, bare) {
            Ok(Some(content)) => Ok(parts::between(first, last, total, tag, content)),
            Ok(None) => Ok(parts::unread()),
            Err(fault) => Err(fault),
        }
    }

    /// The part that a range selects of the archive, which has so many bytes and this tag. Nothing is read if only the head is sent.
    fn archive_in(
        &mut self,
        range: Option<&[u8]>,
        total: u64,
        tag: Option<Tag>,
        bare: bool,
    ) -> Result<Reply, RequestFault>
        requires total { total ≡ self.old.service.archive_len }
        requires some { 0 < total }
        ensures answered { IsAnsweredInParts
            (Answers D.sectors D.honest D.history
            (OrNoMemory (MeansRange (DiskFailed D.faults self.old.service self.new.service) self.old.service.archive_len tag
            (option_map (λ value. value.now) range.entry)))
            self.old.service self.new.service)
            (IsSending D.sectors D.honest D.history D.faults tag (option_map (λ value. value.now) range.entry)
            self.old.service self.new.sending self.new.service) result }
        ensures words { IfOk result (λ reply. HasShortWords (head_view reply)) }
        ensures some { bare ≡ false → IfOk result (λ reply. IsBegun reply.content) }
        ensures held { KeepsTickets D.honest D.history self.old self.new }
        ensures oldest { self.new.oldest ≡ self.old.oldest }
    {
        match part_of(range, total) {
            ArchiveRange::Whole => self.whole_archive(total, tag, bare),
            ArchiveRange::Between { first, last } => {
                self.archive_part(first, last, total, tag, bare)
            }
            ArchiveRange::Beyond => Ok(parts::beyond(total)),
        }
    }

    /// What GET or HEAD asks of the archive. Nothing is read if only the head is sent.
    pub(crate) fn archive(&mut self, ask: Ask<'_>, method: Method) -> Result<Reply, RequestFault>
        ensures answered { IsAnsweredInParts
            (Answers D.sectors D.honest D.history
            (OrNoMemory (MeansArchive (DiskFailed D.faults self.old.service self.new.service) (archive_tag (status_of self.old.service))
            method (ask_view ask.entry))) self.old.service self.new.service)
            (SendsAsked D.sectors D.honest D.history D.faults method (ask_view ask.entry)
            self.old.service self.new.sending self.new.service) result }
        ensures words { IfOk result (λ reply. HasShortWords (head_view reply)) }
        ensures some { method ≢ Head → IfOk result (λ reply. IsBegun reply.content) }
        ensures held { KeepsTickets D.honest D.history self.old self.new }
        ensures oldest { self.new.oldest ≡ self.old.oldest }
    {
        let tag = self.archive_tag();
        if tag.length == 0 {
            return Err(RequestFault::NotFound);
        }
        let shown = shown_tag(ask.tags, tag);
        match judge(self.alloc, tag, ask) {
            Ok(Judged::Holds) => {
                self.archive_in(ask.range_for(method), tag.length, shown, is_head(method))
            }
            Ok(Judged::Fails) => Err(RequestFault::Condition),
            Ok(Judged::Unchanged) => Ok(parts::unchanged(shown)),
            Err(AllocError) => Err(RequestFault::Memory),
        }
    }

    /// Reads more of what is being sent, from an offset on.
    pub(crate) fn read_sent(&mut self, offset: u64, part: &mut [u8]) -> Result<(), ContentFault>
        requires { offset + length part.old ≤ sent_by self.old }
        ensures sending { self.new.sending ≡ self.old.sending }
        ensures failed { IfErr result (λ fault. HasFailed (D.faults self.old.service.disk) (D.faults self.new.service.disk)) }
        ensures unfailed { OnOk result (D.faults self.new.service.disk ≡ D.faults self.old.service.disk) }
        ensures read { Takes D.sectors D.honest D.history self.old.service
            (read (self.old.sending.first + offset) (read_outcome result part.new)) self.new.service }
        ensures size { sent_by self.new ≡ sent_by self.old }
        ensures length { length part.new ≡ length part.old }
        ensures held { KeepsTickets D.honest D.history self.old self.new }
        ensures oldest { self.new.oldest ≡ self.old.oldest }
    {
        if part.is_empty() {
            return Ok(());
        }
        let _total = self.service.archive_len();
        match self.service.archive_read(self.sending.first + offset, part) {
            Ok(()) => Ok(()),
            Err(_) => Err(ContentFault),
        }
    }
}
