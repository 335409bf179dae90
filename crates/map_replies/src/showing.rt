//! Reads of the map.
ghost use Rattle.std.specs.Prelude.{◌≡◌, [], Some, IfOk, IfErr};
ghost use Rattle.edit_json.specs.Json.{json_of};
ghost use Rattle.feature_model.specs.Limits.{FeatureFits};
ghost use Rattle.edit_text.specs.Views.{feature_view};
ghost use Rattle.http_serve.specs.Reply.{reply_view, IsWhole};
ghost use Rattle.serde_json.specs.Written.{compact_text};
ghost use Rattle.tile_service.specs.Machine.{OrMemory, tile, look, look_from, metadata};
ghost use Rattle.tile_service.specs.Runs.{Takes};
ghost use Rattle.tile_service.specs.Service.{status_view};
ghost use Rattle.map_replies.specs.Bodies.{IsJson};
ghost use Rattle.map_replies.specs.Meanings.{MeansCall, MeansLook, MeansTagged, MeansTile, MeansStatus, OrNoMemory, Answers, DiskFailed};
ghost use Rattle.map_replies.specs.Sending.{IsAnswered, IsShownAs};
ghost use Rattle.map_replies.specs.Words.{json_reply, shown_reply, content_reply, found_reply, numbered_body, numbered_reply, metadata_reply};
ghost use Rattle.map_replies.specs.Tickets.{KeepsTickets};

use crate::calls::Calls;
use crate::conditions::{Ask, names_tile};
use crate::fault::RequestFault;
use crate::{replies, telling};
use edit_json::feature_to_json;
use edit_text::FeatureText;
use hilbert_id::TileAt;
use http_serve::{Fields, Reply, WeakTag};
use http_values::{MAX_DIGITS, push_number, push_text};
use sector_disk::Sectors;
use std::alloc::{AllocError, Global};
use tile_routes::TileFormat;
use tile_service::Service;

/// The text of a feature.
pub(crate) fn feature_text(alloc: Global, feature: FeatureText<'_>) -> Result<Vec<u8>, AllocError>
    requires { FeatureFits (feature_view feature) }
    ensures text { IfOk result (λ text. text.items ≡ compact_text (json_of (feature_view feature.entry))) }
    // Read as the body of a PUT is, it has the feature's value.
    ensures reads { IfOk result (λ text. IsJson text.items (json_of (feature_view feature.entry))) }
{
    let value = feature_to_json(alloc, feature)?;
    Ok(value.to_vec(alloc)?)
}

/// The reply with a feature.
fn feature_value(alloc: Global, feature: FeatureText<'_>) -> Result<Reply, RequestFault>
    requires { FeatureFits (feature_view feature) }
    ensures reply { IfOk result (λ reply. reply_view [] reply ≡ found_reply (Some (feature_view feature.entry))) }
    ensures reads { IfOk result (λ reply. IsJson (reply_view [] reply).content (json_of (feature_view feature.entry))) }
    ensures writable { IfOk result IsWhole }
    ensures fault { IfErr result (λ fault. fault ≡ RequestFault.Memory) }
{
    match feature_text(alloc, feature) {
        Ok(text) => Ok(replies::json(text)),
        Err(AllocError) => Err(RequestFault::Memory),
    }
}

/// The text of a feature with its id.
#[tactic(auto, unfolding(crate::specs::Words::numbered_body))]
pub(crate) fn numbered_body(alloc: Global, feature: &[u8], id: u64) -> Result<Vec<u8>, AllocError>
    ensures { IfOk result (λ text. text.items ≡ numbered_body feature.now id) }
{
    let mut text = Vec::with_capacity(alloc, feature.len() + MAX_DIGITS + 18)?;
    push_text(&mut text, b"{\"feature\":");
    push_text(&mut text, feature);
    push_text(&mut text, b",\"id\":");
    push_number(&mut text, id);
    push_text(&mut text, b"}");
    Ok(text)
}

/// The reply with a feature and its id.
fn numbered_value(alloc: Global, id: u64, feature: FeatureText<'_>) -> Result<Reply, RequestFault>
    requires { FeatureFits (feature_view feature) }
    ensures reply { IfOk result (λ reply. reply_view [] reply ≡ numbered_reply (Some (id, feature_view feature.entry))) }
    ensures writable { IfOk result IsWhole }
    ensures fault { IfErr result (λ fault. fault ≡ RequestFault.Memory) }
{
    let Ok(feature) = feature_text(alloc, feature) else {
        return Err(RequestFault::Memory);
    };
    match numbered_body(alloc, &feature, id) {
        Ok(text) => Ok(replies::json(text)),
        Err(AllocError) => Err(RequestFault::Memory),
    }
}

impl<D: Sectors + Drop> Calls<D> {
    /// The tile, in this format, and without a tag.
    fn cut_tile(&mut self, at: TileAt, format: TileFormat) -> Result<Reply, RequestFault>
        ensures shown { (outcome : OrMemory _) × Takes D.sectors D.honest D.history self.old.service (tile at.z at.x at.y outcome) self.new.service
            × IsShownAs (content_reply format) outcome result }
        ensures writable { IfOk result IsWhole }
        ensures held { KeepsTickets D.honest D.history self.old self.new }
        ensures oldest { self.new.oldest ≡ self.old.oldest }
    {
        let Ok(content) = self.service.tile(at) else {
            return Err(RequestFault::Memory);
        };
        match replies::tile(format, content) {
            Ok(reply) => Ok(reply),
            Err(AllocError) => Err(RequestFault::Memory),
        }
    }

    /// The tile, in this format, with its tag, unless the client has the tile with this tag.
    fn tagged_tile(
        &mut self,
        at: TileAt,
        format: TileFormat,
        start: u64,
        fields: &Fields<'_>,
    ) -> Result<Reply, RequestFault>
        ensures answered { IsAnswered (Answers D.sectors D.honest D.history
            (MeansTagged start fields.now at.z at.x at.y format) self.old.service self.new.service) result }
        ensures writable { IfOk result IsWhole }
        ensures held { KeepsTickets D.honest D.history self.old self.new }
        ensures oldest { self.new.oldest ≡ self.old.oldest }
    {
        let tag = WeakTag {
            start,
            number: self.service.tile_number(at),
        };
        match names_tile(self.alloc, tag, fields) {
            Ok(true) => Ok(replies::same_tile(tag)),
            Ok(false) => match self.cut_tile(at, format) {
                Ok(reply) => Ok(replies::with_tag(reply, tag)),
                Err(fault) => Err(fault),
            },
            Err(AllocError) => Err(RequestFault::Memory),
        }
    }

    /// The tile, in this format.
    pub(crate) fn tile(
        &mut self,
        at: TileAt,
        format: TileFormat,
        ask: Ask<'_>,
    ) -> Result<Reply, RequestFault>
        ensures answered { IsAnswered (Answers D.sectors D.honest D.history
            (MeansTile ask.entry.tags ask.entry.fields.now at.z at.x at.y format) self.old.service self.new.service) result }
        ensures writable { IfOk result IsWhole }
        ensures held { KeepsTickets D.honest D.history self.old self.new }
        ensures oldest { self.new.oldest ≡ self.old.oldest }
    {
        match ask.tags {
            None => self.cut_tile(at, format),
            Some(start) => self.tagged_tile(at, format, start, ask.fields),
        }
    }

    /// The feature of an id.
    pub(crate) fn feature(&mut self, id: u64) -> Result<Reply, RequestFault>
        ensures answered { IsAnswered (Answers D.sectors D.honest D.history (MeansLook id)
            self.old.service self.new.service) result }
        ensures writable { IfOk result IsWhole }
        ensures held { KeepsTickets D.honest D.history self.old self.new }
        ensures oldest { self.new.oldest ≡ self.old.oldest }
    {
        match self.service.feature(id) {
            Some(feature) => feature_value(self.alloc, feature),
            None => Err(RequestFault::NotFound),
        }
    }

    /// The first feature with an id or a greater one.
    pub(crate) fn feature_from(&mut self, id: u64) -> Result<Reply, RequestFault>
        ensures answered { IsAnswered (Answers D.sectors D.honest D.history (MeansCall (look_from id) (shown_reply numbered_reply))
            self.old.service self.new.service) result }
        ensures writable { IfOk result IsWhole }
        ensures held { KeepsTickets D.honest D.history self.old self.new }
        ensures oldest { self.new.oldest ≡ self.old.oldest }
    {
        match self.service.feature_from(id) {
            Some((number, feature)) => numbered_value(self.alloc, number, feature),
            None => Err(RequestFault::NotFound),
        }
    }

    /// What the service tells of itself, once its disk was asked whether it still keeps what is written.
    pub(crate) fn status(&mut self) -> Result<Reply, RequestFault>
        ensures answered { IsAnswered (Answers D.sectors D.honest D.history
            (OrNoMemory (MeansStatus (DiskFailed D.faults self.old.service self.new.service) (status_view self.new.service)))
            self.old.service self.new.service) result }
        ensures writable { IfOk result IsWhole }
        ensures held { KeepsTickets D.honest D.history self.old self.new }
        ensures oldest { self.new.oldest ≡ self.old.oldest }
    {
        let Ok(text) = telling::status_space(self.alloc) else {
            return Err(RequestFault::Memory);
        };
        // The status tells what came of it.
        let _ = self.service.check();
        Ok(telling::told(text, self.service.drafting(), self.service.status()))
    }

    /// The metadata of the map.
    pub(crate) fn metadata(&mut self) -> Result<Reply, RequestFault>
        ensures answered { IsAnswered (Answers D.sectors D.honest D.history (MeansCall metadata (shown_reply metadata_reply))
            self.old.service self.new.service) result }
        ensures writable { IfOk result IsWhole }
        ensures held { KeepsTickets D.honest D.history self.old self.new }
        ensures oldest { self.new.oldest ≡ self.old.oldest }
    {
        match self.service.metadata() {
            Ok(text) => Ok(replies::shared_json(text)),
            Err(_) => Err(RequestFault::Memory),
        }
    }
}
