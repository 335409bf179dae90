//! Pages of features: many in one reply.
ghost use Rattle.std.specs.Prelude.{◌≡◌, ◌<◌, ◌++◌, List, Option, length, IfOk, OnOk};
ghost use Rattle.feature_model.specs.Limits.{FeatureFits};
ghost use Rattle.edit_text.specs.Views.{feature_view};
ghost use Rattle.http_serve.specs.Reply.{IsWhole};
ghost use Rattle.map_replies.specs.Meanings.{MeansPage, Answers};
ghost use Rattle.map_replies.specs.Lists.{comma_if};
ghost use Rattle.map_replies.specs.Pages.{Entry, AreFrom, AreEnough, listed, all_listed, page_end, page_body, id_of};
ghost use Rattle.map_replies.specs.Sending.{IsAnswered};
ghost use Rattle.map_replies.specs.Tickets.{KeepsTickets};

use crate::calls::Calls;
use crate::fault::RequestFault;
use crate::lists::add_listed;
use crate::replies;
use crate::showing::{feature_text, numbered_body};
use edit_text::FeatureText;
use http_serve::Reply;
use http_values::{MAX_DIGITS, push_number, push_text};
use sector_disk::Sectors;
use std::alloc::{AllocError, Global};
use tile_service::Service;

/// Features are listed until their texts have this many bytes together.
pub(crate) const PAGE_BYTES: usize = 65_536;

/// The text of a feature with its id.
fn listed(alloc: Global, id: u64, feature: FeatureText<'_>) -> Result<Vec<u8>, AllocError>
    requires { FeatureFits (feature_view feature) }
    ensures text { IfOk result (λ text. text.items ≡ listed (id, feature_view feature.entry)) }
    ensures some { IfOk result (λ text. 0 < length text.items) }
{
    let feature = feature_text(alloc, feature)?;
    numbered_body(alloc, &feature, id)
}

/// Adds the text of a feature with its id, and returns its length.
pub(crate) fn add_feature(
    alloc: Global,
    text: &mut Vec<u8>,
    more: bool,
    id: u64,
    feature: FeatureText<'_>,
) -> Result<usize, AllocError>
    requires { FeatureFits (feature_view feature) }
    ensures items { OnOk result (text.new.items ≡ text.old.items ++ (comma_if more ++ listed (id, feature_view feature.entry))) }
    ensures size { IfOk result (λ size. size ≡ length (listed (id, feature_view feature.entry))) }
    ensures some { IfOk result (λ size. 0 < size) }
{
    let one = listed(alloc, id, feature)?;
    add_listed(text, more, &one)?;
    Ok(one.len())
}

/// Adds the texts of the features from an id on, with commas between them, until they have `PAGE_BYTES` bytes. Returns the id of the next
/// one, if there is one.
fn add_features<D: Sectors + Drop>(
    alloc: Global,
    text: &mut Vec<u8>,
    service: &Service<D>,
    id: u64,
) -> Result<Option<u64>, AllocError>
    ensures { IfOk result (λ after. (es : List Entry) × (next : Option Entry) × AreFrom service.now.features id es next
        × AreEnough PAGE_BYTES es next × (text.new.items ≡ text.old.items ++ all_listed es) × (after ≡ id_of next)) }
{
    let mut from = id;
    let mut left = PAGE_BYTES;
    let mut more = false;
    while left > 0 {
        let Some((number, feature)) = service.feature_from(from) else {
            return Ok(None);
        };
        let size = add_feature(alloc, text, more, number, feature)?;
        left = left.saturating_sub(size);
        from = number + 1;
        more = true;
    }
    match service.feature_from(from) {
        Some((number, _)) => Ok(Some(number)),
        None => Ok(None),
    }
}

/// Adds the id to ask for next, and ends the text.
#[tactic(auto, unfolding(crate::specs::Pages::page_end))]
pub(crate) fn add_next(
    alloc: Global,
    text: &mut Vec<u8>,
    next: Option<u64>,
) -> Result<(), AllocError>
    ensures { OnOk result (text.new.items ≡ text.old.items ++ page_end next) }
{
    let mut end = Vec::with_capacity(alloc, MAX_DIGITS + 10)?;
    push_text(&mut end, b"],\"next\":");
    match next {
        Some(id) => push_number(&mut end, id),
        None => push_text(&mut end, b"null"),
    }
    push_text(&mut end, b"}");
    text.extend_from_slice(&end)
}

/// The text of a page of the features from an id on.
#[tactic(auto, unfolding(crate::specs::Pages::page_start, crate::specs::Pages::page_body))]
fn page_body<D: Sectors + Drop>(
    alloc: Global,
    service: &Service<D>,
    id: u64,
) -> Result<Vec<u8>, AllocError>
    ensures { IfOk result (λ text. (es : List Entry) × (next : Option Entry) × AreFrom service.now.features id es next
        × AreEnough PAGE_BYTES es next × (text.items ≡ page_body es (id_of next))) }
{
    let mut text = Vec::with_capacity(alloc, PAGE_BYTES)?;
    push_text(&mut text, b"{\"features\":[");
    let next = add_features(alloc, &mut text, service, id)?;
    add_next(alloc, &mut text, next)?;
    Ok(text)
}

impl<D: Sectors + Drop> Calls<D> {
    /// A page of the features from an id on.
    pub(crate) fn feature_page(&mut self, id: u64) -> Result<Reply, RequestFault>
        ensures answered { IsAnswered (Answers D.sectors D.honest D.history (MeansPage id) self.old.service self.new.service) result }
        ensures writable { IfOk result IsWhole }
        ensures held { KeepsTickets D.honest D.history self.old self.new }
        ensures oldest { self.new.oldest ≡ self.old.oldest }
    {
        match page_body(self.alloc, &self.service, id) {
            Ok(text) => Ok(replies::json(text)),
            Err(AllocError) => Err(RequestFault::Memory),
        }
    }
}
