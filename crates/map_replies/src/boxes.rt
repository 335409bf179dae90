//! Pages of the features in a box of the world.
ghost use Rattle.std.specs.Prelude.{◌≡◌, ◌++◌, ℕ, List, Option, Some, length, IfOk};
ghost use Rattle.feature_model.specs.declared.feature.WorldBox.{WorldBox};
ghost use Rattle.feature_store.specs.InBox.{IsInBox, in_box};
ghost use Rattle.feature_store.specs.Store.{feature_from};
ghost use Rattle.http_serve.specs.Reply.{IsWhole};
ghost use Rattle.map_replies.specs.BoxPages.{IsBoxPage};
ghost use Rattle.map_replies.specs.Lists.{comma_if};
ghost use Rattle.map_replies.specs.Meanings.{MeansBox, Answers};
ghost use Rattle.map_replies.specs.Pages.{Entry, AreFrom, listed, all_listed, page_body, id_of};
ghost use Rattle.map_replies.specs.Sending.{IsAnswered};
ghost use Rattle.map_replies.specs.Tickets.{KeepsTickets};

use crate::calls::Calls;
use crate::fault::RequestFault;
use crate::pages::{PAGE_BYTES, add_feature, add_next};
use crate::replies;
use feature_model::WorldBox;
use feature_store::InBox;
use http_serve::Reply;
use http_values::push_text;
use sector_disk::Sectors;
use std::alloc::{AllocError, Global};
use tile_service::Service;

/// Adds the text of the feature with an id that has one, and returns its length.
fn add_numbered<D: Sectors + Drop>(
    alloc: Global,
    text: &mut Vec<u8>,
    more: bool,
    service: &Service<D>,
    id: u64,
) -> Result<usize, AllocError>
    ensures { IfOk result (λ size. (e : Entry) → feature_from service.now.features id ≡ Some e
        → (text.new.items ≡ text.old.items ++ (comma_if more ++ listed e)) × (size ≡ length (listed e))) }
{
    match service.feature_from(id) {
        Some((number, feature)) => add_feature(alloc, text, more, number, feature),
        None => Ok(0),
    }
}

/// Adds the texts of features that were found in a box, with commas between them, until they have `PAGE_BYTES` bytes. Returns the id to ask for
/// next, if there may be more.
fn add_found<D: Sectors + Drop>(
    alloc: Global,
    text: &mut Vec<u8>,
    service: &Service<D>,
    found: &InBox,
) -> Result<Option<u64>, AllocError>
    ensures { (bounds : WorldBox) (id : ℕ) → IsInBox service.now.features bounds id found.now
        → IfOk result (λ after. (looked : List Entry) × (next : Option Entry) × AreFrom service.now.features id looked next
        × IsBoxPage looked (in_box bounds looked) next × (text.new.items ≡ text.old.items ++ all_listed (in_box bounds looked))
        × (after ≡ id_of next)) }
{
    let mut left = PAGE_BYTES;
    let mut more = false;
    for number in &found.numbers {
        if left == 0 {
            return Ok(Some(*number));
        }
        let size = add_numbered(alloc, text, more, service, *number)?;
        left = left.saturating_sub(size);
        more = true;
    }
    Ok(found.next)
}

/// Adds the texts of the features in a box from an id on, with commas between them, until they have `PAGE_BYTES` bytes. Returns the id to ask
/// for next, if there may be more.
fn add_in_box<D: Sectors + Drop>(
    alloc: Global,
    text: &mut Vec<u8>,
    service: &Service<D>,
    bounds: &WorldBox,
    id: u64,
) -> Result<Option<u64>, AllocError>
    ensures { IfOk result (λ after. (looked : List Entry) × (next : Option Entry) × AreFrom service.now.features id looked next
        × IsBoxPage looked (in_box bounds.now looked) next × (text.new.items ≡ text.old.items ++ all_listed (in_box bounds.now looked))
        × (after ≡ id_of next)) }
{
    let found = service.features_in_box(bounds, id)?;
    add_found(alloc, text, service, &found)
}

/// The text of a page of the features in a box from an id on.
#[tactic(auto, unfolding(crate::specs::Pages::page_start, crate::specs::Pages::page_body))]
fn box_body<D: Sectors + Drop>(
    alloc: Global,
    service: &Service<D>,
    bounds: &WorldBox,
    id: u64,
) -> Result<Vec<u8>, AllocError>
    ensures { IfOk result (λ text. (looked : List Entry) × (next : Option Entry) × AreFrom service.now.features id looked next
        × IsBoxPage looked (in_box bounds.now looked) next × (text.items ≡ page_body (in_box bounds.now looked) (id_of next))) }
{
    let mut text = Vec::with_capacity(alloc, PAGE_BYTES)?;
    push_text(&mut text, b"{\"features\":[");
    let next = add_in_box(alloc, &mut text, service, bounds, id)?;
    add_next(alloc, &mut text, next)?;
    Ok(text)
}

impl<D: Sectors + Drop> Calls<D> {
    /// A page of the features in a box from an id on.
    pub(crate) fn box_page(&mut self, bounds: &WorldBox, id: u64) -> Result<Reply, RequestFault>
        ensures answered { IsAnswered (Answers D.sectors D.honest D.history (MeansBox bounds.now id) self.old.service self.new.service) result }
        ensures writable { IfOk result IsWhole }
        ensures held { KeepsTickets D.honest D.history self.old self.new }
        ensures oldest { self.new.oldest ≡ self.old.oldest }
    {
        match box_body(self.alloc, &self.service, bounds, id) {
            Ok(text) => Ok(replies::json(text)),
            Err(AllocError) => Err(RequestFault::Memory),
        }
    }
}
