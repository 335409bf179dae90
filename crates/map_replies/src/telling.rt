//! The status of the service, in JSON.
ghost use Rattle.std.specs.Prelude.{◌≡◌, ◌≤◌, ◌+◌, ◌*◌, ◌++◌, [], vec_len, vec_capacity, IfOk};
ghost use Rattle.http_serve.specs.Reply.{reply_view, IsWhole};
ghost use Rattle.map_replies.specs.Words.{archive_part, truth_text, broken_part, map_part, journal_part, optional_text, published_part, disk_part};
ghost use Rattle.map_replies.specs.Words.{making_text, draft_text, draft_part, status_body, status_reply};
ghost use Rattle.map_replies.specs.declared.telling.TheConstants.{MAX_PART, MAX_STATUS};

use crate::digests::push_digest;
use crate::replies;
use http_serve::Reply;
use http_values::{MAX_DIGITS, push_number, push_text};
use std::alloc::{AllocError, Global};
use tile_service::{Drafting, Status};

/// Capacity for a part: three numbers, and the texts between them.
const MAX_PART: usize = 3 * MAX_DIGITS + 44;

/// Capacity for all parts, and the byte after them.
const MAX_STATUS: usize = 7 * MAX_PART + 1;

/// Adds what the archive takes.
#[tactic(auto, unfolding(crate::specs::Words::archive_part))]
fn push_archive_part(out: &mut Vec<u8>, status: Status)
    requires room { vec_len out.old + MAX_PART ≤ vec_capacity out.old }
    ensures items { out.new.items ≡ out.old.items ++ archive_part status }
    ensures len { vec_len out.new ≤ vec_len out.old + MAX_PART }
    ensures capacity { vec_capacity out.old ≤ vec_capacity out.new }
{
    push_text(out, b"{\"archive\":");
    push_number(out, status.archive_len);
    push_text(out, b",\"area\":{");
    push_text(out, b"\"sectors\":");
    push_number(out, status.area_sectors);
    push_text(out, b",\"used\":");
    push_number(out, status.area_used);
}

/// Adds a truth value.
#[tactic(auto, unfolding(crate::specs::Words::truth_text))]
fn push_truth(out: &mut Vec<u8>, truth: bool)
    requires room { vec_len out.old + MAX_DIGITS ≤ vec_capacity out.old }
    ensures items { out.new.items ≡ out.old.items ++ truth_text truth }
    ensures len { vec_len out.new ≤ vec_len out.old + MAX_DIGITS }
    ensures capacity { vec_capacity out.old ≤ vec_capacity out.new }
{
    if truth {
        push_text(out, b"true");
    } else {
        push_text(out, b"false");
    }
}

/// Adds whether the service is broken, in how many cells edits are counted, and the digest of the map.
#[tactic(auto, unfolding(crate::specs::Words::broken_part))]
fn push_broken_part(out: &mut Vec<u8>, status: Status)
    requires room { vec_len out.old + MAX_PART ≤ vec_capacity out.old }
    ensures items { out.new.items ≡ out.old.items ++ broken_part status }
    ensures len { vec_len out.new ≤ vec_len out.old + MAX_PART }
    ensures capacity { vec_capacity out.old ≤ vec_capacity out.new }
{
    push_text(out, b"},\"broken\":");
    push_truth(out, status.broken);
    push_text(out, b",\"cells\":");
    push_number(out, status.cells);
    push_text(out, b",\"digest\":\"");
    push_digest(out, status.digest);
    push_text(out, b"\"");
}

/// Adds how far a publication in the making is: how many tiles are made, how many entries they need, and how many places of the journal were in use
/// when it began.
#[tactic(auto, unfolding(crate::specs::Words::making_text))]
fn push_making(out: &mut Vec<u8>, drafting: Drafting)
    requires room { vec_len out.old + 3 * MAX_DIGITS + 30 ≤ vec_capacity out.old }
    ensures items { out.new.items ≡ out.old.items ++ making_text drafting }
    ensures len { vec_len out.new ≤ vec_len out.old + 3 * MAX_DIGITS + 30 }
    ensures capacity { vec_capacity out.old ≤ vec_capacity out.new }
{
    push_text(out, b"{\"entries\":");
    push_number(out, drafting.entries);
    push_text(out, b",\"made\":");
    push_number(out, drafting.made);
    push_text(out, b",\"places\":");
    push_number(out, drafting.places);
    push_text(out, b"}");
}

/// Adds the same, or `null` if there is none.
fn push_draft(out: &mut Vec<u8>, drafting: Option<Drafting>)
    requires room { vec_len out.old + 3 * MAX_DIGITS + 30 ≤ vec_capacity out.old }
    ensures items { out.new.items ≡ out.old.items ++ draft_text drafting }
    ensures len { vec_len out.new ≤ vec_len out.old + 3 * MAX_DIGITS + 30 }
    ensures capacity { vec_capacity out.old ≤ vec_capacity out.new }
{
    match drafting {
        Some(drafting) => push_making(out, drafting),
        None => push_text(out, b"null"),
    }
}

/// Adds how far the publication in the making is.
#[tactic(auto, unfolding(crate::specs::Words::draft_part))]
fn push_draft_part(out: &mut Vec<u8>, drafting: Option<Drafting>)
    requires room { vec_len out.old + MAX_PART ≤ vec_capacity out.old }
    ensures items { out.new.items ≡ out.old.items ++ draft_part drafting }
    ensures len { vec_len out.new ≤ vec_len out.old + MAX_PART }
    ensures capacity { vec_capacity out.old ≤ vec_capacity out.new }
{
    push_text(out, b",\"drafting\":");
    push_draft(out, drafting);
}

/// Adds how many edits, features and publications there are.
#[tactic(auto, unfolding(crate::specs::Words::map_part))]
fn push_map_part(out: &mut Vec<u8>, status: Status)
    requires room { vec_len out.old + MAX_PART ≤ vec_capacity out.old }
    ensures items { out.new.items ≡ out.old.items ++ map_part status }
    ensures len { vec_len out.new ≤ vec_len out.old + MAX_PART }
    ensures capacity { vec_capacity out.old ≤ vec_capacity out.new }
{
    push_text(out, b",\"edits\":");
    push_number(out, status.edits);
    push_text(out, b",\"features\":");
    push_number(out, status.features);
    push_text(out, b",\"generation\":");
    push_number(out, status.generation);
}

/// Adds how many places of the journal are in use.
#[tactic(auto, unfolding(crate::specs::Words::journal_part))]
fn push_journal_part(out: &mut Vec<u8>, status: Status)
    requires room { vec_len out.old + MAX_PART ≤ vec_capacity out.old }
    ensures items { out.new.items ≡ out.old.items ++ journal_part status }
    ensures len { vec_len out.new ≤ vec_len out.old + MAX_PART }
    ensures capacity { vec_capacity out.old ≤ vec_capacity out.new }
{
    push_text(out, b",\"journal\":{");
    push_text(out, b"\"forgotten\":");
    push_number(out, status.forgotten);
    push_text(out, b",\"places\":");
    push_number(out, status.journal_places);
    push_text(out, b",\"used\":");
    push_number(out, status.journal_used);
}

/// Adds a number, or `null`.
fn push_optional(out: &mut Vec<u8>, number: Option<u64>)
    requires room { vec_len out.old + MAX_DIGITS ≤ vec_capacity out.old }
    ensures items { out.new.items ≡ out.old.items ++ optional_text number }
    ensures len { vec_len out.new ≤ vec_len out.old + MAX_DIGITS }
    ensures capacity { vec_capacity out.old ≤ vec_capacity out.new }
{
    match number {
        Some(number) => push_number(out, number),
        None => push_text(out, b"null"),
    }
}

/// Adds the greatest id, what is left of the publication under way, and the last edit that is published.
#[tactic(auto, unfolding(crate::specs::Words::published_part))]
fn push_published_part(out: &mut Vec<u8>, status: Status)
    requires room { vec_len out.old + MAX_PART ≤ vec_capacity out.old }
    ensures items { out.new.items ≡ out.old.items ++ published_part status }
    ensures len { vec_len out.new ≤ vec_len out.old + MAX_PART }
    ensures capacity { vec_capacity out.old ≤ vec_capacity out.new }
{
    push_text(out, b"},\"last\":");
    push_optional(out, status.last);
    push_text(out, b",\"left\":");
    push_optional(out, status.left);
    push_text(out, b",\"published\":");
    push_number(out, status.published);
}

/// Adds the size of the disk, in how many cells edits came since the last publication, and the version of the disk's format.
#[tactic(auto, unfolding(crate::specs::Words::disk_part))]
fn push_disk_part(out: &mut Vec<u8>, status: Status)
    requires room { vec_len out.old + MAX_PART ≤ vec_capacity out.old }
    ensures items { out.new.items ≡ out.old.items ++ disk_part status }
    ensures len { vec_len out.new ≤ vec_len out.old + MAX_PART }
    ensures capacity { vec_capacity out.old ≤ vec_capacity out.new }
{
    push_text(out, b",\"sectors\":");
    push_number(out, status.sectors);
    push_text(out, b",\"stale\":");
    push_number(out, status.stale);
    push_text(out, b",\"version\":");
    push_number(out, status.version as u64);
}

/// Capacity for the text of a status.
pub(crate) fn status_space(alloc: Global) -> Result<Vec<u8>, AllocError>
    ensures { IfOk result (λ text. (text.items ≡ []) × (MAX_STATUS ≤ vec_capacity text)) }
{
    Vec::with_capacity(alloc, MAX_STATUS)
}

/// The whole text.
#[tactic(auto, unfolding(crate::specs::Words::status_body))]
fn status_body(text: Vec<u8>, drafting: Option<Drafting>, status: Status) -> Vec<u8>
    requires empty { text.items ≡ [] }
    requires room { MAX_STATUS ≤ vec_capacity text }
    ensures { result.items ≡ status_body drafting status }
{
    let mut text = text;
    push_archive_part(&mut text, status);
    push_broken_part(&mut text, status);
    push_draft_part(&mut text, drafting);
    push_map_part(&mut text, status);
    push_journal_part(&mut text, status);
    push_published_part(&mut text, status);
    push_disk_part(&mut text, status);
    push_text(&mut text, b"}");
    text
}

/// The reply with a status, and with what is told of the publication in the making.
pub(crate) fn told(text: Vec<u8>, drafting: Option<Drafting>, status: Status) -> Reply
    requires empty { text.items ≡ [] }
    requires room { MAX_STATUS ≤ vec_capacity text }
    ensures reply { reply_view [] result ≡ status_reply drafting status }
    ensures writable { IsWhole result }
{
    replies::json(status_body(text, drafting, status))
}
