//! The bytes of a reply that wait to be sent: a front in a buffer, and behind it a content that is lent. Of one that is spelled the next bytes are in the
//! front, a part at a time.
ghost use Rattle.std.specs.Prelude.{◌≡◌, ◌≤◌, ◌<◌, ◌+◌, ◌++◌, [], ℕ, true, false, Ok, Err, length, drop, vec_len, vec_capacity, IfOk, IfErr, IsOk, OnOk, OnErr};
ghost use Rattle.hex.specs.Hex.{encode_lower};
ghost use Rattle.http_serve.specs.Connections.{IsNextPiece};
ghost use Rattle.http_serve.specs.Parts.{front_bytes, front_content, lying_content, IsAhead};
ghost use Rattle.http_serve.specs.Reply.{HasShortWords, head_view};
ghost use Rattle.http_serve.specs.declared.replies.TheConstants.{MAX_REPLY_HEAD, REPLY_SPACE};

use crate::replies::{MAX_REPLY_HEAD, REPLY_SPACE, put_reply_head};
use crate::spellings::Spelling;
use crate::{Content, Downloads, Reply, RestFault, Ticket};
use std::alloc::{AllocError, Global};
use std::marker::Model;
use std::mem;

/// The room that a reply begins with, in bytes: for the head of every reply, and for a small content behind most heads.
const FIRST_SPACE: usize = 2_048;

/// Room for the head of a reply, which is taken where memory runs out.
#[derive(Drop)]
pub struct Spare {
    front: Vec<u8>,
}

impl Spare {
    /// No room yet. It holds no memory.
    pub fn new(alloc: Global) -> Self {
        Spare {
            front: Vec::new(alloc),
        }
    }

    /// Makes room again, if it was taken and there is memory for it.
    pub fn refill(&mut self) {
        let _ = self.front.reserve(FIRST_SPACE);
    }
}

/// Bytes that wait to be sent.
#[derive(Drop)]
pub(crate) struct Output {
    alloc: Global,
    /// The head of a reply, and a short content that was copied behind it, or a part of a content that is read or spelled by parts.
    front: Vec<u8>,
    /// A content that is lent.
    lent: Content,
    /// How many bytes of both were taken.
    taken: usize,
}

impl Model for Output {
    ghost use Rattle.std.specs.Prelude.{◌≤◌, ◌+◌, ◌++◌, drop, length, vec_len, vec_capacity};
    ghost use Rattle.http_serve.specs.Buffers.{BufferView};
    ghost use Rattle.http_serve.specs.Parts.{front_content, IsAhead};

    ghost Value = { BufferView };

    ghost view = { λ o. record { waiting = drop o.taken (o.front.items ++ front_content o.lent); capacity = vec_capacity o.front } };

    ghost invariant = { λ o. (o.taken ≤ vec_len o.front + length (front_content o.lent))
        × IsAhead o.taken (vec_len o.front) (vec_capacity o.front) o.lent };
}

/// What is left of a content once the bytes of it that lie together are sent.
fn unjoined(content: Content) -> Content
    ensures { lying_content content ++ front_content result ≡ front_content content }
{
    match content {
        Content::Spelled(spelling) => Content::Spelled(spelling),
        Content::Empty
        | Content::Fixed(_)
        | Content::Whole(_)
        | Content::Shared(_)
        | Content::Parts { .. } => Content::Empty,
    }
}

/// Copies a content behind the front, if there is room for it. What it returns follows the front.
fn join(front: &mut Vec<u8>, content: Content) -> Content
    ensures bytes { front.new.items ++ front_content result ≡ front.old.items ++ front_content content }
    ensures longer { vec_len front.old ≤ vec_len front.new }
    ensures capacity { vec_capacity front.old ≤ vec_capacity front.new }
{
    if content.front().len() > front.capacity().saturating_sub(front.len()) {
        return content;
    }
    match front.extend_from_slice(content.front()) {
        Ok(()) => unjoined(content),
        Err(_) => content,
    }
}

/// Spells the first bytes of a content that is spelled behind the front, as many as fit into `REPLY_SPACE`, or as there is memory for.
fn spell_behind(front: &mut Vec<u8>, lent: &mut Content)
    requires some { 0 < vec_len front.old }
    requires room { 1 < vec_capacity front.old }
    ensures bytes { front.new.items ++ front_content lent.new ≡ front.old.items ++ front_content lent.old }
    ensures ahead { IsAhead 0 (vec_len front.new) (vec_capacity front.new) lent.new }
    ensures capacity { vec_capacity front.old ≤ vec_capacity front.new }
{
    match lent {
        Content::Spelled(spelling) => {
            let room = REPLY_SPACE.saturating_sub(front.len());
            let _ = front.reserve(spelling.digits().min(room));
            spelling.spell(front);
        }
        Content::Empty
        | Content::Fixed(_)
        | Content::Whole(_)
        | Content::Shared(_)
        | Content::Parts { .. } => {}
    }
}

/// Once all of the front was taken, it has the next bytes that are left to spell. Returns how many bytes of it were taken.
fn spell_next(front: &mut Vec<u8>, spelling: &mut Spelling, taken: usize) -> usize
    requires within { taken ≤ vec_len front.old + length (encode_lower spelling.old) }
    requires room { 0 < length spelling.old → 1 < vec_capacity front.old }
    ensures waiting { drop result (front.new.items ++ encode_lower spelling.new) ≡ drop taken (front.old.items ++ encode_lower spelling.old) }
    ensures within { result ≤ vec_len front.new + length (encode_lower spelling.new) }
    ensures ahead { 0 < length spelling.new → (result < vec_len front.new) × (1 < vec_capacity front.new) }
    ensures capacity { vec_capacity front.old ≤ vec_capacity front.new }
{
    if taken < front.len() {
        return taken;
    }
    let over = taken - front.len();
    spelling.skip(over / 2);
    front.clear();
    spelling.spell(front);
    over % 2
}

/// The same of what follows the front: it may be a content that is spelled.
fn spell_on(front: &mut Vec<u8>, lent: &mut Content, taken: usize) -> usize
    requires within { taken ≤ vec_len front.old + length (front_content lent.old) }
    requires ahead { (before : ℕ) × IsAhead before (vec_len front.old) (vec_capacity front.old) lent.old }
    ensures waiting { drop result (front.new.items ++ front_content lent.new) ≡ drop taken (front.old.items ++ front_content lent.old) }
    ensures within { result ≤ vec_len front.new + length (front_content lent.new) }
    ensures ahead { IsAhead result (vec_len front.new) (vec_capacity front.new) lent.new }
    ensures capacity { vec_capacity front.old ≤ vec_capacity front.new }
{
    match lent {
        Content::Spelled(spelling) => spell_next(front, spelling, taken),
        Content::Empty
        | Content::Fixed(_)
        | Content::Whole(_)
        | Content::Shared(_)
        | Content::Parts { .. } => taken,
    }
}

/// Has a front of `count` bytes, whatever they are, or of none if memory runs out. Returns how many it has.
fn widen(front: &mut Vec<u8>, count: usize) -> usize
    ensures len { vec_len front.new ≡ result }
    ensures most { result ≤ count }
    ensures none { result < count → result ≡ 0 }
    ensures capacity { vec_capacity front.old ≤ vec_capacity front.new }
{
    match front.resize(count, 0) {
        Ok(()) => count,
        Err(_) => {
            front.clear();
            0
        }
    }
}

impl Output {
    /// No bytes, and no memory.
    pub(crate) fn new(alloc: Global) -> Self
        ensures { result.waiting ≡ [] }
    {
        Output {
            alloc,
            front: Vec::new(alloc),
            lent: Content::Empty,
            taken: 0,
        }
    }

    /// No bytes, and memory for this many.
    pub(crate) fn with_capacity(alloc: Global, capacity: usize) -> Result<Self, AllocError>
        ensures waiting { IfOk result (λ output. output.waiting ≡ []) }
        ensures capacity { IfOk result (λ output. capacity ≤ output.capacity) }
    {
        let front = Vec::with_capacity(alloc, capacity)?;
        Ok(Output {
            alloc,
            front,
            lent: Content::Empty,
            taken: 0,
        })
    }

    /// How many bytes it holds: those that wait, and those that were taken before them. A content that is lent counts its length.
    pub(crate) fn held(&self) -> usize
        ensures { length self.now.waiting ≤ result }
    {
        self.front.len() + self.lent.front_len()
    }

    /// Whether bytes wait.
    pub(crate) fn has_bytes(&self) -> bool
        ensures some { result ≡ true → 0 < length self.now.waiting }
        ensures none { result ≡ false → self.now.waiting ≡ [] }
    {
        self.taken < self.front.len() + self.lent.front_len()
    }

    /// Makes room for the head of a reply and a small content, where nothing waits.
    pub(crate) fn begin(&mut self) -> Result<(), AllocError>
        requires { self.old.waiting ≡ [] }
        ensures same { self.new.waiting ≡ [] }
        ensures room { OnOk result (MAX_REPLY_HEAD ≤ self.new.capacity) }
        ensures capacity { self.old.capacity ≤ self.new.capacity }
        ensures succeeds { REPLY_SPACE ≤ self.old.capacity → IsOk result }
    {
        self.front.clear();
        self.lent = Content::Empty;
        self.taken = 0;
        self.front.reserve(FIRST_SPACE)
    }

    /// The same. If memory runs out, the spare room is taken.
    pub(crate) fn begin_with(&mut self, spare: &mut Spare)
        requires { self.old.waiting ≡ [] }
        ensures { self.new.waiting ≡ [] }
    {
        if self.begin().is_ok() {
            return;
        }
        self.front = mem::replace(&mut spare.front, Vec::new(self.alloc));
        self.front.clear();
        self.lent = Content::Empty;
        self.taken = 0;
    }

    /// The front of a reply waits, in place of what did: its head, and the content that it holds, unless only the head is sent.
    pub(crate) fn put(&mut self, reply: Reply, close: bool, bare: bool)
        requires words { HasShortWords (head_view reply) }
        requires room { MAX_REPLY_HEAD ≤ self.old.capacity }
        ensures waiting { self.new.waiting ≡ front_bytes close bare reply }
        ensures capacity { self.old.capacity ≤ self.new.capacity }
    {
        put_reply_head(&mut self.front, &reply, close);
        self.taken = 0;
        if reply.sends_content(bare) {
            self.lent = join(&mut self.front, reply.content);
            spell_behind(&mut self.front, &mut self.lent);
        } else {
            self.lent = Content::Empty;
        }
    }

    /// Reads `count` bytes of a ticket's content from an offset to where they wait, where nothing does. If there is no memory for them, none are
    /// read. Returns how many were.
    pub(crate) fn fetch<H: Downloads>(
        &mut self,
        handler: &mut H,
        ticket: Ticket,
        offset: u64,
        count: usize,
    ) -> Result<usize, RestFault>
        ensures read { IfOk result (λ n. H.reads handler.old ticket offset n (Ok self.new.waiting) handler.new × (length self.new.waiting ≡ n)) }
        ensures most { IfOk result (λ n. n ≤ count) }
        ensures none { IfOk result (λ n. n < count → n ≡ 0) }
        ensures unread { IfErr result (λ fault. (n : ℕ) × (n ≤ count) × H.reads handler.old ticket offset n (Err fault) handler.new) }
        ensures cleared { OnErr result (self.new.waiting ≡ []) }
        ensures capacity { self.old.capacity ≤ self.new.capacity }
    {
        self.lent = Content::Empty;
        self.taken = 0;
        let count = widen(&mut self.front, count);
        match handler.read_rest(ticket, offset, self.front.as_mut_slice()) {
            Ok(()) => Ok(count),
            Err(fault) => {
                self.clear();
                Err(fault)
            }
        }
    }

    /// The next bytes to send, as many as lie together.
    pub(crate) fn piece(&self) -> &[u8]
        ensures { IsNextPiece result.now self.now.waiting }
    {
        if self.taken < self.front.len() {
            return &self.front[self.taken..];
        }
        &self.lent.front()[self.taken - self.front.len()..]
    }

    /// The next bytes to send: what is left of the front, and what lies in memory behind it. Of a content that is spelled others may follow.
    pub(crate) fn pieces(&self) -> (&[u8], &[u8])
        ensures { IsNextPiece (result.0.now ++ result.1.now) self.now.waiting }
    {
        if self.taken < self.front.len() {
            return (&self.front[self.taken..], self.lent.front());
        }
        (&self.lent.front()[self.taken - self.front.len()..], b"")
    }

    /// So many of the bytes that wait were taken.
    pub(crate) fn took(&mut self, count: usize)
        requires { count ≤ length self.old.waiting }
        ensures waiting { self.new.waiting ≡ drop count self.old.waiting }
        ensures capacity { self.old.capacity ≤ self.new.capacity }
    {
        let most = self.front.len() + self.lent.front_len();
        let taken = self.taken + count;
        prove!(taken <= most);
        self.taken = spell_on(&mut self.front, &mut self.lent, taken);
    }

    /// Drops all bytes. The memory of the front is kept.
    pub(crate) fn clear(&mut self)
        ensures waiting { self.new.waiting ≡ [] }
        ensures capacity { self.new.capacity ≡ self.old.capacity }
    {
        self.front.clear();
        self.lent = Content::Empty;
        self.taken = 0;
    }

    /// Drops all bytes, and their memory.
    pub(crate) fn free(&mut self)
        ensures { self.new.waiting ≡ [] }
    {
        self.front = Vec::new(self.alloc);
        self.lent = Content::Empty;
        self.taken = 0;
    }
}
