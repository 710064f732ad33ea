ghost use Rattle.std.specs.Prelude.{◌≡◌, ◌≤◌, ◌<◌, ◌^◌, if◌then◌else◌, suc, IfSome, IsTrue, None, ℕ, Option, false, true, option_copied};
ghost use Rattle.std.specs.List.{AllByRecursion};
ghost use Rattle.std.specs.Option.{option_map};
ghost use Rattle.ca_keys.specs.Numbers.{domain_of};
ghost use Rattle.ca_keys.specs.Refusals.{first_of};
ghost use Rattle.ca_keys.specs.Numbers.{is_window_key};
ghost use Rattle.ca_base.specs.objects.Slices.{slot_of_key};
ghost use Rattle.ca_model.specs.Packets as packets;
ghost use Rattle.ca_model.specs.machine.Delivery.{arrival_drops, packet_arrived};
ghost use Rattle.ca_model.specs.machine.Invariants.{IsQueue, IsReceive, IsSharedReceives};
ghost use Rattle.ca_model.specs.machine.Respond.{respond_row};
ghost use Rattle.ca_responder_operations.specs.Sends.{key_end};
ghost use Rattle.ca_responder_operations.specs.Taking.{CanMeet, MayEnd};
ghost use Rattle.ca_model.specs.machine.CanStep.{AreNarrow};
ghost use Rattle.test_fixture_reach.specs.SmallReach as small;
ghost use Rattle.test_fixture_requester.specs.Bed as beds;
ghost use Rattle.test_fixture_responder.specs.Responder as responders;
ghost use Rattle.ca_wire.specs.Packet.{IsWellFormed, Spells};

use ca_base::limits::{MAX_DEPTH, MAX_PAYLOAD_BYTES};
use ca_base::{
    ActError, Ask, DomainId, Key, Kind, Memory, QueueId, RecvRequest, Rights, Sent, Slot,
    first_address,
};
use ca_grant::{judge, write_span};
use ca_model::Marks;
use ca_qp_rows::{Arrival, arrival_of};
use ca_qpstate::QueuePart;
use ca_responder::{next_response, on_request, request_asks, request_key, respond_ask};
use ca_srq::Srq;
use ca_wire::Packet;
use std::alloc::Global;
use test_fixture_reach::SmallReach;
use test_fixture_requester::{Bed, FAR, are_here, is_narrow, is_short};

/// A queue pair with what it reaches, and with its shared receive queue, where it has one.
#[derive(Drop)]
pub struct Responder {
    pub bed: Bed,
    pub srq: Option<Srq>,
    /// How many receives were posted to the shared receive queue.
    pub posted: u32,
}

// The slot that a key names, at a domain's adapter.
fn slot_named(domain: DomainId, key: Key) -> Slot
    ensures { result ≡ slot_of_key domain key }
{
    Slot {
        domain: DomainId {
            adapter: domain.adapter,
            domain: (key.index() / 0x10000) as u8,
        },
        slot: (key.index() % 0x8000) as u16,
    }
}

// Whether a key names the window or the region that is reached.
fn names_part(reach: &SmallReach, domain: DomainId, key: Key) -> bool
    ensures { IsTrue result
        → slot_of_key domain key ≡ (if is_window_key key then reach.now.window.slot else reach.now.slot) }
{
    let named = slot_named(domain, key);
    if key.names_window() {
        named == reach.window.slot()
    } else {
        named == reach.slot
    }
}

// Whether a queue pair is of the domain that its number says.
fn is_of_own_domain(q: &QueuePart) -> bool
    ensures { IsTrue result → q.now.domain ≡ domain_of q.now.queue }
{
    let number = q.queue.number;
    number >= 256 && number < 65792 && q.queue.domain() == q.domain
}

// Whether a queue pair can be tried to end a key: of the window or the region that is reached, and a window's only where
// the queue pair counts one.
fn may_end_key(q: &QueuePart, reach: &SmallReach, key: Key) -> bool
    requires { small.FitTogether reach.now }
    ensures { IsTrue result → MayEnd small.sight_of small.IsEndHere reach.now q.now (key_end q.now key) }
{
    if !is_of_own_domain(q) || q.domain.adapter != reach.slot.domain.adapter {
        return false;
    }
    if key.names_window() && q.windows.count == 0 {
        return false;
    }
    names_part(reach, q.domain, key)
}

// Whether the key that a packet ends, if it ends one, can be tried.
fn may_end(q: &QueuePart, reach: &SmallReach, key: Option<Key>) -> bool
    requires { small.FitTogether reach.now }
    ensures { IsTrue result
        → IfSome (option_map (key_end q.now) key) (MayEnd small.sight_of small.IsEndHere reach.now q.now) }
{
    match key {
        None => true,
        Some(key) => may_end_key(q, reach, key),
    }
}

// The request that these bytes spell; None where it cannot be tried here.
fn request_in<'a>(
    q: &QueuePart,
    srq: Option<&Srq>,
    reach: &SmallReach,
    bytes: &'a [u8],
) -> Option<Packet<'a>>
    requires queue { IsQueue q.now }
    requires reach { small.FitTogether reach.now }
    requires shared { IfSome (option_copied srq) IsSharedReceives }
    ensures narrow { IfSome result (λ p. AreNarrow q.now) }
    ensures spelt { IfSome result (λ p. Spells bytes.now p) }
    ensures packet { IfSome result (λ p. IsWellFormed p) }
    ensures request { IfSome result (λ p. packets.is_response p.opcode ≡ false) }
    ensures taken { IfSome result (λ p. first_of (arrival_drops q.now p) ≡ None) }
    ensures at_hand { IfSome result (λ p. (envelope : Option ℕ)
        → CanMeet small.sight_of small.IsAskHere (λ s ask. Unit {0})
        small.IsEndHere reach.now q.now (packet_arrived p envelope (option_copied srq.entry) q.now)) }
{
    let Ok(Arrival::Request(p, _)) = arrival_of(q, bytes) else {
        return None;
    };
    if !is_narrow(q) {
        return None;
    }
    let asks = request_asks(q, srq, &p);
    if !are_here(reach, asks.as_slice()) || !may_end(q, reach, request_key(q, srq, &p)) {
        return None;
    }
    Some(p)
}

// A request arrives at a queue pair with receives of its own.
fn take_own(
    bed: &mut Bed,
    bytes: &[u8],
    envelope: Option<u64>,
    marks: &mut Marks,
) -> Option<Result<(), Memory>>
    requires { beds.Stands bed.old }
    ensures { beds.Stands bed.new }
{
    let p = request_in(&bed.queue, None, &bed.reach, bytes)?;
    Some(on_request(&mut bed.queue, None, &mut bed.reach, &p, envelope, marks))
}

// A request arrives at a queue pair with a shared receive queue.
fn take_shared(
    bed: &mut Bed,
    srq: &mut Srq,
    bytes: &[u8],
    envelope: Option<u64>,
    marks: &mut Marks,
) -> Option<Result<(), Memory>>
    requires stands { beds.Stands bed.old }
    requires shared { IsSharedReceives srq.old }
    ensures stands { beds.Stands bed.new }
    ensures shared { IsSharedReceives srq.new }
    ensures next { srq.new.next ≡ srq.old.next }
{
    let p = request_in(&bed.queue, Some(srq), &bed.reach, bytes)?;
    Some(on_request(
        &mut bed.queue,
        Some(srq),
        &mut bed.reach,
        &p,
        envelope,
        marks,
    ))
}

// Whether what the responder's turn asks for is of the adapter of what is reached.
fn is_answer_here(q: &QueuePart, reach: &SmallReach) -> bool
    requires { small.FitTogether reach.now }
    ensures keys { IsTrue result → AllByRecursion (small.IsAskHere reach.now) (respond_row true q.now).asks }
    ensures bytes { IsTrue result → AllByRecursion (λ ask. Unit {0}) (respond_row true q.now).asks }
{
    match respond_ask(q) {
        Some(ask) => ask.domain.adapter == reach.slot.domain.adapter,
        None => true,
    }
}

// The responder's turn; None where it cannot be tried here.
fn respond(
    bed: &mut Bed,
    room: bool,
    marks: &mut Marks,
    out: &mut Vec<u8>,
) -> Option<Result<Sent, ActError>>
    requires { beds.Stands bed.old }
    ensures { beds.Stands bed.new }
{
    if !is_narrow(&bed.queue) || !is_answer_here(&bed.queue, &bed.reach) {
        return None;
    }
    let (q, reach) = (&mut bed.queue, &mut bed.reach);
    Some(next_response(q, reach, room, marks, out))
}

// Posts a receive to the queue pair's own, unless their queue is full.
fn push_receive(q: &mut QueuePart, request: RecvRequest) -> bool
    requires queue { IsQueue q.old }
    requires receive { IsReceive request }
    ensures { IsQueue q.new }
{
    let Some(receives) = &mut q.receives else {
        return false;
    };
    if receives.next_place() >= FAR {
        return false;
    }
    receives.post(request).is_ok()
}

// Posts a receive to a shared receive queue, unless it is full.
fn push_shared(srq: &mut Srq, request: RecvRequest) -> bool
    requires shared { IsSharedReceives srq.old }
    requires receive { IsReceive request }
    requires few { srq.old.next < 2 ^ 32 }
    ensures shared { IsSharedReceives srq.new }
    ensures next { srq.new.next ≤ suc srq.old.next }
{
    match srq.post(request) {
        Ok(_) => true,
        Err(_) => false,
    }
}

// What asks the region for so many bytes of its buffer, without a right.
fn store_ask(reach: &SmallReach, offset: u32, count: u32) -> Ask
    ensures domain { result.domain ≡ reach.now.slot.domain }
    ensures length { result.length ≡ count }
    ensures touch { result.touch ≡ count }
{
    Ask {
        queue: QueueId::default(),
        domain: reach.slot.domain,
        key: reach.region.view().key,
        local: true,
        kind: Kind::Read,
        address: first_address(reach.number) + u64::from(offset),
        length: count,
        touch: count,
    }
}

// Stores bytes into the region's buffer; false where they do not lie in the region.
fn store(reach: &mut SmallReach, offset: u32, bytes: &[u8]) -> bool
    requires { small.FitTogether reach.old }
    ensures { small.FitTogether reach.new }
{
    if bytes.is_empty() || bytes.len() > MAX_PAYLOAD_BYTES {
        return false;
    }
    let ask = store_ask(reach, offset, bytes.len() as u32);
    if ask.key.names_window() {
        return false;
    }
    match judge(None, Some(&reach.region), &ask) {
        Ok(span) => {
            write_span(&mut reach.buffer, &span, bytes);
            true
        }
        Err(_) => false,
    }
}

// Ends the region; false where that is refused.
fn end_region(reach: &mut SmallReach) -> bool
    requires { small.FitTogether reach.old }
    ensures { small.FitTogether reach.new }
{
    match reach.region.deregister() {
        Ok(_) => true,
        Err(_) => false,
    }
}

// Puts the count of messages that were accepted, which no run reaches.
fn put_msn(q: &mut QueuePart, msn: u32)
    requires queue { IsQueue q.old }
    requires bits { msn < 2 ^ 24 }
    ensures { IsQueue q.new }
{
    q.responder.msn = msn;
}

// Counts one more window that is bound to the queue pair.
fn count_window(q: &mut QueuePart) -> bool
    requires { IsQueue q.old }
    ensures { IsQueue q.new }
{
    if q.windows.count >= 1000 {
        return false;
    }
    q.windows.count += 1;
    true
}

// Makes the vacant window one of type 2.
fn allocate_window(reach: &mut SmallReach)
    requires { small.FitTogether reach.old }
    ensures { small.FitTogether reach.new }
{
    if reach.window.kind() == 0 {
        reach.window.allocate(2);
    }
}

// Binds the window to a part of the region for a queue pair, under a low byte; false where that is refused.
fn bind_window(
    reach: &mut SmallReach,
    low: u8,
    queue: QueueId,
    address: u64,
    length: u32,
    rights: Rights,
) -> bool
    requires { small.FitTogether reach.old }
    ensures { small.FitTogether reach.new }
{
    let view = reach.region.view();
    if address < view.address || reach.region.bound() >= 1000 {
        return false;
    }
    let (from, all) = (address - view.address, u64::from(view.length));
    if from > all || u64::from(length) > all - from {
        return false;
    }
    match reach
        .window
        .bind2(low, queue, Some(&view), address, length, rights)
    {
        Ok(()) => {
            reach.region.note_bind();
            true
        }
        Err(_) => false,
    }
}

impl Responder {
    /// A queue pair with an empty shared receive queue, where it names one.
    pub fn of(alloc: Global, bed: Bed) -> Option<Responder>
        requires { beds.Stands bed }
        ensures { IfSome result responders.Stands }
    {
        let posted = 0;
        if bed.queue.srq.is_none() {
            let srq = None;
            return Some(Responder { bed, srq, posted });
        }
        match Srq::create(alloc, MAX_DEPTH as u16) {
            Ok(srq) => {
                let srq = Some(srq);
                Some(Responder { bed, srq, posted })
            }
            Err(_) => None,
        }
    }

    /// A request arrives; None where that cannot be tried here.
    #[inline(never)]
    pub fn take(
        &mut self,
        bytes: &[u8],
        envelope: Option<u64>,
        marks: &mut Marks,
    ) -> Option<Result<(), Memory>>
        requires { responders.Stands self.old }
        ensures { responders.Stands self.new }
    {
        match &mut self.srq {
            Some(srq) => take_shared(&mut self.bed, srq, bytes, envelope, marks),
            None => take_own(&mut self.bed, bytes, envelope, marks),
        }
    }

    /// The turn of the responder; None where it cannot be tried here.
    #[inline(never)]
    pub fn respond(
        &mut self,
        room: bool,
        marks: &mut Marks,
        out: &mut Vec<u8>,
    ) -> Option<Result<Sent, ActError>>
        requires { responders.Stands self.old }
        ensures { responders.Stands self.new }
    {
        respond(&mut self.bed, room, marks, out)
    }

    /// Posts a receive to the queue pair; false where it is none that can be posted.
    pub fn receive(&mut self, request: RecvRequest) -> bool
        requires { responders.Stands self.old }
        ensures { responders.Stands self.new }
    {
        is_short(request.list.as_slice()) && push_receive(&mut self.bed.queue, request)
    }

    /// Posts a receive to the shared receive queue; false where it is none that can be posted.
    pub fn receive_shared(&mut self, request: RecvRequest) -> bool
        requires { responders.Stands self.old }
        ensures { responders.Stands self.new }
    {
        if !is_short(request.list.as_slice()) || self.posted == u32::MAX {
            return false;
        }
        self.posted += 1;
        match &mut self.srq {
            Some(srq) => push_shared(srq, request),
            None => false,
        }
    }

    /// Stores bytes into the buffer; false where they do not lie in the region.
    pub fn store(&mut self, offset: u32, bytes: &[u8]) -> bool
        requires { responders.Stands self.old }
        ensures { responders.Stands self.new }
    {
        store(&mut self.bed.reach, offset, bytes)
    }

    /// Ends the region; false where that is refused.
    pub fn end_region(&mut self) -> bool
        requires { responders.Stands self.old }
        ensures { responders.Stands self.new }
    {
        end_region(&mut self.bed.reach)
    }

    /// Puts the MSN, as if so many messages had been accepted before; false where it has more than 24 bits.
    pub fn start_at(&mut self, msn: u32) -> bool
        requires { responders.Stands self.old }
        ensures { responders.Stands self.new }
    {
        if msn >= 1 << 24 {
            return false;
        }
        put_msn(&mut self.bed.queue, msn);
        true
    }

    /// Binds a window of type 2 for a queue pair to a part of the region, under a low byte, and counts it at this queue
    /// pair; false where that is refused.
    pub fn bind(
        &mut self,
        low: u8,
        queue: QueueId,
        address: u64,
        length: u32,
        rights: Rights,
    ) -> bool
        requires { responders.Stands self.old }
        ensures { responders.Stands self.new }
    {
        allocate_window(&mut self.bed.reach);
        count_window(&mut self.bed.queue)
            && bind_window(&mut self.bed.reach, low, queue, address, length, rights)
    }
}
