ghost use Rattle.std.specs.Prelude.{◌≡◌, ◌<◌, ◌≤◌, ℕ, Bool, Option, [], false};
ghost use Rattle.ca_law_endings.specs.Agreement.{PathsAgree};
ghost use Rattle.ca_law_endings.specs.Runs.{Comes};
ghost use Rattle.ca_base.specs.Configuration.{Configuration};
ghost use Rattle.ca_base.specs.declared.change.Change.TheVariants as changes;
ghost use Rattle.ca_base.specs.declared.correspondent.Correspondent.{Correspondent};
ghost use Rattle.ca_base.specs.declared.limits.TheConstants.{MIN_PATH_MTU};
ghost use Rattle.ca_base.specs.declared.lot.Lot.{Lot};
ghost use Rattle.ca_connection.specs.Layout.{Direction};
ghost use Rattle.ca_connection.specs.Link.{Link, opening};
ghost use Rattle.ca_keys.specs.Equal.{queue_eq};
ghost use Rattle.ca_keys.specs.Memory.{ByteMap};
ghost use Rattle.ca_keys.specs.declared.names.QueueId.{QueueId};
ghost use Rattle.ca_keys.specs.declared.names.Slot.{Slot};
ghost use Rattle.ca_model.specs.Past.{Past};
ghost use Rattle.ca_model.specs.declared.event.Event.TheVariants as events;
ghost use Rattle.ca_model.specs.declared.verb.Verb.{Verb};
ghost use Rattle.ca_model.specs.declared.verb.Verb.TheVariants as verbs;
ghost use Rattle.ca_model.specs.machine.Sound.{IsSoundWorld};
ghost use Rattle.ca_model.specs.machine.Step.{step};
ghost use Rattle.ca_model.specs.machine.World.{World, opening_world};
ghost use Rattle.ca_law_once.specs.Ties.{IsTied, LeavesPairs, MailFollows, TiedAfter, TurnAfter, found_by_delivery, written_by_delivery};

/// Before the first event a world is tied to the link before the first packet, for any two lives of different queue pairs
/// that are to come.
pub fn opening_is_tied()
    ensures { (d : Direction) (s r : Correspondent) (bytes : ByteMap) → MIN_PATH_MTU ≤ d.mtu
        → queue_eq s.queue r.queue ≡ false → 0 < s.incarnation → 0 < r.incarnation
        → IsTied d s r (opening_world bytes) (opening d) }
{}

/// A delivery of any envelope to any queue pair, in a sound world that is tied to a link, leaves a world that is tied to a
/// link to which moves lead; the numbers that atomics found grew by those that the marks tell of, where the packet of such a
/// request was delivered; and the accepted packets of WRITEs by this one, where the marks tell of a remote write.
pub fn delivery_keeps_ties()
    ensures { (d : Direction) (s r : Correspondent) (c : Configuration) (w : World) (l : Link) (name : QueueId)
        (index : ℕ) → IsSoundWorld c w → IsTied d s r w l
        → Comes (λ v ms. TiedAfter d s r w l (found_by_delivery r w l name index ms) (written_by_delivery r w l name index ms) v)
        (step c w (events.Deliver name index)) }
{}

/// A turn of the requester of any queue pair keeps a world tied to a link, where each mailbox accepts the peer that its
/// queue pair named: it sends a packet, where a path leads or where none does, performs a local operation, or fails. And
/// where the requests under way to the life that receives have one entry more, the marks tell of one packet that was sent
/// there: by the life that sends and of the entry's request, or of no request.
pub fn request_keeps_ties()
    ensures { (d : Direction) (s r : Correspondent) (c : Configuration) (w : World) (l : Link) (name : QueueId)
        (lot : Lot) → IsSoundWorld c w → MailFollows w → IsTied d s r w l
        → Comes (λ v ms. TurnAfter d s r w l ms v) (step c w (events.Request name lot)) }
{}

/// A turn of the responder of any queue pair does so too.
pub fn respond_keeps_ties()
    ensures { (d : Direction) (s r : Correspondent) (c : Configuration) (w : World) (l : Link) (name : QueueId)
        (lot : Lot) → IsSoundWorld c w → MailFollows w → IsTied d s r w l
        → Comes (λ v ms. TurnAfter d s r w l ms v) (step c w (events.Respond name lot)) }
{}

/// A timer of any queue pair, and a wake, keep a world tied to a link.
pub fn timers_keep_ties()
    ensures timeout { (d : Direction) (s r : Correspondent) (c : Configuration) (w : World) (l : Link)
        (name : QueueId) (hasten : Bool) → IsSoundWorld c w → IsTied d s r w l
        → Comes (λ v ms. TiedAfter d s r w l (λ place. []) (λ place. []) v) (step c w (events.Timeout name hasten)) }
    ensures wake { (d : Direction) (s r : Correspondent) (c : Configuration) (w : World) (l : Link) (name : QueueId)
        → IsSoundWorld c w → IsTied d s r w l
        → Comes (λ v ms. TiedAfter d s r w l (λ place. []) (λ place. []) v) (step c w (events.RnrWake name)) }
{}

/// Where past and world agree on paths, each mailbox accepts the peer that its queue pair named, for its incarnation.
pub fn mail_follows_paths()
    ensures { (past : Past) (w : World) → PathsAgree past w → MailFollows w }
{}

/// ModifyQp to Error, and to Reset, of any queue pair keep a world tied to a link: the response queue is emptied; or a life
/// ends, and its mailbox is emptied.
pub fn ends_keep_ties()
    ensures { (d : Direction) (s r : Correspondent) (c : Configuration) (w : World) (l : Link) (by : ℕ) (slot : Slot)
        → IsSoundWorld c w → IsTied d s r w l
        → Comes (λ v ms. TiedAfter d s r w l (λ place. []) (λ place. []) v)
        (step c w (events.Verb by (verbs.ModifyQp slot changes.Error)))
        × Comes (λ v ms. TiedAfter d s r w l (λ place. []) (λ place. []) v)
        (step c w (events.Verb by (verbs.ModifyQp slot changes.Reset))) }
{}

/// DestroyQp of any queue pair does so too: a life ends, and its mailbox is emptied.
pub fn destroy_keeps_ties()
    ensures { (d : Direction) (s r : Correspondent) (c : Configuration) (w : World) (l : Link) (by : ℕ) (slot : Slot)
        → IsSoundWorld c w → IsTied d s r w l
        → Comes (λ v ms. TiedAfter d s r w l (λ place. []) (λ place. []) v) (step c w (events.Verb by (verbs.DestroyQp slot))) }
{}

/// The verbs that change no queue pair and no mailbox keep a world tied to a link.
pub fn other_verbs_keep_ties()
    ensures { (d : Direction) (s r : Correspondent) (c : Configuration) (w : World) (l : Link) (by : ℕ) (verb : Verb)
        → LeavesPairs verb → IsTied d s r w l
        → Comes (λ v ms. TiedAfter d s r w l (λ place. []) (λ place. []) v) (step c w (events.Verb by verb)) }
{}

/// CreateQp keeps a world tied to a link: a life comes that has no peer yet.
pub fn create_keeps_ties()
    ensures { (d : Direction) (s r : Correspondent) (c : Configuration) (w : World) (l : Link) (by : ℕ) (slot : Slot)
        (send_cq recv_cq send_depth recv_depth : ℕ) (srq : Option ℕ) → IsTied d s r w l
        → Comes (λ v ms. TiedAfter d s r w l (λ place. []) (λ place. []) v)
        (step c w (events.Verb by (verbs.CreateQp slot send_cq recv_cq send_depth recv_depth srq))) }
{}
