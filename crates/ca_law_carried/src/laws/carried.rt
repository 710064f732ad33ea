ghost use Rattle.std.specs.List.{AllByRecursion};
ghost use Rattle.std.specs.Prelude.{List};
ghost use Rattle.ca_base.specs.Configuration.{Configuration};
ghost use Rattle.ca_law_carried.specs.Answered.{HaveTheirResponses};
ghost use Rattle.ca_law_carried.specs.Ended.{HaveTheirCauses};
ghost use Rattle.ca_keys.specs.Memory.{ByteMap};
ghost use Rattle.ca_model.specs.Carried.{Carried};
ghost use Rattle.ca_model.specs.Entries.{EntryValue};
ghost use Rattle.ca_model.specs.machine.Run.{Follows};
ghost use Rattle.ca_model.specs.machine.Sound.{AreLimited, CanBeMade};

/// In a history that follows the machine a send that has packets completes with success only in an event in which a
/// response arrived at its queue pair. This is the part of Carried that speaks of completions.
pub fn successes_have_their_responses()
    ensures { (c : Configuration) (bytes : ByteMap) (es : List EntryValue) → AreLimited c
        → AllByRecursion (λ e. CanBeMade e.event) es → Follows c bytes es
        → HaveTheirResponses bytes es }
{}

/// In a history that follows the machine each event ends so: a packet that was sent without a path is lost; each packet
/// that was sent is the one of the request that it names which has its PSN, and its payload is what the event read from
/// the request's list, or, where it names none, a response of the responder's turn; and each READ response carries what
/// a READ of its own event gave. This is the part of Carried that speaks of how events end.
pub fn events_end_with_their_causes()
    ensures { (c : Configuration) (bytes : ByteMap) (es : List EntryValue) → AreLimited c
        → AllByRecursion (λ e. CanBeMade e.event) es → Follows c bytes es
        → HaveTheirCauses bytes es }
{}

/// Every history that follows the machine is carried: each packet that arrives was sent, each one that is sent has its
/// index and its cause, each remote access its packet or its request, and each success of a send that has packets its
/// response.
pub fn machine_is_carried()
    ensures { (c : Configuration) (bytes : ByteMap) (es : List EntryValue)
        → AreLimited c → AllByRecursion (λ e. CanBeMade e.event) es → Follows c bytes es
        → Carried bytes es }
{}
