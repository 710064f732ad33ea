use ca_adapter_acts::is_no_depth;
use ca_base::{QueueId, Reserve, Settings, Slot};
use std::marker::Model;

/// What a queue pair is made of: its slot, the slots of its completion queues and of its shared receive queue in the
/// same domain, and the depths of its own queues. With a shared receive queue the depth of receives is 0.
#[derive(Clone, Copy)]
pub struct Creation {
    pub slot: Slot,
    pub send_cq: u16,
    pub recv_cq: u16,
    pub send_depth: u16,
    pub recv_depth: u16,
    pub srq: Option<u16>,
}

impl Model for Creation {
    ghost use Rattle.ca_model.specs.machine.QueuePairVerbs.{Creation};

    ghost Value = { Creation };

    ghost view = { λ x. record {
      slot = x.slot;
      send_cq = x.send_cq;
      recv_cq = x.recv_cq;
      send_depth = x.send_depth;
      recv_depth = x.recv_depth;
      srq = x.srq;
    } };

    ghost inverse = { λ x. record {
      slot = x.slot;
      send_cq = x.send_cq;
      recv_cq = x.recv_cq;
      send_depth = x.send_depth;
      recv_depth = x.recv_depth;
      srq = x.srq;
    } };
}

impl Creation {
    ghost use Rattle.std.specs.Prelude.{◌≡◌, ◌<◌};
    ghost use Rattle.ca_base.specs.Configuration.{configuration_in};
    ghost use Rattle.ca_base.specs.declared.reserve.Reserve.TheVariants.{Sends};
    ghost use Rattle.ca_keys.specs.Numbers.{queue_of};
    ghost use Rattle.ca_model.specs.machine.QueuePairVerbs as machine;

    /// The slot of the completion queue of its sends.
    pub(crate) fn send_slot(&self) -> Slot
        ensures { result ≡ machine.beside self.now.slot self.now.send_cq }
    {
        self.beside(self.send_cq)
    }

    /// The slot of the completion queue of its receives.
    pub(crate) fn recv_slot(&self) -> Slot
        ensures { result ≡ machine.beside self.now.slot self.now.recv_cq }
    {
        self.beside(self.recv_cq)
    }

    /// A slot beside its own, in its domain.
    pub(crate) fn beside(&self, slot: u16) -> Slot
        ensures { result ≡ machine.beside self.now.slot slot }
    {
        Slot {
            domain: self.slot.domain,
            slot,
        }
    }

    /// Who reserves for its sends.
    pub(crate) fn send_reserve(&self) -> Reserve
        requires { self.now.slot.slot < 256 }
        ensures { result ≡ Sends (queue_of self.now.slot) }
    {
        Reserve::Sends(QueueId::of_slot(self.slot))
    }

    /// Who reserves for its receives.
    pub(crate) fn receive_reserve(&self) -> Reserve
        requires { self.now.slot.slot < 256 }
        ensures { result ≡ machine.receive_reserve self.now }
    {
        let user = QueueId::of_slot(self.slot);
        match self.srq {
            Some(srq) => Reserve::Shared { srq, user },
            None => Reserve::Receives(user),
        }
    }

    /// Whether its queues are configured.
    pub(crate) fn has_queues(&self, settings: &Settings) -> bool
        ensures { result ≡ machine.has_queues (configuration_in settings.now) self.now }
    {
        settings.has_cq(self.send_slot())
            && settings.has_cq(self.recv_slot())
            && match self.srq {
                Some(srq) => settings.has_srq(self.beside(srq)),
                None => true,
            }
    }

    /// Whether a depth is out of its range.
    pub(crate) fn has_bad_depth(&self) -> bool
        ensures { result ≡ machine.has_bad_depth self.now }
    {
        is_no_depth(self.send_depth)
            || match self.srq {
                Some(_) => self.recv_depth != 0,
                None => is_no_depth(self.recv_depth),
            }
    }
}
