ghost use Rattle.std.specs.Prelude.{◌≡◌};
ghost use Rattle.ca_base.specs.Configuration.{Configuration};
ghost use Rattle.ca_base.specs.declared.lot.Lot.{Lot};
ghost use Rattle.ca_base.specs.objects.QueuePair.{Present, QueuePair};
ghost use Rattle.ca_keys.specs.declared.names.QueueId.{QueueId};
ghost use Rattle.ca_model.specs.machine.Numbering.{Numbered};
ghost use Rattle.ca_model.specs.machine.Plan.{perform, touches};
ghost use Rattle.ca_model.specs.machine.Requester.{Performs, turn_of};
ghost use Rattle.ca_model.specs.machine.Turns.{request_plan};
ghost use Rattle.ca_model.specs.machine.World.{World};

/// Where the requester's turn performs a local operation, its plan does the same and touches the same whatever the
/// weather has for a packet, since it sends none.
pub fn operation_goes_by_no_lot()
    ensures does { (c : Configuration) (name : QueueId) (q : QueuePair) (n : Numbered) (w : World)
        → w.queue name ≡ Present q → turn_of q ≡ Performs n → (lot other : Lot)
        → perform w (request_plan c name lot) ≡ perform w (request_plan c name other) }
    ensures touches { (c : Configuration) (name : QueueId) (q : QueuePair) (n : Numbered) (w : World)
        → w.queue name ≡ Present q → turn_of q ≡ Performs n → (lot other : Lot)
        → touches w (request_plan c name lot) ≡ touches w (request_plan c name other) }
{}
