ghost use Rattle.std.specs.Prelude.{◌≡◌, Some};
ghost use Rattle.std.specs.Option.{option_copied};
ghost use Rattle.ca_base.specs.Configuration.{Configuration, configuration_in};
ghost use Rattle.ca_model.specs.machine.World.{World};
ghost use Rattle.ca_adapter_store.specs.Looks.{IsMailboxIn, IsQueueIn, mail_in, slot_in};
ghost use Rattle.ca_adapter_store.specs.Rows.{IsRowOf, part_at};

use crate::row::Row;
use ca_adapter_parts::{Part, QueueSlot};
use ca_base::QueueId;
use ca_mailbox::Mailbox;
use ca_model::PartName;
use ca_model_places::place;

impl Row {
    /// The slot of a queue pair. None comes where it is not configured.
    pub fn queue(&self, queue: QueueId) -> Option<&QueueSlot>
        ensures { (c : Configuration) (w : World) → IsRowOf c w self.now → IsQueueIn w queue (option_copied result) }
    {
        match self.part(PartName::Queue(queue)) {
            Some(part) => slot_in(part),
            None => None,
        }
    }

    /// The mailbox of a queue pair. None comes where it is not configured.
    pub fn mailbox(&self, queue: QueueId) -> Option<&Mailbox>
        ensures { (c : Configuration) (w : World) → IsRowOf c w self.now → IsMailboxIn w queue (option_copied result) }
    {
        match self.part(PartName::Mailbox(queue)) {
            Some(part) => mail_in(part),
            None => None,
        }
    }

    /// The part at the place of a name.
    fn part(&self, name: PartName) -> Option<&Part>
        ensures { option_copied result ≡ part_at (configuration_in self.now.settings) self.now.parts.items name }
    {
        let at = place(&self.settings, &name)?;
        self.parts.get(at as usize)
    }
}

/// The slot of a queue pair that a part is.
fn slot_in(part: &Part) -> Option<&QueueSlot>
    ensures { option_copied result ≡ slot_in (Some part.now) }
{
    match part {
        Part::Queue(slot) => Some(&**slot),
        _ => None,
    }
}

/// The mailbox that a part is.
fn mail_in(part: &Part) -> Option<&Mailbox>
    ensures { option_copied result ≡ mail_in (Some part.now) }
{
    match part {
        Part::Mailbox(mailbox) => Some(mailbox),
        _ => None,
    }
}
