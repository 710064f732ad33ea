ghost use Rattle.std.specs.Prelude.{◌≡◌, IfOk};
ghost use Rattle.ca_script_seed.specs.Made.{made_script};
ghost use Rattle.ca_script_order.specs.OfScript as machine;
ghost use Rattle.ca_script_order.specs.Order.{ending, order};
ghost use Rattle.ca_script_order.specs.Summary.{summary};
ghost use Rattle.ca_law_scripts.specs.Lawful.{IsLawfulOrder};
ghost use Rattle.ca_script_run.specs.Statuses.{status_value};
ghost use Rattle.ca_script_seed.specs.Text.{summary_text};

use crate::buffers::byte_sum;
use crate::laws::{made_scripts_can_be_worked, orders_of_made_scripts_are_lawful};
use ca_base::Memory;
use ca_law_scripts::marks_tell_the_memory_of_orders;
use ca_script_run::{Status, work_script};
use ca_script_seed::{generate, summary_of};
use std::alloc::Global;

/// What came of a made script: the text of its summary, and how it ended.
#[derive(Drop)]
pub struct Made {
    pub text: Vec<u8>,
    pub ended: Status,
}

/// Makes the script of a seed and works it in its order. `Memory` is its only refusal.
pub fn make(alloc: Global, seed: u64) -> Result<Made, Memory>
    ensures text { IfOk result (λ made. made.text.items
        ≡ summary_text (summary (made_script seed).config (order (made_script seed)))) }
    ensures status { IfOk result (λ made. status_value made.ended
        ≡ machine.status_of (made_script seed) (ending (made_script seed))) }
    ensures lawful { IsLawfulOrder (made_script seed) (order (made_script seed)) }
{
    made_scripts_can_be_worked();
    orders_of_made_scripts_are_lawful();
    marks_tell_the_memory_of_orders();
    let script = generate(alloc, seed)?;
    let worked = work_script(alloc, script)?;
    let sum = byte_sum(alloc, &worked.row)?;
    let summary = summary_of(&worked.history, sum);
    let text = format!(in alloc; "{summary}")?;
    Ok(Made {
        text: text.into_bytes(),
        ended: worked.status,
    })
}
