ghost use Rattle.std.specs.Prelude.{◌≡◌, ℕ};
ghost use Rattle.ca_script_seed.specs.Made.{made_script};
ghost use Rattle.ca_run_seed.specs.Buffers.{HasTwoBuffers};
ghost use Rattle.ca_run_seed.specs.Requests.{requests_in};
ghost use Rattle.ca_script_order.specs.Order.{order};
ghost use Rattle.ca_law_scripts.specs.Lawful.{IsLawfulOrder};
ghost use Rattle.ca_law_scripts.specs.Limits.{KeepsToLimits};
ghost use Rattle.ca_script_run.specs.Working.{IsWorkable};

use ca_law_scripts::orders_are_lawful;

/// The made script of each seed keeps to the limits, and can be worked. It has two adapters alike, each with one buffer,
/// and its lines post 800 requests.
pub fn made_scripts_can_be_worked()
    ensures limits { (seed : ℕ) → KeepsToLimits (made_script seed) }
    ensures workable { (seed : ℕ) → IsWorkable (made_script seed) }
    ensures buffers { (seed : ℕ) → HasTwoBuffers (made_script seed).config }
    ensures requests { (seed : ℕ) → requests_in (made_script seed).consumers ≡ 800 }
{}

/// The order of the made script of each seed is lawful.
pub fn orders_of_made_scripts_are_lawful()
    ensures { (seed : ℕ) → IsLawfulOrder (made_script seed) (order (made_script seed)) }
{
    made_scripts_can_be_worked();
    orders_are_lawful();
}
