ghost use Rattle.std.specs.Prelude.{◌≡◌, length};
ghost use Rattle.ca_model.specs.machine.HostVerbs.{load_plan, store_plan};
ghost use Rattle.ca_adapter_acts.specs.Act.{Acts, Suffices};
ghost use Rattle.ca_adapter_acts.specs.Calls.{call_of};

use ca_adapter_acts::Call;
use ca_adapter_parts::Held;
use ca_base::limits::MAX_STORE_BYTES;
use ca_base::{ActError, Bytes, Field, Place, Run};
use ca_model::{Answer, Mark, Marks, Refusal};

/// Store: the host writes its own memory, from the first place of `at` on, in a buffer of `buffer_length` bytes. Refused,
/// in this order: OutOfRange where it is no byte or more than `MAX_STORE_BYTES`, OutsideBuffer. `Memory` leaves all as it
/// was. This profile's own verb.
pub fn store(
    call: &Call<'_>,
    held: &mut Held,
    at: Run,
    buffer_length: u32,
    bytes: &Bytes,
) -> Result<Marks, ActError>
    requires suffices { Suffices held.old (store_plan (call_of call.now) at buffer_length bytes.now) }
    requires count { length bytes.now ≡ at.length }
    ensures act { Acts result (store_plan (call_of call.now) at buffer_length bytes.now) held.old held.new }
{
    if at.length == 0 || at.length > MAX_STORE_BYTES {
        return Ok(call.refuse(Refusal::OutOfRange(Field::Length))?);
    }
    if u64::from(at.offset) + u64::from(at.length) > u64::from(buffer_length) {
        return Ok(call.refuse(Refusal::OutsideBuffer)?);
    }
    let ready = call.ready(1)?;
    let stored = Bytes::copy_of(call.alloc, bytes.as_slice())?;
    held.write_run(&at, stored.as_slice());
    let mut marks = ready.answer(Answer::Fine);
    marks.push(Mark::Stored {
        place: Place {
            adapter: at.adapter,
            buffer: at.buffer,
            offset: at.offset,
        },
        bytes: stored,
    });
    Ok(marks)
}

/// Load: the host reads its own memory, from the first place of `at` on, in a buffer of `buffer_length` bytes. Refused as a
/// Store. It changes nothing. This profile's own verb.
pub fn load(
    call: &Call<'_>,
    held: &mut Held,
    at: Run,
    buffer_length: u32,
) -> Result<Marks, ActError>
    requires suffices { Suffices held.old (load_plan (call_of call.now) at buffer_length) }
    ensures act { Acts result (load_plan (call_of call.now) at buffer_length) held.old held.new }
{
    if at.length == 0 || at.length > MAX_STORE_BYTES {
        return Ok(call.refuse(Refusal::OutOfRange(Field::Length))?);
    }
    if u64::from(at.offset) + u64::from(at.length) > u64::from(buffer_length) {
        return Ok(call.refuse(Refusal::OutsideBuffer)?);
    }
    let mut bytes = Vec::new(call.alloc);
    held.read_run(&at, &mut bytes)?;
    Ok(call.answer(Answer::Loaded(Bytes::from(bytes)))?)
}
