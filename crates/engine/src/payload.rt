//! A step's written form.

ghost use Rattle.std.specs.Prelude.{◌≡◌, ◌≤◌, OnOk};
ghost use Rattle.step_codec.specs.Lengths.{step_length};
ghost use Rattle.step_codec.specs.Written.{written, InRange};
ghost use Rattle.journal.specs.Records.{IsPayload};

use base::PAYLOAD_MAX;
use site_types::Step;
use std::alloc::AllocError;
use step_codec::encode_step;

/// Puts a step's written form in the place of what the buffer has.
pub fn write_payload(step: &Step, payload: &mut Vec<u8>) -> Result<(), AllocError>
    requires range { InRange step.now }
    requires short { step_length step.now ≤ PAYLOAD_MAX }
    ensures written { OnOk result (payload.new.items ≡ written step.now) }
    ensures bounded { OnOk result (IsPayload payload.new.items) }
{
    payload.clear();
    encode_step(step, payload)
}
