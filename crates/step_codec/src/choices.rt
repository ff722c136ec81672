//! Choices: one byte each.

ghost use Rattle.std.specs.Prelude.{◌≡◌, [], ◌∷◌, Ok, Err};
ghost use Rattle.step_codec.specs.Forms.{choice_at};
ghost use Rattle.step_codec.specs.Written.{release_kind, release_code, stage_kind, stage_code, flag as flag_form, flag_code, truth, truth_code};

use crate::field::{Field, write_byte};
use crate::refusal::StepRefusal;
use crate::unread::Unread;
use site_types::{Flag, ReleaseKind, StageKind};
use std::alloc::AllocError;

fn release_code(release: ReleaseKind) -> u8
    ensures { result ≡ release_code release }
{
    match release {
        ReleaseKind::Default => 0,
        ReleaseKind::Never => 1,
        ReleaseKind::AtOnce => 2,
        ReleaseKind::Partial => 3,
    }
}

impl Field for ReleaseKind {
    type Value = ReleaseKind;

    ghost form = { release_kind };

    #[tactic(auto, unfolding(crate::specs::Forms::choice_at))]
    fn read(bytes: &mut Unread) -> Result<ReleaseKind, StepRefusal> {
        match bytes.byte()? {
            0 => Ok(ReleaseKind::Default),
            1 => Ok(ReleaseKind::Never),
            2 => Ok(ReleaseKind::AtOnce),
            3 => Ok(ReleaseKind::Partial),
            _ => Err(StepRefusal::BadField),
        }
    }

    fn write(value: &ReleaseKind, into: &mut Vec<u8>) -> Result<(), AllocError> {
        write_byte(into, release_code(*value))
    }
}

fn stage_code(stage: StageKind) -> u8
    ensures { result ≡ stage_code stage }
{
    match stage {
        StageKind::Default => 0,
        StageKind::Never => 1,
        StageKind::Associative => 2,
    }
}

impl Field for StageKind {
    type Value = StageKind;

    ghost form = { stage_kind };

    #[tactic(auto, unfolding(crate::specs::Forms::choice_at))]
    fn read(bytes: &mut Unread) -> Result<StageKind, StepRefusal> {
        match bytes.byte()? {
            0 => Ok(StageKind::Default),
            1 => Ok(StageKind::Never),
            2 => Ok(StageKind::Associative),
            _ => Err(StepRefusal::BadField),
        }
    }

    fn write(value: &StageKind, into: &mut Vec<u8>) -> Result<(), AllocError> {
        write_byte(into, stage_code(*value))
    }
}

fn flag_code(flag: Flag) -> u8
    ensures { result ≡ flag_code flag }
{
    match flag {
        Flag::Readonly => 0,
        Flag::Unavailable => 1,
    }
}

impl Field for Flag {
    type Value = Flag;

    ghost form = { flag_form };

    #[tactic(auto, unfolding(crate::specs::Forms::choice_at))]
    fn read(bytes: &mut Unread) -> Result<Flag, StepRefusal> {
        match bytes.byte()? {
            0 => Ok(Flag::Readonly),
            1 => Ok(Flag::Unavailable),
            _ => Err(StepRefusal::BadField),
        }
    }

    fn write(value: &Flag, into: &mut Vec<u8>) -> Result<(), AllocError> {
        write_byte(into, flag_code(*value))
    }
}

fn truth_code(truth: bool) -> u8
    ensures { result ≡ truth_code truth }
{
    match truth {
        false => 0,
        true => 1,
    }
}

impl Field for bool {
    type Value = bool;

    ghost form = { truth };

    #[tactic(auto, unfolding(crate::specs::Forms::choice_at))]
    fn read(bytes: &mut Unread) -> Result<bool, StepRefusal> {
        match bytes.byte()? {
            0 => Ok(false),
            1 => Ok(true),
            _ => Err(StepRefusal::BadField),
        }
    }

    fn write(value: &bool, into: &mut Vec<u8>) -> Result<(), AllocError> {
        write_byte(into, truth_code(*value))
    }
}
