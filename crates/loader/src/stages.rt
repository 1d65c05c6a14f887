// What a stage is: the end of a load, or a cycle that is out.
ghost use Rattle.std.specs.Prelude.{◌≡◌};
ghost use Rattle.loader.specs.Stages.{gives_cycle, stage_is, first_stage, verifies};

use crate::{Stage, StageIs, Work};
use model_types::Kind;

// A stage before the end, by its cycle.
fn gives_cycle(kind: Kind, here: bool, wanted: bool, command: u8) -> StageIs
    ensures { result ≡ gives_cycle kind here wanted command }
{
    StageIs {
        ended: false,
        end: 255,
        kind: kind,
        here: here,
        wanted: wanted,
        command: command,
    }
}

// The one place that says what each stage is.
pub fn stage_is(stage: Stage) -> StageIs
    ensures { result ≡ stage_is stage }
{
    match stage {
        Stage::Clearing => gives_cycle(Kind::Write, false, false, 0x50),
        Stage::Opening => gives_cycle(Kind::Write, false, false, 0xFF),
        Stage::Reading => gives_cycle(Kind::Read, true, false, 0),
        Stage::EraseAsking => gives_cycle(Kind::Write, false, false, 0x20),
        Stage::EraseConfirming => gives_cycle(Kind::Write, false, false, 0xD0),
        Stage::EraseWaiting => gives_cycle(Kind::Read, false, false, 0),
        Stage::ProgramAsking => gives_cycle(Kind::Write, true, false, 0x40),
        Stage::ProgramSending => gives_cycle(Kind::Write, true, true, 0),
        Stage::ProgramWaiting => gives_cycle(Kind::Read, true, false, 0),
        Stage::Closing => gives_cycle(Kind::Write, false, false, 0xFF),
        Stage::Verifying => gives_cycle(Kind::Read, true, false, 0),
        Stage::Ended(n) => StageIs {
            ended: true,
            end: n,
            kind: Kind::Idle,
            here: false,
            wanted: false,
            command: 0,
        },
    }
}

// The stage that a work begins at.
pub fn first_stage(work: Work) -> Stage
    ensures { result ≡ first_stage work }
{
    match work {
        Work::Load(_) => Stage::Clearing,
        Work::Verify => Stage::Closing,
    }
}

// Whether a verify is part of it.
pub fn verifies(work: Work) -> bool
    ensures { result ≡ verifies work }
{
    match work {
        Work::Load(v) => v,
        Work::Verify => true,
    }
}
