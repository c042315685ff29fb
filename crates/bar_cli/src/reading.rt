//! Reading a recording.
ghost use Rattle.std.specs.Prelude.{◌≡◌, Ok, Err, IfOk, IfErr};
ghost use Rattle.bar_record.specs.Code.Inputs.{inputs_left};
ghost use Rattle.bar_record.specs.Pacing.{paced};
ghost use Rattle.bar_session.specs.Time.{last_tick};
ghost use Rattle.bar_cli.specs.Audit.Plan.{inputs_listed};
ghost use Rattle.bar_cli.specs.Replay.Recordings.{recording_of};

use bar_record::{Items, RecordFault, read};
use bar_roster::Session;

/// The inputs of a party's recording that the bytes encode under a session, as they are listed there.
#[tactic(auto, unfolding(crate::specs::Audit::Plan::inputs_listed, crate::specs::Replay::Recordings::recording_of))]
pub fn read_recording<'a>(
    session: &Session,
    party: u16,
    bytes: &'a [u8],
) -> Result<Items<'a>, RecordFault>
    ensures ok { IfOk result (λ items. recording_of session.now party bytes.now ≡ Ok (paced (last_tick session.now) (inputs_left items))) }
    ensures err { IfErr result (λ fault. recording_of session.now party bytes.now ≡ Err fault) }
    ensures listed { IfOk result (λ items. inputs_listed session.now party bytes.now ≡ Ok (inputs_left items)) }
    ensures refused { IfErr result (λ fault. inputs_listed session.now party bytes.now ≡ Err fault) }
{
    let shape = session.shape();
    read(bytes, &shape.id, party, session.last_tick())
}
