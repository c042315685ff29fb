//! The commands of the program, over an outside that the caller provides.
#![tactic(auto)]

mod audit;
mod headline;
mod judge;
mod keygen;
mod line;
mod making;
mod pack;
mod reading;
mod replay;
mod run;
mod session;
mod simulate;
mod status;
mod verifier;
mod verify;

pub use audit::laws::{
    a_front_of_an_audit_is_printed, an_audit_fails_only, an_audit_is_told,
    an_audit_is_told_where_all_is_accepted, an_audit_refuses_a_bad_session,
    an_audit_refuses_bad_parties_and_recordings, an_audit_stays,
};
pub use judge::laws::{
    a_bad_session_is_refused, a_bad_table_or_evidence_is_refused,
    a_front_of_the_verdict_is_printed, a_judge_changes_nothing, a_judge_fails_only,
    the_verdict_is_printed, the_verdict_is_printed_where_all_is_accepted,
};
pub use keygen::laws::{
    a_front_of_the_key_is_made, key_made_exactly, key_made_where_all_is_accepted,
    keygen_failed_only, leaves_refused_exactly, only_the_key_is_changed,
    output_fails_behind_the_key, refused_keys_change_nothing, secret_refused_exactly,
};
pub use pack::laws::{
    a_bad_session_is_not_packed, a_bad_table_or_evidence_is_not_packed,
    a_front_of_the_proof_is_made, a_proof_is_packed, a_proof_is_packed_where_all_is_accepted,
    only_the_proof_is_changed, output_fails_behind_the_proof, packing_fails_only,
    refused_packing_changes_nothing,
};
pub use replay::laws::{
    a_finished_recording_is_replayed, a_front_is_played, a_replay_keeps_the_rules,
    a_replay_stops_in_order, done_exactly, done_where_all_is_accepted, file_failed_only,
    input_refused_exactly, key_refused_exactly, only_its_files_are_changed, output_failed_only,
    refusals_change_nothing, session_refused_exactly,
};
pub use run::bar_run;
pub use session::laws::peers_have_files_of_their_own;
pub use verify::laws::{
    a_bad_proof_is_refused, a_bad_session_is_not_verified,
    a_front_of_the_proofs_verdict_is_printed, the_proof_is_judged,
    the_proof_is_judged_where_all_is_accepted, verifying_changes_nothing, verifying_fails_only,
};
