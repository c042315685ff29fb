//! Definitions of a session, and nothing else: its numbers, its time, and its parties' keys and seeds.
#![tactic(auto)]
