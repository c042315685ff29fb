//! Definitions of a peer's rules, and nothing else: what it knows, admits, sends and plays.
#![tactic(auto)]
