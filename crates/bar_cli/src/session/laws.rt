//! Properties of the names of a session's files.
ghost use Rattle.bar_cli.specs.SessionFiles.{PeersHaveOwnNames};

/// If neither the prefix of key names nor the prefix of result names is a prefix of the other, the names of each peer's files differ.
pub fn peers_have_files_of_their_own()
    ensures { PeersHaveOwnNames }
{}
