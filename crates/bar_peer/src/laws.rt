//! Laws of a peer.
ghost use Rattle.bar_peer.specs.Code.Checking.{AdmittedIsRemembered};
ghost use Rattle.bar_peer.specs.Code.Runs.{RulesPlay, RulesSend};

/// For every list of inputs, the rules of a peer as a core send the bytes of what its run sends, and play what its run plays.
pub fn rules_give_the_run()
    ensures sends { RulesSend }
    ensures contents { RulesPlay }
{}

/// After a step admits a signed datagram, the memo contains it. A repeat in the next step isn't verified again.
pub fn admitted_datagrams_are_remembered()
    ensures { AdmittedIsRemembered }
{}
