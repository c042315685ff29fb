//! What a broadcaster does over a list of inputs.

ghost use Rattle.bar_caster.specs.Code.Runs.{RulesPlay, RulesSend};

/// For every list of inputs, the rules of a broadcaster as a core send the bytes of what its run sends, and play nothing.
pub fn rules_give_the_run()
    ensures sends { RulesSend }
    ensures contents { RulesPlay }
{}
