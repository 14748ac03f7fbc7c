// A line that is taken keeps the card's rules, so a draft that nobody else writes to is never refused for its tables.
ghost use Rattle.draft.specs.Keeping.{KeptDraftsAreNotLetGo, TakenRulesKeepTheRules, TakenSymbolsKeepTheRules};

pub fn taken_symbols_keep_the_rules()
    ensures { TakenSymbolsKeepTheRules }
{}

pub fn taken_rules_keep_the_rules()
    ensures { TakenRulesKeepTheRules }
{}

// A draft over records that keep the card's rules is never one that may be let go.
pub fn kept_drafts_are_not_let_go()
    ensures { KeptDraftsAreNotLetGo }
{}
