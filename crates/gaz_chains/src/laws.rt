//! Laws of chains, over events alone.
ghost use Rattle.gaz_chains.specs.Finding.{FindsHolder};
ghost use Rattle.gaz_chains.specs.Laws.{ChainsGoOn, EventsMakeChains, OneChainAtMost};
ghost use Rattle.gaz_chains.specs.Worked.{WorkedChains, WorkedRules};

/// Events that come one after another, each as the rules allow it, make a chain, and its end holds
/// the number.
pub fn events_make_chains()
    ensures { EventsMakeChains }
{}

/// No events have two chains.
pub fn one_chain_at_most()
    ensures { OneChainAtMost }
{}

/// The chain of more events begins with that of fewer.
pub fn chains_go_on()
    ensures { ChainsGoOn }
{}

/// Asking one custodian after another, from the first on, finds the holder.
pub fn finds_holder()
    ensures { FindsHolder }
{}

/// A number that passes to another custodian and back, and what isn't allowed on the way.
pub fn worked_chains()
    ensures { WorkedChains }
{}

/// Without one of the rules there may be no chain.
pub fn worked_rules()
    ensures { WorkedRules }
{}
