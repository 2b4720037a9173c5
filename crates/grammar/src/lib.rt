//! Context-free grammars and canonical LL(k) tables: the mathematics that a table is checked by. Definitions and theorems stand in specs/, the
//! theorems on one page, Theorems.antt. The contract of a function here asks for the proof of those that it names; the functions do nothing else.
#![tactic(auto)]

ghost use Rattle.grammar.specs.Theorems.{SentencesParse, DerivationsParse, FirstOfProducts, FirstInTurn, FirstWithWords};
ghost use Rattle.grammar.specs.Theorems.{LeastIsProductive, LeastIsFirst, ReachableIsFound};
ghost use Rattle.grammar.specs.Theorems.{SuffixesEnd, SuffixesShrink, SuffixesReplace, TopsAreLeftmost, EquivalentsAgree, EquivalentsFollow};
ghost use Rattle.grammar.specs.Theorems.{ValidItemsClose, VCloses, KernelsFollow, WordsFollow, ActionsExclude, WordsAreWhole};
ghost use Rattle.grammar.specs.Theorems.{CollectionsAreCanonical, AcceptedAreCanonical, LLIsDeterministic, LLWithoutConflict, ConflictsDecide, AcceptedAreLL};
ghost use Rattle.grammar.specs.Sample.{SampleIsAccepted, SamplesNotLL, YesNoIsAKind};

/// Derivations at any places and leftmost ones give the same sentences.
pub fn derivations_stand()
    ensures { SentencesParse × DerivationsParse }
{}

/// FIRST of a joined string is the product of FIRST of its parts, cut; the words behind a string come in as one more part.
pub fn first_stands()
    ensures { FirstOfProducts × FirstInTurn × FirstWithWords }
{}

/// Which nonterminals derive a token string, and FIRST of each, are least solutions, in any kind of values that reads as words; which nonterminals
/// are reachable is found from the start symbol.
pub fn equations_stand<V>()
    ensures { LeastIsProductive V × LeastIsFirst V × ReachableIsFound }
{}

/// The viable suffixes, and their LL(k)-equivalence.
pub fn suffixes_stand()
    ensures { SuffixesEnd × SuffixesShrink × SuffixesReplace × TopsAreLeftmost × EquivalentsAgree × EquivalentsFollow }
{}

/// Closure and next give the items valid for a suffix and for the suffix with one more symbol.
pub fn items_stand()
    ensures { ValidItemsClose × VCloses × KernelsFollow × WordsFollow }
{}

/// The parser's actions: a class shifts or produces, and no lookahead word begins another.
pub fn actions_stand()
    ensures { ActionsExclude × WordsAreWhole }
{}

/// The tables with nothing wrong are the canonical collections with their deterministic parsers.
pub fn tables_stand()
    ensures { CollectionsAreCanonical × AcceptedAreCanonical }
{}

/// A grammar is LL(k) just when its parser is deterministic, and just when its table has no conflict.
pub fn conflicts_stand()
    ensures { LLIsDeterministic × LLWithoutConflict × ConflictsDecide × AcceptedAreLL }
{}

/// A table with nothing wrong, grammars that are LL(k) for no k, and a kind of values.
pub fn samples_stand()
    ensures { SampleIsAccepted × SamplesNotLL × YesNoIsAKind }
{}
