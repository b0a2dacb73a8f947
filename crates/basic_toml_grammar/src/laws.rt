//! Laws about what a text means, each as the contract of a function that does nothing.

ghost use Rattle.basic_toml_grammar.specs.Statements.{GrammarIsUnambiguous, GrammarIsRead, GrammarGivesKeys, LevelsAreWithinDepth, DeepOffsetsAreOpened, DeepStopsAreTooDeep, DeepStopsAreOne, DeepStopsPassTheLimit, DeepStopsComeFirst, ShallowTextIsFree, GrammarFaultsAreOne, GrammarTextsHaveNone, PassedTextIsViable, TreeIsGrouped, KeysAreDistinct, ClashesAgree, PathsAgree, MarksFit, EveryClashIsNamed, OldDocumentsStand, OffsetsMeanNothing, ReturnsMeanNothing, ByteOrderMarkMeansNothing, RespacedMeansNothing, OrderIsFree, PlainOrderIsFree, ReorderedMeansTheSame, PlainReorderedMeansTheSame, SameMapsAreAsDeep, EnteringAccepts, EnteringGrows, TrieIsEntering, TrieGivesLevels, StopsAreNamed, TrieStopsAreNamed};
ghost use Rattle.basic_toml_grammar.specs.RowOrder.{RowOrderMeansNothing};
ghost use Rattle.basic_toml_grammar.specs.Copies.{CopiesAgree};

/// The grammar gives a text at most one section list.
pub fn grammar_is_unambiguous()
    ensures { GrammarIsUnambiguous }
{}

/// The section list of a text is the one that `Reader.section_list_of` computes.
pub fn grammar_is_read()
    ensures { GrammarIsRead }
{}

/// Each row of a section list has a key, and so has the header of an array section.
pub fn grammar_gives_keys()
    ensures { GrammarGivesKeys }
{}

/// A string asks for a copy by its characters and their offsets exactly where it does by its bytes, as its token says.
pub fn copies_agree()
    ensures { CopiesAgree }
{}

/// The tree of mentions is the one that the grouping by first steps gives.
#[tactic(auto, using(crate::proofs::LawsHold::grouped_tree))]
pub fn tree_is_grouped()
    ensures { TreeIsGrouped }
{}

/// Each table of a document has distinct keys.
#[tactic(auto, using(crate::proofs::LawsHold::distinct))]
pub fn keys_are_distinct()
    ensures { KeysAreDistinct }
{}

/// A section list clashes exactly where it allows a clash error.
#[tactic(auto, using(crate::proofs::LawsHold::named))]
pub fn every_clash_is_named()
    ensures { EveryClashIsNamed }
{}

/// Sections clash by the cuts of their paths exactly where they do by their targets.
#[tactic(auto, using(crate::proofs::LawsHold::agree))]
pub fn clashes_agree()
    ensures { ClashesAgree }
{}

/// The indexed path of a section is its target and its own element.
#[tactic(auto, using(crate::proofs::LawsHold::paths))]
pub fn paths_agree()
    ensures { PathsAgree }
{}

/// Marks in order fit exactly where no two of them collide.
#[tactic(auto, using(crate::proofs::LawsHold::fit))]
pub fn marks_fit()
    ensures { MarksFit }
{}

/// No level of a section list without clashes passes the depth of its tree.
pub fn levels_are_within_depth()
    ensures { LevelsAreWithinDepth }
{}

/// The error that a text outside the grammar is due is one.
pub fn grammar_faults_are_one()
    ensures { GrammarFaultsAreOne }
{}

/// A text of the grammar is due none.
pub fn grammar_texts_have_none()
    ensures { GrammarTextsHaveNone }
{}

/// Nothing is wrong before the token at which a text stops: some text of the grammar begins with the same characters.
#[tactic(auto, using(crate::proofs::Viable::FaultsAreOne::passed_text_is_viable))]
pub fn passed_text_is_viable()
    ensures { PassedTextIsViable }
{}

/// Nothing is too deep where fewer characters that lead deeper stand before it than the limit.
#[tactic(auto, using(crate::proofs::LawsHold::opened))]
pub fn deep_offsets_are_opened()
    ensures opened { DeepOffsetsAreOpened }
    ensures shallow { ShallowTextIsFree }
{}

/// Where the reader meets a key or a bracket above the limit, that one is too deep.
#[tactic(auto, using(crate::proofs::Nesting::DeepStopsAreTooDeep::deep_stops_are_too_deep))]
pub fn deep_stops_are_too_deep()
    ensures { DeepStopsAreTooDeep }
{}

/// A text of the grammar that has one passes the limit.
pub fn deep_stops_pass_the_limit()
    ensures { DeepStopsPassTheLimit }
{}

/// A text has one such key or bracket at most.
#[tactic(auto, using(crate::proofs::Nesting::DeepStopsAreOne::deep_stops_are_one))]
pub fn deep_stops_are_one()
    ensures { DeepStopsAreOne }
{}

/// And no error of the grammar is due before it: all up to it may stand.
#[tactic(auto, using(crate::proofs::Nesting::DeepStopsComeFirst::deep_stops_come_first))]
pub fn deep_stops_come_first()
    ensures { DeepStopsComeFirst }
{}

/// A text without U+007F keeps the document that it had by the old rules.
#[tactic(auto, using(crate::proofs::LawsHold::old))]
pub fn old_documents_stand()
    ensures { OldDocumentsStand }
{}

/// What a text means does not depend on the offsets of its characters.
#[tactic(auto, using(crate::proofs::SameMeaning::RespelledMeanTheSame::offsets_mean_nothing))]
pub fn offsets_mean_nothing()
    ensures { OffsetsMeanNothing }
{}

/// CR LF for each LF of a text without CR leaves its document.
#[tactic(auto, using(crate::proofs::SameMeaning::RespelledMeanTheSame::returns_mean_nothing))]
pub fn returns_mean_nothing()
    ensures { ReturnsMeanNothing }
{}

/// One U+FEFF in front of a text that begins with none leaves its document.
#[tactic(auto, using(crate::proofs::SameMeaning::RespelledMeanTheSame::byte_order_mark_means_nothing))]
pub fn byte_order_mark_means_nothing()
    ensures { ByteOrderMarkMeansNothing }
{}

/// Texts that differ in blanks, comments and empty lines alone have the same document.
#[tactic(auto, using(crate::proofs::Spacing::TokensAlike::respaced_means_nothing))]
pub fn respaced_means_nothing()
    ensures { RespacedMeansNothing }
{}

/// Whether a list clashes does not depend on the order of its sections, where each keeps its path.
#[tactic(auto, using(crate::proofs::LawsHold::order))]
pub fn order_is_free()
    ensures { OrderIsFree }
{}

/// Without array sections it does not depend on their order at all.
#[tactic(auto, using(crate::proofs::LawsHold::plain_order))]
pub fn plain_order_is_free()
    ensures { PlainOrderIsFree }
{}

/// Sections in another order mean the same, where each keeps its indexed path.
#[tactic(auto, using(crate::proofs::SameMeaning::ReorderedMeanTheSame::reordered_means_the_same))]
pub fn reordered_means_the_same()
    ensures { ReorderedMeansTheSame }
{}

/// Without array sections they mean the same in each order.
#[tactic(auto, using(crate::proofs::SameMeaning::ReorderedMeanTheSame::plain_reordered_means_the_same))]
pub fn plain_reordered_means_the_same()
    ensures { PlainReorderedMeansTheSame }
{}

/// Lists without clashes that differ in the order of the rows of each section mean the same maps.
#[tactic(auto, using(crate::proofs::SameMeaning::RowsMeanTheSame::row_order_means_nothing))]
pub fn row_order_means_nothing()
    ensures { RowOrderMeansNothing }
{}

/// Trees of the same maps are equally deep.
#[tactic(auto, using(crate::proofs::SameMeaning::ReorderedMeanTheSame::same_maps_are_as_deep))]
pub fn same_maps_are_as_deep()
    ensures { SameMapsAreAsDeep }
{}

/// A section list is entered exactly where nothing clashes.
#[tactic(auto, using(crate::proofs::LawsHold::entering))]
pub fn entering_accepts()
    ensures { EnteringAccepts }
{}

/// What is entered has the tree of its mentions.
#[tactic(auto, using(crate::proofs::LawsHold::growing))]
pub fn entering_grows()
    ensures { EnteringGrows }
{}

/// Sections go into a trie exactly where they are entered, and leave it with the same tree.
#[tactic(auto, using(crate::proofs::LawsHold::as_trie))]
pub fn trie_is_entering()
    ensures { TrieIsEntering }
{}

/// The next section has in the trie the level that it has in the tree.
#[tactic(auto, using(crate::proofs::LawsHold::levels_there))]
pub fn trie_gives_levels()
    ensures { TrieGivesLevels }
{}

/// What stops a section after those that were entered is a clash that is named.
#[tactic(auto, using(crate::proofs::LawsHold::stopping))]
pub fn stops_are_named()
    ensures { StopsAreNamed }
{}

/// So is what stops a section that is put into a trie.
#[tactic(auto, using(crate::proofs::LawsHold::trie_stopping))]
pub fn trie_stops_are_named()
    ensures { TrieStopsAreNamed }
{}
