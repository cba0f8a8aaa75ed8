// Laws of the grammar and of the function on lists that the parser computes. They have no code.
ghost use Rattle.zig_parse.specs.Laws.{ChosenIsSure, DerivedIsSentence, EndedBegins, EvenlyBegins, LastLook, LedBegins, MovesSuffice, NeverBoth, OneReason, OneRefusal, OneTree, ReadsTree};

/// A list of tokens has at most one tree.
pub fn one_tree()
    ensures { OneTree }
{}

/// The nodes of `parse_of` hold all tokens, by rules that derive them.
pub fn tree_is_derived()
    ensures { ReadsTree }
{}

/// A list of tokens has at most one answer: it is accepted, or refused at one token for one reason.
pub fn one_answer()
    ensures apart { NeverBoth }
    ensures token { OneRefusal }
    ensures reason { OneReason }
{}

/// What the rules derive is a sentence: among its trees one is preferred.
pub fn derived_is_sentence()
    ensures { DerivedIsSentence }
{}

/// At a token each thread has no more moves than its open nodes and the things to come tell.
pub fn moves_suffice()
    ensures { MovesSuffice }
{}

/// A tree that the tie-breaks choose is sure: where the second of two alternatives is taken, the first
/// leads nowhere, with whatever comes after it in the same braces.
pub fn chosen_is_sure()
    ensures { ChosenIsSure }
{}

/// What stands behind a token counts for no refusal of it.
pub fn last_look()
    ensures { LastLook }
{}

/// Where the way of the first pass that leads after some tokens, or after more, isn't too deep, some sentence
/// begins with them that has each of them within the depth.
pub fn led_begins()
    ensures { LedBegins }
{}

/// Where some tokens end what was read by a way that isn't too deep, and by none before it, some sentence begins
/// with what was read that has each token of it within the depth.
pub fn ended_begins()
    ensures { EndedBegins }
{}

/// Where the threads of the first pass are even after some tokens, or after more, and not all too deep, some
/// sentence begins with the tokens that has each of them within the depth.
pub fn evenly_begins()
    ensures { EvenlyBegins }
{}
