//! Laws of walks, each the contract of a function that does nothing.
ghost use Rattle.std.specs.Prelude.{◌≡◌, ◌+◌, ◌⊎◌, Some, List, ℕ, Result, Ok, Err, length, slice_get, sum_by};
ghost use Rattle.codec_graph.specs.declared.raw.RawCodec.{RawCodec};
ghost use Rattle.codec_graph.specs.Cycles.{IsWellFormed};
ghost use Rattle.codec_walk.specs.Dialogues.{Told, question, after, told, asked};
ghost use Rattle.codec_walk.specs.Walks.{walk};
ghost use Rattle.codec_walk.specs.Commands.{walk_commands, node_count};
ghost use Rattle.codec_walk.specs.Replies.{CanAnswer, AreReplies};
ghost use Rattle.codec_walk.specs.Outcomes.{IsGood, IsOutcome, IsOutcomeOf};
ghost use Rattle.codec_walk.specs.declared.fault.WalkError.{WalkError};
ghost use Rattle.codec_walk.specs.declared.fault.WalkError.TheVariants.{OutOfMemory};

use codec_graph::list_words_have_entries;

/// Whatever is answered: what was asked in a walk that has all words is what the walk over the told words asks.
pub fn asks_what_is_told()
    ensures { (address : ℕ) (answers : List ℕ) (codec : RawCodec) → told (after (walk address) answers) ≡ Some codec
        → asked (walk address) answers ≡ walk_commands codec }
{}

/// With answers that the codec of a well-formed graph can give, the walk over its address asks the graph's walk
/// commands in order, and nothing more.
pub fn asks_what_the_graph_has()
    ensures { (graph : RawCodec) (answers : List ℕ) → IsWellFormed graph
        → AreReplies (CanAnswer graph) (walk_commands graph) answers
        → question (after (walk graph.address) answers) ≡ slice_get (walk_commands graph) (length answers) }
{
    list_words_have_entries();
}

/// With such answers to all the walk commands the graph is told, word for word, and [`crate::Walk::finish`] gives it,
/// unless there is no memory for it.
pub fn tells_what_the_graph_has()
    ensures told { (graph : RawCodec) (answers : List ℕ) → IsWellFormed graph
        → AreReplies (CanAnswer graph) (walk_commands graph) answers → length answers ≡ length (walk_commands graph)
        → (codec : RawCodec) × ((after (walk graph.address) answers ≡ Told codec) × IsGood codec graph) }
    ensures finished { (graph : RawCodec) (answers : List ℕ) (result : Result RawCodec WalkError) → IsWellFormed graph
        → AreReplies (CanAnswer graph) (walk_commands graph) answers → length answers ≡ length (walk_commands graph)
        → IsOutcomeOf (after (walk graph.address) answers) result → (result ≡ Ok graph) ⊎ (result ≡ Err OutOfMemory) }
{
    list_words_have_entries();
}

/// How many walk commands there are: ten for the root and the function group, and those of each widget.
pub fn counts_the_commands()
    ensures { (codec : RawCodec) → length (walk_commands codec) ≡ 10 + sum_by node_count codec.nodes }
{}

/// Of the words that were told comes one thing: two outcomes of them are the same, unless memory was wanting.
pub fn outcomes_are_one()
    ensures { (codec : RawCodec) (one other : Result RawCodec WalkError) → IsOutcome codec one → IsOutcome codec other
        → (one ≡ other) ⊎ ((one ≡ Err OutOfMemory) ⊎ (other ≡ Err OutOfMemory)) }
{}
