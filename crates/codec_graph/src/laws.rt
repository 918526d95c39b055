//! Laws of codecs, each the contract of a function that does nothing.
ghost use Rattle.std.specs.Prelude.{◌≡◌, ◌<◌, ◌+◌, ◌^◌, ◌↔◌, ℕ, None, List, Bool, map, All, IsTrue, Contains};
ghost use Rattle.std.specs.Prelude.{slice_index};
ghost use Rattle.std.specs.List.{range_with_len};
ghost use Rattle.std.specs.List.Sorted.{IsStrictlySortedBy};
ghost use Rattle.std.specs.Map.{keys_of};
ghost use Rattle.codec_graph.specs.declared.raw.RawCodec.{RawCodec};
ghost use Rattle.codec_graph.specs.declared.controls.Control.{Control};
ghost use Rattle.codec_graph.specs.Widget.{node_identifiers, most_amplified};
ghost use Rattle.codec_graph.specs.Listed.{most_entries, HasEntries, HasReadableList, list_fault, listed_node};
ghost use Rattle.codec_graph.specs.Listed.{codec_list_fault, listed};
ghost use Rattle.codec_graph.specs.Faults.{most_listed};
ghost use Rattle.codec_graph.specs.declared.raw.RawNode.{RawNode};
ghost use Rattle.codec_graph.specs.Cycles.{IsWellFormed};
ghost use Rattle.codec_graph.specs.Settings.{Entries, key, key_cmp, has_control, controls_of, IsSettingsOf};
ghost use Rattle.codec_graph.specs.VerbMeaning.{list_word, answer_of};
ghost use Rattle.codec_graph.specs.CodecStates.{most_answers, most_unsolicited};
ghost use Rattle.verb_codes.specs.Lists.{entry_width, entries_per_word, entries_of_word};
ghost use Rattle.verb_codes.specs.declared.verbs.Command.{Command};

use crate::limits::{
    MOST_AMPLIFIED, MOST_ANSWERS, MOST_ENTRIES, MOST_LISTED, MOST_UNSOLICITED, NODE_IDENTIFIERS,
};

/// With the settings of a well-formed graph every answer has 32 bits.
pub fn answers_fit()
    ensures { (graph : RawCodec) (settings : Entries) (present : List Bool) (command : Command)
        → IsWellFormed graph → IsSettingsOf graph settings → answer_of graph settings present command < 2 ^ 32 }
{}

/// The word that GetList answers has the entries from its place on, and zeros past the end of the list.
pub fn list_words_have_entries()
    ensures { (long : Bool) (entries : List ℕ) (place : ℕ) → All (λ entry. entry < 2 ^ entry_width long) entries
        → entries_of_word long (list_word long entries place)
        ≡ map (λ i. slice_index entries (place + i)) (range_with_len 0 (entries_per_word long)) }
{}

/// The controls of a codec are those that the table of controls gives its nodes, and they ascend; so do the keys of its
/// settings.
pub fn controls_ascend()
    ensures exact { (codec : RawCodec) (nid : ℕ) (control : Control) → IsWellFormed codec
        → Contains (controls_of codec) (key nid control) ↔ IsTrue (has_control codec nid control) }
    ensures ascending { (codec : RawCodec) → IsStrictlySortedBy key_cmp (controls_of codec) }
    ensures settings { (codec : RawCodec) (settings : Entries) → IsSettingsOf codec settings
        → IsStrictlySortedBy key_cmp (keys_of settings) }
{}

/// A list without a fault that is expanded is readable, of one widget and of a whole codec: so [`crate::Graph::check`]
/// takes it.
pub fn expanded_lists_are_readable()
    ensures node { (node : RawNode) → HasEntries node → list_fault node ≡ None → HasReadableList (listed_node node) }
    ensures codec { (codec : RawCodec) → All HasEntries codec.nodes → ((nid : ℕ) → codec_list_fault codec nid ≡ None)
        → All HasReadableList (listed codec).nodes }
{}

/// The limits of the code are those of the definitions.
pub fn limits_agree()
    ensures listed { MOST_LISTED ≡ most_listed }
    ensures identifiers { NODE_IDENTIFIERS ≡ node_identifiers }
    ensures entries { MOST_ENTRIES ≡ most_entries }
    ensures amplified { MOST_AMPLIFIED ≡ most_amplified }
    ensures answers { MOST_ANSWERS ≡ most_answers }
    ensures unsolicited { MOST_UNSOLICITED ≡ most_unsolicited }
{}
