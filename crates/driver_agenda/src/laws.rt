//! How an agenda follows the commands of its codecs, and where any words lead it, each the contract of a function that
//! does nothing.
ghost use Rattle.std.specs.Prelude.{◌≡◌, ◌<◌, ℕ, ◌+◌, List, [], ◌∷◌, ◌++◌, length, map, All, Some, slice_get};
ghost use Rattle.std.specs.Prelude.{slice_index, IsSome};
ghost use Rattle.std.specs.List.{flat_map};
ghost use Rattle.codec_walk.specs.Commands.{walk_commands};
ghost use Rattle.codec_walk.specs.Dialogues.{Dialogue, question};
ghost use Rattle.verb_codes.specs.declared.verbs.Command.{Command};
ghost use Rattle.codec_graph.specs.declared.raw.RawCodec.{RawCodec};
ghost use Rattle.codec_graph.specs.Cycles.{IsWellFormed};
ghost use Rattle.stream_format.specs.declared.format.Format.{Format};
ghost use Rattle.route_planner.specs.declared.routes.Plan.{Plan};
ghost use Rattle.codec_walk.specs.declared.fault.WalkFault.{WalkFault};
ghost use Rattle.driver_agenda.specs.declared.agenda.Agenda.{Agenda};
ghost use Rattle.driver_agenda.specs.Agendas.{next_of, BeginsWalk, LedBy, TellsFault, TellsNoRoute};
ghost use Rattle.driver_agenda.specs.Following.{commands_of, AreRight, Follows, CanReply};
ghost use Rattle.driver_agenda.specs.AnswerWords.{WasAnswered, WalkAfter, AllWalked, AreFaulty, AreUnrouted};
ghost use Rattle.driver_agenda.specs.AnswerWords.{AreRouted, AnswersNoRoute, WasLeft, AreLeft};

use crate::plans::TAG;
use codec_walk::{
    asks_what_the_graph_has, counts_the_commands, outcomes_are_one, tells_what_the_graph_has,
};
use route_setup::Setter;

/// An agenda that follows the commands of well-formed graphs asks the next of them.
pub fn agendas_ask_in_order<T: Setter>()
    ensures { (setter : T) (format : Format) (verbs : RawCodec → List Command) (graphs : List RawCodec) (count : ℕ)
        (agenda : Agenda) → All IsWellFormed graphs
        → Follows (T.means setter format TAG) verbs graphs count agenda
        → next_of agenda.walk agenda.verbs.items agenda.answered ≡ slice_get (commands_of verbs graphs) count }
{
    asks_what_the_graph_has();
}

/// Where the graphs are well-formed and some plan of them has a route, an agenda follows their commands from its
/// beginning on, over every answer to a walk's command that the codecs can give, and over every answer to a verb: no
/// answer is refused then, but for want of memory.
pub fn agendas_follow<T: Setter>()
    ensures begins { (setter : T) (format : Format) (verbs : RawCodec → List Command) (first : RawCodec)
        (rest : List RawCodec) (agenda : Agenda)
        → agenda.addresses.items ≡ map (λ graph. graph.address) (first ∷ rest)
        → BeginsWalk agenda.addresses.items [] agenda
        → Follows (T.means setter format TAG) verbs (first ∷ rest) 0 agenda }
    ensures leads { (setter : T) (format : Format) (verbs : RawCodec → List Command) (graphs : List RawCodec)
        (count answer : ℕ) (old new : Agenda)
        → AreRight (T.means setter format TAG)
        verbs graphs
        → Follows (T.means setter format TAG) verbs graphs count old
        → (count < length (flat_map walk_commands graphs) → (command : Command)
        → slice_get (commands_of verbs graphs) count ≡ Some command → CanReply graphs command answer)
        → LedBy (T.means setter format TAG)
        old.walk answer old new → new.addresses ≡ old.addresses
        → Follows (T.means setter format TAG) verbs graphs (count + 1) new }
    ensures well_formed { (setter : T) (format : Format) (verbs : RawCodec → List Command) (graphs : List RawCodec)
        (count answer : ℕ) (old : Agenda) (fault : WalkFault)
        → AreRight (T.means setter format TAG)
        verbs graphs
        → Follows (T.means setter format TAG) verbs graphs count old
        → (count < length (flat_map walk_commands graphs) → (command : Command)
        → slice_get (commands_of verbs graphs) count ≡ Some command → CanReply graphs command answer)
        → TellsFault old.walk answer fault → ⊥ }
    ensures routed { (setter : T) (format : Format) (verbs : RawCodec → List Command) (graphs : List RawCodec)
        (count answer : ℕ) (old new : Agenda)
        → AreRight (T.means setter format TAG)
        verbs graphs
        → Follows (T.means setter format TAG) verbs graphs count old
        → (count < length (flat_map walk_commands graphs) → (command : Command)
        → slice_get (commands_of verbs graphs) count ≡ Some command → CanReply graphs command answer)
        → TellsNoRoute (T.means setter format TAG) old.walk answer old.addresses.items old.graphs.items
        new → ⊥ }
{
    asks_what_the_graph_has();
    tells_what_the_graph_has();
    counts_the_commands();
    outcomes_are_one();
}

/// Whatever is answered: the words that led an agenda to where it stands lead it on by one more. Where that tells a
/// fault of a codec, all of them together do, and where it leaves no pin a route, they do. Where memory was wanting to
/// take it, the graphs that are left are those that they told.
pub fn agendas_are_answered<T: Setter>()
    ensures begins { (setter : T) (format : Format) (agenda : Agenda)
        → BeginsWalk agenda.addresses.items [] agenda
        → WasAnswered (T.means setter format TAG) [] agenda }
    ensures leads { (setter : T) (format : Format) (words : List ℕ) (answer : ℕ) (old new : Agenda)
        → WasAnswered (T.means setter format TAG) words old → LedBy (T.means setter format TAG) old.walk answer old new
        → new.addresses ≡ old.addresses
        → WasAnswered (T.means setter format TAG) (words ++ answer ∷ []) new }
    ensures malformed { (setter : T) (format : Format) (words : List ℕ) (answer : ℕ) (old : Agenda) (fault : WalkFault)
        → WasAnswered (T.means setter format TAG) words old → TellsFault old.walk answer fault
        → AreFaulty old.addresses.items (words ++ answer ∷ []) old.graphs.items
        (slice_index old.addresses.items (length old.graphs.items)) fault }
    ensures nothing { (setter : T) (format : Format) (words : List ℕ) (answer : ℕ) (old new : Agenda)
        → WasAnswered (T.means setter format TAG) words old
        → TellsNoRoute (T.means setter format TAG) old.walk answer old.addresses.items old.graphs.items new
        → AreUnrouted (T.means setter format TAG) old.addresses.items (words ++ answer ∷ []) new.graphs.items
        new.plans.items }
    ensures wanting { (setter : T) (format : Format) (words : List ℕ) (answer : ℕ) (old new : Agenda)
        → WasAnswered (T.means setter format TAG) words old → new.addresses ≡ old.addresses
        → WasLeft (T.means setter format TAG) old.walk answer old new
        → AreLeft (T.means setter format TAG) (words ++ answer ∷ []) new }
{}

/// An answer comes to one thing at most: it leads on, or it tells one fault, or that no pin has a route. That it comes
/// to one of them where memory is not wanting is `Agenda::take`'s.
pub fn answers_come_to_one<T: Setter>()
    ensures one_fault { (answer : ℕ) (one other : WalkFault) (old : Agenda) → TellsFault old.walk answer one
        → TellsFault old.walk answer other → one ≡ other }
    ensures leads_or_faulty { (setter : T) (format : Format) (answer : ℕ) (fault : WalkFault) (old new : Agenda)
        → LedBy (T.means setter format TAG) old.walk answer old new → TellsFault old.walk answer fault → ⊥ }
    ensures leads_or_unrouted { (setter : T) (format : Format) (answer : ℕ) (old new : Agenda) (plans : List Plan)
        → LedBy (T.means setter format TAG) old.walk answer old new
        → AnswersNoRoute (T.means setter format TAG) old.walk answer old.addresses.items old.graphs.items plans → ⊥ }
    ensures faulty_or_unrouted { (setter : T) (format : Format) (answer : ℕ) (fault : WalkFault) (old : Agenda)
        (plans : List Plan) → TellsFault old.walk answer fault
        → AnswersNoRoute (T.means setter format TAG) old.walk answer old.addresses.items old.graphs.items plans → ⊥ }
{
    outcomes_are_one();
}

/// Words come to one thing at most. They are those of walks of which the last goes on, behind one list of graphs and
/// with one dialogue still to come; or they tell one fault, of one codec, behind the same graphs; or the first of them
/// are those of the walks over all codecs, of which the graphs are one list, and so are their plans: some pin has a
/// route, or none has. So words that led an agenda to where it stands tell no fault, nor that no pin has a route, and
/// where nothing was answered neither is told.
pub fn words_come_to_one<T: Setter>()
    ensures faulty { (addresses words : List ℕ) (one other : List RawCodec) (codec codec' : ℕ)
        (fault fault' : WalkFault)
        → AreFaulty addresses words one codec fault → AreFaulty addresses words other codec' fault'
        → (one ≡ other) × (codec ≡ codec') × (fault ≡ fault') }
    ensures under_way { (addresses words : List ℕ) (one other : List RawCodec) (dialogue dialogue' : Dialogue)
        → WalkAfter addresses words one dialogue → IsSome (question dialogue)
        → WalkAfter addresses words other dialogue' → IsSome (question dialogue')
        → (one ≡ other) × (dialogue ≡ dialogue') }
    ensures faulty_or_under_way { (addresses words : List ℕ) (one other : List RawCodec) (codec : ℕ)
        (fault : WalkFault) (dialogue : Dialogue)
        → AreFaulty addresses words one codec fault → WalkAfter addresses words other dialogue
        → IsSome (question dialogue) → ⊥ }
    ensures faulty_or_whole { (addresses words before rest : List ℕ) (one other : List RawCodec) (codec : ℕ)
        (fault : WalkFault)
        → AreFaulty addresses words one codec fault → words ≡ before ++ rest → AllWalked addresses before other → ⊥ }
    ensures under_way_or_whole { (addresses words before rest : List ℕ) (one other : List RawCodec)
        (dialogue : Dialogue)
        → WalkAfter addresses words one dialogue → IsSome (question dialogue) → words ≡ before ++ rest
        → AllWalked addresses before other → ⊥ }
    ensures whole { (addresses before before' rest rest' : List ℕ) (one other : List RawCodec)
        → AllWalked addresses before one → AllWalked addresses before' other → before ++ rest ≡ before' ++ rest'
        → (one ≡ other) × (before ≡ before') }
    ensures unrouted { (setter : T) (format : Format) (addresses words : List ℕ) (one other : List RawCodec)
        (plans plans' : List Plan) → AreUnrouted (T.means setter format TAG) addresses words one plans
        → AreUnrouted (T.means setter format TAG) addresses words other plans' → (one ≡ other) × (plans ≡ plans') }
    ensures routed { (setter : T) (format : Format) (addresses words : List ℕ) (one other : List RawCodec)
        (plans plans' : List Plan) (verbs verbs' : ℕ) → AreRouted (T.means setter format TAG) addresses words one plans
        verbs
        → AreRouted (T.means setter format TAG) addresses words other plans' verbs'
        → (one ≡ other) × (plans ≡ plans') × (verbs ≡ verbs') }
    ensures unrouted_or_routed { (setter : T) (format : Format) (addresses words : List ℕ) (one other : List RawCodec)
        (plans plans' : List Plan) (verbs : ℕ) → AreUnrouted (T.means setter format TAG) addresses words one plans
        → AreRouted (T.means setter format TAG) addresses words other plans' verbs → ⊥ }
    ensures led_or_faulty { (setter : T) (format : Format) (words : List ℕ) (agenda : Agenda) (graphs : List RawCodec)
        (codec : ℕ) (fault : WalkFault) → WasAnswered (T.means setter format TAG) words agenda
        → AreFaulty agenda.addresses.items words graphs codec fault → ⊥ }
    ensures led_or_unrouted { (setter : T) (format : Format) (words : List ℕ) (agenda : Agenda)
        (graphs : List RawCodec) (plans : List Plan) → WasAnswered (T.means setter format TAG) words agenda
        → AreUnrouted (T.means setter format TAG) agenda.addresses.items words graphs plans → ⊥ }
    ensures none_or_faulty { (addresses : List ℕ) (graphs : List RawCodec) (codec : ℕ) (fault : WalkFault)
        → AreFaulty addresses [] graphs codec fault → ⊥ }
    ensures none_or_unrouted { (setter : T) (format : Format) (addresses : List ℕ) (graphs : List RawCodec)
        (plans : List Plan) → AreUnrouted (T.means setter format TAG) addresses [] graphs plans → ⊥ }
{
    outcomes_are_one();
}
