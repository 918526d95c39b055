//! Laws of the answers of jacks as a journal has them, each the contract of a function that does nothing.
ghost use Rattle.std.specs.Prelude.{◌≡◌, ◌<◌, ◌^◌, ℕ, List, All, Some, map};
ghost use Rattle.hda_world.specs.Events.{Event};
ghost use Rattle.verb_codes.specs.declared.verbs.Command.{Command};
ghost use Rattle.verb_codes.specs.Verbs.{reading_of};
ghost use Rattle.codec_graph.specs.declared.raw.RawCodec.{RawCodec};
ghost use Rattle.route_planner.specs.declared.routes.Plan.{Plan};
ghost use Rattle.command_engine.specs.Fetchings.{AscendFrom};
ghost use Rattle.command_engine.specs.Submitting.{submit_accesses};
ghost use Rattle.command_engine.specs.declared.ring_places.RingPlaces.{RingPlaces};
ghost use Rattle.command_engine.specs.Entries.{responses_in, unasked_events_of, answer_among};
ghost use Rattle.command_engine.specs.Polling.{PollReads, AreNew, poll_accesses, asked_of};
ghost use Rattle.jack_rules.specs.declared.pins.JackPin.{JackPin};
ghost use Rattle.jack_rules.specs.declared.pins.SpeakerPin.{SpeakerPin};
ghost use Rattle.jack_rules.specs.declared.pins.SpeakerState.{SpeakerState};
ghost use Rattle.jack_rules.specs.JackPins.{speakers_of};
ghost use Rattle.jack_rules.specs.Switching.{SwitchingState, told_all, next_choice};
ghost use Rattle.laws_switching.specs.Senses.{Senses, KnowsJacks, senses_after, AreDecided, IsBesideSenses};

/// What the switch rules keep of jacks is what the journal says of them: events beside both rings change neither, and a
/// poll tells both the same, where the jack that the rules ask is of the codec that the outstanding command asks.
/// Neither writes a command.
pub fn sense_answers_are_known()
    ensures beside { (corb rirb : ℕ) (speakers : List SpeakerPin) (senses : Senses) (events : List Event)
        → All (IsBesideSenses corb rirb) events
        → (senses_after corb rirb events senses ≡ senses) × AreDecided corb rirb speakers events senses }
    ensures polls { (corb rirb : ℕ) (speakers : List SpeakerPin) (senses : Senses) (switching : SwitchingState)
        (rings : RingPlaces) (reads : PollReads) → AreNew rings reads → KnowsJacks senses switching
        → ((jack : JackPin) → switching.asking ≡ Some jack → asked_of rings.outstanding ≡ Some jack.codec)
        → KnowsJacks (senses_after corb rirb (poll_accesses rirb rings reads) senses)
        (told_all switching (unasked_events_of (responses_in reads.entries))
        (answer_among (asked_of rings.outstanding) (responses_in reads.entries)))
        × AreDecided corb rirb speakers (poll_accesses rirb rings reads) senses }
{}

/// A command that the switch rules choose and submit is what the journal decides: a SetPin of a speaker carries what
/// the sense answers before it decide, and a jack is asked for the journal as for the rules. So it is where codecs
/// stand by address and the rules have the speakers of their plans.
pub fn choices_are_decided()
    ensures { (corb rirb : ℕ) (graphs : List RawCodec) (plans : List Plan) (senses : Senses)
        (switching : SwitchingState) (rings : RingPlaces) (command : Command) (word : ℕ) → AscendFrom 0 graphs
        → KnowsJacks senses switching
        → map (λ (state : SpeakerState). state.speaker) switching.speakers ≡ speakers_of graphs plans
        → (next_choice switching).command ≡ Some command → reading_of word ≡ Some command → word < 2 ^ 32
        → KnowsJacks (senses_after corb rirb (submit_accesses corb rings word) senses) (next_choice switching).next
        × AreDecided corb rirb (speakers_of graphs plans) (submit_accesses corb rings word) senses }
{}
