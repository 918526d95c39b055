//! The machine.
ghost use Rattle.std.specs.Prelude.{◌≡◌, ◌≤◌, All, IfOk, IfSome, length, map, find};
ghost use Rattle.std.specs.List.{list_any};
ghost use Rattle.std.specs.Option.{option_map};
ghost use Rattle.verb_codes.specs.Verbs.{IsInRange};
ghost use Rattle.jack_rules.specs.Switching as spec;

use crate::opening::{open_jacks, open_speakers};
use crate::pins::{JackPin, JackState, SpeakerPin, SpeakerState};
use codec_graph::Graph;
use command_engine::Event;
use route_planner::Plan;
use std::alloc::{AllocError, Global};
use std::marker::Model;
use verb_codes::{Command, Verb, has_bit};

/// The bit of a pin sense that says that something is plugged in (HDA 1.0a, 7.3.3.15).
const PRESENCE_AT: u32 = 31;
/// The pin control that enables the output alone (HDA 1.0a, 7.3.3.13).
const OUTPUT_ENABLED: u8 = 0x40;

/// The jacks and the speakers of codecs, what is known of them, and which jack the outstanding command asks. Contracts
/// see each of them. This project's own.
#[derive(Drop)]
pub struct Switching {
    jacks: Vec<JackState>,
    speakers: Vec<SpeakerState>,
    asking: Option<JackPin>,
}

impl Model for Switching {
    ghost use Rattle.jack_rules.specs.Switching.{SwitchingState};

    ghost Value = { SwitchingState };

    ghost use Rattle.jack_rules.specs.Inside.{state_inside, IsInside};

    ghost view = { state_inside };

    ghost invariant = { IsInside };
}

impl Switching {
    /// Of codecs that were set up for these plans, one for each: every jack is to be asked and counts as absent, and
    /// every speaker was sent last what enables its output. Only this call takes memory. This project's own.
    ///
    /// # Errors
    /// Want of memory.
    pub fn new(alloc: Global, graphs: &[Graph], plans: &[Plan]) -> Result<Switching, AllocError>
        requires one_each { length plans.now ≡ length graphs.now }
        requires few { All (λ codec. codec.address ≤ 14) graphs.now }
        ensures opened { IfOk result (λ switching. switching ≡ spec.switching_opened graphs.now plans.now) }
        ensures reach { IfOk result spec.AreInReach }
    {
        let jacks = open_jacks(alloc, graphs, plans)?;
        let speakers = open_speakers(alloc, &jacks, graphs, plans)?;
        Ok(Switching {
            jacks,
            speakers,
            asking: None,
        })
    }

    /// Takes an event that a codec told unasked: one of a jack, by its codec and tag, makes that jack to be asked (HDA
    /// 1.0a, 7.3.3.14). This project's own.
    pub fn note(&mut self, event: Event)
        ensures { self.new ≡ spec.told_event self.old event }
    {
        note_all(&mut self.jacks, event);
    }

    /// Takes the answer to the command that came last: where it asked a jack, that jack is set present or absent by bit
    /// 31 (HDA 1.0a, 7.3.3.15). The answer of another command says nothing. This project's own.
    pub fn answer(&mut self, word: u32)
        ensures { self.new ≡ spec.told_answer self.old word }
    {
        if let Some(asked) = self.asking {
            sense_all(&mut self.jacks, asked, has_bit(word, PRESENCE_AT));
            self.asking = None;
        }
    }

    /// The next command, which counts as sent: for the first speaker that was sent last another control than is wanted,
    /// the pin control that is; else for the first jack that is to be asked, its pin sense; else none. A speaker is
    /// wanted silent where some jack of its codec and association is present (HDA 1.0a, 7.3.3.13, 7.3.3.15). This
    /// project's own.
    pub fn next(&mut self) -> Option<Command>
        ensures command { result ≡ (spec.next_choice self.old).command }
        ensures next { self.new ≡ (spec.next_choice self.old).next }
        ensures in_range { IfSome result IsInRange }
    {
        match set_first_right(&self.jacks, &mut self.speakers) {
            Some(command) => {
                self.asking = None;
                Some(command)
            }
            None => self.ask_next(),
        }
    }

    /// The command that asks the first jack that is to be asked, if one is.
    fn ask_next(&mut self) -> Option<Command>
        ensures command { result ≡ (spec.choice_by_jack self.old (find spec.is_to_ask self.old.jacks)).command }
        ensures next { self.new ≡ (spec.choice_by_jack self.old (find spec.is_to_ask self.old.jacks)).next }
        ensures in_range { IfSome result IsInRange }
    {
        match ask_first(&mut self.jacks) {
            Some(jack) => {
                self.asking = Some(jack);
                Some(Command {
                    codec: jack.codec,
                    nid: jack.pin,
                    verb: Verb::GetSense,
                })
            }
            None => None,
        }
    }

    /// The speakers in order: codecs as they were given, and of each its pins in the order of its plan.
    pub fn speakers(&self) -> &[SpeakerState]
        ensures { result.now ≡ self.now.speakers }
    {
        self.speakers.as_slice()
    }
}

/// Whether an event is one of a jack.
fn is_of_jack(event: Event, jack: &JackPin) -> bool
    ensures { result ≡ spec.is_of_jack event jack.now }
{
    jack.codec == event.codec && jack.tag == usize::from(event.tag)
}

/// What is known of a jack after an event.
fn told_jack(event: Event, state: JackState) -> JackState
    ensures { result ≡ spec.told_jack event state }
{
    JackState {
        to_ask: is_of_jack(event, &state.jack) || state.to_ask,
        ..state
    }
}

/// Tells all jacks of an event.
fn note_all(jacks: &mut [JackState], event: Event)
    ensures { jacks.new ≡ map (spec.told_jack event) jacks.old }
{
    for state in jacks.iter_mut() {
        *state = told_jack(event, *state);
    }
}

/// What is known of a jack once this one was asked.
fn sensed(asked: JackPin, present: bool, state: JackState) -> JackState
    ensures { result ≡ spec.sensed asked present state }
{
    if state.jack.codec == asked.codec && state.jack.pin == asked.pin {
        JackState { present, ..state }
    } else {
        state
    }
}

/// Sets the jack that was asked present or absent.
fn sense_all(jacks: &mut [JackState], asked: JackPin, present: bool)
    ensures { jacks.new ≡ map (spec.sensed asked present) jacks.old }
{
    for state in jacks.iter_mut() {
        *state = sensed(asked, present, *state);
    }
}

/// Whether a speaker is silent while a jack is as it is known.
fn silences(speaker: &SpeakerPin, state: &JackState) -> bool
    ensures { result ≡ spec.silences speaker.now state.now }
{
    state.present
        && state.jack.codec == speaker.codec
        && state.jack.association == speaker.association
}

/// Whether something is plugged into a jack of a speaker's codec and association.
fn is_silenced(jacks: &[JackState], speaker: &SpeakerPin) -> bool
    ensures { result ≡ list_any (spec.silences speaker.now) jacks.now }
{
    jacks.iter().any(|state| silences(speaker, state))
}

/// Whether a speaker is wanted on.
fn is_wanted(jacks: &[JackState], speaker: &SpeakerPin) -> bool
    ensures { result ≡ spec.is_wanted jacks.now speaker.now }
{
    !is_silenced(jacks, speaker)
}

/// Whether a speaker was sent last another control than is wanted.
fn is_wrong(jacks: &[JackState], state: &SpeakerState) -> bool
    ensures { result ≡ spec.is_wrong jacks.now state.now }
{
    if is_wanted(jacks, &state.speaker) {
        !state.on
    } else {
        state.on
    }
}

/// The pin control by which a speaker is on or silent.
fn control_of(on: bool) -> u8
    ensures { result ≡ spec.control_of on }
{
    if on { OUTPUT_ENABLED } else { 0 }
}

/// The command by which a speaker is as it is wanted.
fn pin_command(jacks: &[JackState], speaker: &SpeakerPin) -> Command
    ensures { result ≡ spec.pin_command jacks.now speaker.now }
{
    Command {
        codec: speaker.codec,
        nid: speaker.pin,
        verb: Verb::SetPin(control_of(is_wanted(jacks, speaker))),
    }
}

/// Sets the first speaker right that was sent last another control than is wanted.
fn set_first_right(jacks: &[JackState], speakers: &mut [SpeakerState]) -> Option<Command>
    ensures command { result ≡ option_map (λ state. spec.pin_command jacks.now state.speaker)
        (find (spec.is_wrong jacks.now) speakers.old) }
    ensures speakers { speakers.new ≡ spec.set_right jacks.now speakers.old }
{
    for state in speakers.iter_mut() {
        if is_wrong(jacks, state) {
            state.on = is_wanted(jacks, &state.speaker);
            return Some(pin_command(jacks, &state.speaker));
        }
    }
    None
}

/// Asks the first jack that is to be asked.
fn ask_first(jacks: &mut [JackState]) -> Option<JackPin>
    ensures jack { result ≡ option_map (λ state. state.jack) (find spec.is_to_ask jacks.old) }
    ensures jacks { jacks.new ≡ spec.ask_first jacks.old }
{
    for state in jacks.iter_mut() {
        if state.to_ask {
            state.to_ask = false;
            return Some(state.jack);
        }
    }
    None
}
