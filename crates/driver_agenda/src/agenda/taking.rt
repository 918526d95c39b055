//! What comes next on an agenda, and where an answer leads.
ghost use Rattle.std.specs.Prelude.{◌≡◌, ◌≤◌, ◌<◌, ℕ, [], None, Some, All, length, slice_index, IfOk, IfSome, IsSome};
ghost use Rattle.std.specs.Prelude.{OnOk, OnErr};
ghost use Rattle.std.specs.Option.{is_some};
ghost use Rattle.verb_codes.specs.Verbs.{IsInRange};
ghost use Rattle.codec_graph.specs.declared.raw.RawCodec.{RawCodec};
ghost use Rattle.codec_walk.specs.Walks as walks;
ghost use Rattle.codec_walk.specs.Dialogues.{question, answered, Told};
ghost use Rattle.codec_walk.specs.Remaining.{remaining};
ghost use Rattle.codec_walk.specs.Outcomes.{IsFaultOf};
ghost use Rattle.codec_walk.specs.declared.fault.WalkFault.{WalkFault};
ghost use Rattle.driver_agenda.specs.Sound.{WalkGoesOn, TellsOf};
ghost use Rattle.driver_agenda.specs.Agendas as spec;
ghost use Rattle.driver_agenda.specs.Agendas.{GivesGraph};
ghost use Rattle.driver_agenda.specs.AnswerWords as words;

use super::Agenda;
use crate::fault::AgendaFault;
use crate::plans::{TAG, have_route, plans_of, verbs_of};
use codec_graph::Graph;
use codec_walk::{Walk, WalkError, asks_what_is_told};
use route_planner::Plan;
use route_setup::Setter;
use std::alloc::{AllocError, Global};
use stream_format::Format;
use verb_codes::Command;

impl Agenda {
    /// An agenda without codecs, for a stream of this format. It takes no memory.
    pub fn empty(alloc: Global, format: Format) -> Agenda
        ensures addresses { result.addresses.items ≡ [] }
        ensures format { result.format ≡ format }
        ensures graphs { result.graphs.items ≡ [] }
        ensures plans { result.plans.items ≡ [] }
        ensures verbs { result.verbs.items ≡ [] }
        ensures walk { result.walk ≡ None }
    {
        Agenda {
            alloc,
            format,
            addresses: Vec::new(alloc),
            walk: None,
            graphs: Vec::new(alloc),
            plans: Vec::new(alloc),
            verbs: Vec::new(alloc),
            answered: 0,
        }
    }

    /// The agenda of the codecs with these addresses, of which there is at least one: the walk over the first of them
    /// is at its beginning.
    ///
    /// # Errors
    /// Want of memory.
    pub fn new(alloc: Global, format: Format, addresses: Vec<u8>) -> Result<Agenda, AllocError>
        requires some { 0 < length addresses.items }
        requires few { All (λ address. address ≤ 14) addresses.items }
        ensures addresses { IfOk result (λ agenda. agenda.addresses.items ≡ addresses.items) }
        ensures format { IfOk result (λ agenda. agenda.format ≡ format) }
        ensures begins { IfOk result (spec.BeginsWalk addresses.items []) }
    {
        let mut agenda = Agenda::empty(alloc, format);
        agenda.addresses = addresses;
        agenda.begin_walk()?;
        Ok(agenda)
    }

    /// The command that comes next, within the ranges of `verb_codes::encode`. `None` exactly where all were answered.
    pub fn next(&self) -> Option<Command>
        ensures value { result ≡ spec.next_of self.now.walk self.now.verbs.items self.now.answered }
        ensures in_range { IfSome result IsInRange }
    {
        match &self.walk {
            Some(walk) => walk.next(),
            None => self.verbs.get(self.answered).copied(),
        }
    }

    /// Whether codecs are still walked.
    pub fn is_walking(&self) -> bool
        ensures { result ≡ is_some self.now.walk }
    {
        self.walk.is_some()
    }

    /// The graphs of the codecs that were walked.
    pub fn graphs(&self) -> &[Graph]
        ensures { result.now ≡ self.now.graphs.items }
    {
        self.graphs.as_slice()
    }

    /// The graphs of the codecs that were walked, and once all of them were their plans.
    pub fn parts(self) -> (Vec<Graph>, Vec<Plan>)
        ensures { result ≡ (self.graphs, self.plans) }
    {
        let Agenda { graphs, plans, .. } = self;
        (graphs, plans)
    }

    /// Begins the walk over the next codec.
    fn begin_walk(&mut self) -> Result<(), AllocError>
        requires none { self.old.walk ≡ None }
        requires left { length self.old.graphs.items < length self.old.addresses.items }
        requires fresh { self.old.answered ≡ 0 }
        requires unplanned { self.old.plans.items ≡ [] }
        requires verbless { self.old.verbs.items ≡ [] }
        ensures begins { OnOk result (spec.BeginsWalk self.old.addresses.items self.old.graphs.items self.new) }
        ensures graphs { self.new.graphs ≡ self.old.graphs }
        ensures plans { self.new.plans ≡ self.old.plans }
        ensures walkless { OnErr result (self.new.walk ≡ None) }
        ensures verbless { OnErr result (self.new.verbs.items ≡ []) }
        ensures addresses { self.new.addresses ≡ self.old.addresses }
        ensures format { self.new.format ≡ self.old.format }
    {
        let address = self.addresses[self.graphs.len()];
        let walk = walk_over(self.alloc, address)?;
        self.walk = Some(walk);
        Ok(())
    }

    /// Takes the answer to the command that [`Agenda::next`] gives, which is not `None`. The setter says what plan a
    /// graph has, and which verbs; it is the same at each answer.
    ///
    /// # Errors
    /// `Malformed` exactly where a codec's answers, all of them now, are not those of a well-formed graph.
    /// `NothingRouted` exactly where this was the last walk's last answer and no plan of the graphs has a route. Or
    /// want of memory: the graph that this answer told, and the plans, may then be kept or not. The graphs of the
    /// walks before stay. After an error no command comes.
    #[tactic(auto, using(crate::proofs::Leading::nothing_next))]
    pub fn take<T: Setter>(&mut self, setter: &T, answer: u32) -> Result<(), AgendaFault>
        requires { IsSome (spec.next_of self.old.walk self.old.verbs.items self.old.answered) }
        ensures leads { OnOk result (spec.LedBy (T.means setter.now self.old.format TAG) self.old.walk answer self.old
            self.new) }
        ensures malformed { (codec : ℕ) (fault : WalkFault) → result ≡ Err (AgendaFault.Malformed codec fault)
            → (codec ≡ slice_index self.old.addresses.items (length self.old.graphs.items))
            × spec.TellsFault self.old.walk answer fault }
        ensures kept { (codec : ℕ) (fault : WalkFault) → result ≡ Err (AgendaFault.Malformed codec fault)
            → (self.new.graphs ≡ self.old.graphs) × (self.new.plans ≡ self.old.plans) }
        ensures nothing { result ≡ Err AgendaFault.NothingRouted
            → spec.TellsNoRoute (T.means setter.now self.old.format TAG) self.old.walk answer
            self.old.addresses.items self.old.graphs.items self.new }
        ensures wanting { result ≡ Err AgendaFault.OutOfMemory
            → words.WasLeft (T.means setter.now self.old.format TAG) self.old.walk answer self.old self.new }
        ensures over { OnErr result (spec.next_of self.new.walk self.new.verbs.items self.new.answered ≡ None) }
        ensures addresses { self.new.addresses ≡ self.old.addresses }
        ensures format { self.new.format ≡ self.old.format }
    {
        match self.walk.take() {
            Some(walk) => {
                self.take_word(setter, walk, answer)?;
                Ok(())
            }
            None => {
                self.answered += 1;
                Ok(())
            }
        }
    }

    /// Takes a word of the walk that is under way.
    fn take_word<T: Setter>(
        &mut self,
        setter: &T,
        walk: Walk,
        answer: u32,
    ) -> Result<(), AgendaFault>
        requires none { self.old.walk ≡ None }
        requires under_way { WalkGoesOn self.old.addresses.items (length self.old.graphs.items) walk }
        requires fresh { self.old.answered ≡ 0 }
        requires unplanned { self.old.plans.items ≡ [] }
        requires verbless { self.old.verbs.items ≡ [] }
        ensures leads { OnOk result (spec.LedByDialogue (T.means setter.now self.old.format TAG)
            (answered (remaining walk) answer)
            self.old.addresses.items self.old.graphs.items self.new) }
        ensures malformed { (codec : ℕ) (fault : WalkFault) → result ≡ Err (AgendaFault.Malformed codec fault)
            → (codec ≡ slice_index self.old.addresses.items (length self.old.graphs.items))
            × spec.GivesFault (answered (remaining walk) answer) fault }
        ensures kept { (codec : ℕ) (fault : WalkFault) → result ≡ Err (AgendaFault.Malformed codec fault)
            → (self.new.graphs ≡ self.old.graphs) × (self.new.plans ≡ self.old.plans) }
        ensures nothing { result ≡ Err AgendaFault.NothingRouted
            → spec.EndsLast (T.means setter.now self.old.format TAG) (answered (remaining walk) answer)
            self.old.addresses.items self.old.graphs.items self.new }
        ensures wanting { result ≡ Err AgendaFault.OutOfMemory
            → words.WasLeftBy (T.means setter.now self.old.format TAG) (answered (remaining walk) answer) self.old
            self.new }
        ensures walkless { OnErr result (self.new.walk ≡ None) }
        ensures verbless { OnErr result (self.new.verbs.items ≡ []) }
        ensures addresses { self.new.addresses ≡ self.old.addresses }
        ensures format { self.new.format ≡ self.old.format }
    {
        let mut walk = walk;
        walk.take(answer)?;
        if walk.next().is_some() {
            self.walk = Some(walk);
            return Ok(());
        }
        self.end_walk(setter, walk)?;
        Ok(())
    }

    /// Ends the walk that is under way: its graph is one of those that were walked, and the next codec is walked or all
    /// are set up.
    fn end_walk<T: Setter>(&mut self, setter: &T, walk: Walk) -> Result<(), AgendaFault>
        requires none { self.old.walk ≡ None }
        requires ends { question (remaining walk) ≡ None }
        requires there { length self.old.graphs.items < length self.old.addresses.items }
        requires tells { TellsOf (slice_index self.old.addresses.items (length self.old.graphs.items))
            (remaining walk) }
        requires fresh { self.old.answered ≡ 0 }
        requires unplanned { self.old.plans.items ≡ [] }
        requires verbless { self.old.verbs.items ≡ [] }
        ensures leads { OnOk result (spec.LedByDialogue (T.means setter.now self.old.format TAG) (remaining walk)
            self.old.addresses.items self.old.graphs.items self.new) }
        ensures malformed { (codec : ℕ) (fault : WalkFault) → result ≡ Err (AgendaFault.Malformed codec fault)
            → (codec ≡ slice_index self.old.addresses.items (length self.old.graphs.items))
            × spec.GivesFault (remaining walk) fault }
        ensures kept { (codec : ℕ) (fault : WalkFault) → result ≡ Err (AgendaFault.Malformed codec fault)
            → (self.new.graphs ≡ self.old.graphs) × (self.new.plans ≡ self.old.plans) }
        ensures nothing { result ≡ Err AgendaFault.NothingRouted
            → spec.EndsLast (T.means setter.now self.old.format TAG) (remaining walk)
            self.old.addresses.items self.old.graphs.items self.new }
        ensures wanting { result ≡ Err AgendaFault.OutOfMemory
            → words.WasLeftBy (T.means setter.now self.old.format TAG) (remaining walk) self.old self.new }
        ensures walkless { OnErr result (self.new.walk ≡ None) }
        ensures verbless { OnErr result (self.new.verbs.items ≡ []) }
        ensures addresses { self.new.addresses ≡ self.old.addresses }
        ensures format { self.new.format ≡ self.old.format }
    {
        let address = self.addresses[self.graphs.len()];
        let graph = graph_of(walk, address)?;
        match self.graphs.push(graph) {
            Ok(()) => {}
            Err(_) => return Err(AgendaFault::OutOfMemory),
        }
        self.go_on(setter)
    }

    /// Goes on to the walk over the next codec, or where none is left to the set-up.
    fn go_on<T: Setter>(&mut self, setter: &T) -> Result<(), AgendaFault>
        requires none { self.old.walk ≡ None }
        requires fresh { self.old.answered ≡ 0 }
        requires unplanned { self.old.plans.items ≡ [] }
        requires verbless { self.old.verbs.items ≡ [] }
        ensures leads { OnOk result (spec.GoesOn (T.means setter.now self.old.format TAG) self.old.addresses.items
            self.old.graphs.items self.new) }
        ensures malformed { (codec : ℕ) (fault : WalkFault) → result ≡ Err (AgendaFault.Malformed codec fault) → ⊥ }
        ensures nothing { result ≡ Err AgendaFault.NothingRouted
            → (length self.old.addresses.items ≤ length self.old.graphs.items)
            × spec.RoutesNothing (T.means setter.now self.old.format TAG) self.old.graphs.items self.new }
        ensures wanting { result ≡ Err AgendaFault.OutOfMemory
            → words.HasPlansLast (T.means setter.now self.old.format TAG) self.new }
        ensures graphs { self.new.graphs ≡ self.old.graphs }
        ensures walkless { OnErr result (self.new.walk ≡ None) }
        ensures verbless { OnErr result (self.new.verbs.items ≡ []) }
        ensures addresses { self.new.addresses ≡ self.old.addresses }
        ensures format { self.new.format ≡ self.old.format }
    {
        if self.graphs.len() < self.addresses.len() {
            self.begin_walk()?;
            Ok(())
        } else {
            self.set_up(setter)?;
            Ok(())
        }
    }

    /// Makes the plans of all graphs and the verbs for them.
    fn set_up<T: Setter>(&mut self, setter: &T) -> Result<(), AgendaFault>
        requires none { self.old.walk ≡ None }
        requires fresh { self.old.answered ≡ 0 }
        requires unplanned { self.old.plans.items ≡ [] }
        requires verbless { self.old.verbs.items ≡ [] }
        ensures begins { OnOk result (spec.BeginsVerbs (T.means setter.now self.old.format TAG) self.old.graphs.items
            self.new) }
        ensures malformed { (codec : ℕ) (fault : WalkFault) → result ≡ Err (AgendaFault.Malformed codec fault) → ⊥ }
        ensures nothing { result ≡ Err AgendaFault.NothingRouted
            → spec.RoutesNothing (T.means setter.now self.old.format TAG) self.old.graphs.items self.new }
        ensures wanting { result ≡ Err AgendaFault.OutOfMemory
            → words.HasPlansOrNone (T.means setter.now self.old.format TAG) self.new }
        ensures graphs { self.new.graphs ≡ self.old.graphs }
        ensures walkless { OnErr result (self.new.walk ≡ None) }
        ensures verbless { OnErr result (self.new.verbs.items ≡ []) }
        ensures addresses { self.new.addresses ≡ self.old.addresses }
        ensures format { self.new.format ≡ self.old.format }
    {
        self.plans = plans_of(self.alloc, setter, &self.graphs, self.format)?;
        if !have_route(&self.plans) {
            return Err(AgendaFault::NothingRouted);
        }
        self.verbs = verbs_of(self.alloc, setter, &self.graphs, &self.plans, self.format)?;
        Ok(())
    }
}

/// The walk over the codec with this address, which tells that codec's words and no other's.
fn walk_over(alloc: Global, address: u8) -> Result<Walk, AllocError>
    requires { address ≤ 14 }
    ensures begins { IfOk result (λ walk. remaining walk ≡ walks.walk address) }
    ensures asks { IfOk result (λ walk. IsSome (question (remaining walk))) }
    ensures tells { IfOk result (λ walk. TellsOf address (remaining walk)) }
{
    asks_what_is_told();
    Walk::new(alloc, address)
}

/// The graph that a walk over the codec with this address told.
fn graph_of(walk: Walk, address: u8) -> Result<Graph, AgendaFault>
    requires ends { question (remaining walk) ≡ None }
    requires tells { TellsOf address (remaining walk) }
    ensures good { IfOk result (GivesGraph (remaining walk)) }
    ensures of_it { IfOk result (λ graph. graph.address ≡ address) }
    ensures malformed { (codec : ℕ) (fault : WalkFault) → result ≡ Err (AgendaFault.Malformed codec fault)
        → (codec ≡ address) × spec.GivesFault (remaining walk) fault }
    ensures routed { result ≡ Err AgendaFault.NothingRouted → ⊥ }
{
    match walk.finish() {
        Ok(graph) => Ok(graph),
        Err(WalkError::Malformed(fault)) => Err(AgendaFault::Malformed {
            codec: address,
            fault,
        }),
        Err(WalkError::OutOfMemory) => Err(AgendaFault::OutOfMemory),
    }
}
