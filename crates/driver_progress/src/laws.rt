//! Laws of progress, each the contract of a function that does nothing. Each worked stretch holds in every world in
//! which just the responses of the list were written to RIRB.
ghost use Rattle.std.specs.Prelude.{◌≡◌, ℕ, List, ◌++◌, ◌∷◌, [], map, true, false, None};
ghost use Rattle.world_steps.specs.declared.Step.{Step};
ghost use Rattle.hda_registers.specs.declared.shapes.Width.TheVariants.{One, Two, Four};
ghost use Rattle.hda_world.specs.Worlds.{World};
ghost use Rattle.hda_world.specs.Events.{Event, Stepped, Read, Write, DmaWrite, after};
ghost use Rattle.period_writer.specs.declared.course.Ran.TheVariants as ran;
ghost use Rattle.driver_progress.specs.declared.phase.Phase.TheVariants.{Settling, Walking, SettingUp, Ready, Playing};
ghost use Rattle.driver_progress.specs.declared.phase.Phase.TheVariants.{Drained, Unanswered, Late};
ghost use Rattle.hda_world.specs.Tellings.{Telling, Makes};
ghost use Rattle.driver_progress.specs.Tasks.{Task, DriverLine};
ghost use Rattle.driver_progress.specs.States.{state_opened};
ghost use Rattle.driver_progress.specs.Progress.{Trail, trail_opened, trail_after, trail_of, Conforms};
ghost use Rattle.driver_progress.specs.Noting.{ArePlain, with_accesses};
ghost use Rattle.driver_progress.specs.Worked as worked;

/// Worked stretches of the reset: its clock is kept, and the codecs have 12,500 ticks from it on to announce
/// themselves.
pub fn resets_are_worked()
    ensures resets { (clock : ℕ) → worked.IsStretch state_opened (worked.run 0) (worked.resetting clock) []
        (record state_opened { phase = Settling; kept = clock }) }
    ensures settles { worked.IsStretch (worked.settling 300) (worked.run 0) (worked.setting_rings 12800) []
        (record (worked.settling 300) { phase = Walking; rings = worked.rings 0 0 None }) }
    ensures early { worked.IsStretch (worked.settling 300) (worked.run 0) (worked.looking 12799) []
        (worked.settling 300) }
{}

/// Worked stretches of commands: just 500,000 ticks after it was submitted a command counts as not answered, and not
/// one tick before. A response that came unasked is no answer, and neither is one of another codec. An answer leads to
/// the next command in the same stretch, the walk's last to the set-up, and the last of all to its end.
pub fn commands_are_worked()
    ensures unanswered { worked.IsStretch (worked.at Walking 1 (worked.rings 1 0 (worked.asked 0x000F0000 12500)))
        (worked.run 0) (worked.polling 512500) []
        (worked.at (Unanswered 0 0x000F0000 12500 512500) 1 (worked.rings 1 0 (worked.asked 0x000F0000 12500))) }
    ensures waiting { worked.IsStretch (worked.at Walking 1 (worked.rings 1 0 (worked.asked 0x000F0000 12500)))
        (worked.run 0) (worked.polling 512499) []
        (worked.at Walking 1 (worked.rings 1 0 (worked.asked 0x000F0000 12500))) }
    ensures unasked { worked.IsStretch (worked.at Walking 1 (worked.rings 1 0 (worked.asked 0x000F0000 12500)))
        (worked.run 0) (worked.reading 13000) (worked.response 0 true ∷ [])
        (worked.at Walking 1 (worked.rings 1 1 (worked.asked 0x000F0000 12500))) }
    ensures other { worked.IsStretch (worked.at Walking 1 (worked.rings 1 0 (worked.asked 0x000F0000 12500)))
        (worked.run 0) (worked.reading 13000) (worked.response 2 false ∷ [])
        (worked.at Walking 1 (worked.rings 1 1 (worked.asked 0x000F0000 12500))) }
    ensures answered { worked.IsStretch (worked.at Walking 1 (worked.rings 1 0 (worked.asked 0x000F0000 12500)))
        (worked.run 0) (worked.reading 13000 ++ worked.submitting) (worked.response 0 false ∷ [])
        (worked.at Walking 2 (worked.rings 2 1 (worked.asked 0x000F0002 13000))) }
    ensures walked { worked.IsStretch (worked.at Walking 2 (worked.rings 2 0 (worked.asked 0x000F0002 12500)))
        (worked.run 0)
        (worked.reading 13000 ++ DmaWrite 12 (0 ∷ 5 ∷ 0x17 ∷ 0 ∷ []) ∷ Write 0x48 Two 3 ∷ [])
        (worked.response 0 false ∷ [])
        (worked.at SettingUp 3 (worked.rings 3 1 (worked.asked 0x00170500 13000))) }
    ensures set_up { worked.IsStretch (worked.at SettingUp 3 (worked.rings 3 0 (worked.asked 0x00170500 12500)))
        (worked.run 0) (worked.reading 13000) (worked.response 0 false ∷ [])
        (worked.at Ready 3 (worked.rings 3 1 None)) }
{}

/// Worked stretches of calls for an interrupt: where there is none, that is looked at and nothing else is done.
pub fn interrupts_are_worked()
    ensures none { worked.IsStretch (worked.at Walking 1 (worked.rings 1 0 (worked.asked 0x000F0000 12500))) worked.irq
        (Read 0x24 Four 0x40000000 ∷ []) (worked.response 0 false ∷ [])
        (worked.at Walking 1 (worked.rings 1 0 (worked.asked 0x000F0000 12500))) }
    ensures rings { worked.IsStretch (worked.at Walking 1 (worked.rings 1 0 (worked.asked 0x000F0000 12500))) worked.irq
        (Read 0x24 Four 0xC0000000 ∷ (worked.reading 13000 ++ worked.submitting)) (worked.response 0 false ∷ [])
        (worked.at Walking 2 (worked.rings 2 1 (worked.asked 0x000F0002 13000))) }
    ensures stream { worked.IsStretch (worked.plays Playing (worked.first_tally ran.Playing)) worked.irq
        (Read 0x24 Four 0x80000002 ∷ Read 0xA3 One 0x24 ∷ Write 0xA3 One 4 ∷ worked.playing 14500 worked.stopping) []
        (worked.plays Drained (worked.second_tally 14500)) }
{}

/// Worked stretches that close a driver: a command's answer is taken, and no command is submitted. A stream that runs
/// is stopped.
pub fn closings_are_worked()
    ensures commands { worked.IsStretch (worked.at Walking 1 (worked.rings 1 0 (worked.asked 0x000F0000 12500))) []
        (worked.reading 13000 ++ worked.shutting) (worked.response 0 false ∷ [])
        (worked.at Walking 1 (worked.rings 1 1 None)) }
    ensures sound { worked.IsStretch (worked.plays Playing (worked.first_tally ran.Playing)) []
        (worked.playing 14500 (worked.stopping ++ worked.shutting)) []
        (worked.plays Drained (worked.second_tally 14500)) }
    ensures reset { worked.IsStretch state_opened [] [] [] state_opened }
{}

/// Worked stretches of the sound: the first run, one that finds all of it played, just in time, and one that ends a
/// tick too late; one that takes silence back, just within its 36 link frames, and one that takes a tick longer.
pub fn runs_are_worked()
    ensures starts { worked.IsStretch (worked.at Ready 3 (worked.rings 3 1 None)) (worked.run 8) worked.starting []
        (worked.plays Playing (worked.first_tally ran.Playing)) }
    ensures drained { worked.IsStretch (worked.plays Playing (worked.first_tally ran.Playing)) (worked.run 0)
        (worked.playing 84500 worked.stopping) []
        (worked.plays Drained (worked.second_tally 84500)) }
    ensures late { worked.IsStretch (worked.plays Playing (worked.first_tally ran.Playing)) (worked.run 0)
        (worked.playing 84501 worked.stopping) []
        (worked.plays (Late 12500 84501 144) (worked.first_tally (ran.Late 12500 84501 144))) }
    ensures takes_back { worked.IsStretch (worked.plays Playing (worked.short_tally ran.Playing 768)) (worked.run 4)
        (worked.taking_back 14500 32500 []) []
        (worked.plays Playing (worked.back_tally 14500 32500)) }
    ensures slow { worked.IsStretch (worked.plays Playing (worked.short_tally ran.Playing 768)) (worked.run 4)
        (worked.taking_back 14500 32501 worked.stopping) []
        (worked.plays (Late 14500 32501 36) (worked.short_tally (ran.Late 14500 32501 36) 352)) }
{}

/// Steps of the device leave a trail as it is.
pub fn steps_leave_a_trail()
    ensures trail { (task : Task) (steps : List Step) (world : World) (trail : Trail)
        → trail_after task (map Stepped steps) world trail ≡ trail }
    ensures conforms { (task : Task) (steps : List Step) (world : World) (trail : Trail)
        → Conforms task (map Stepped steps) world trail }
{}

/// A trail over events in a row goes over the front and then over the back, and the whole conforms where both do.
pub fn trails_go_on()
    ensures trail { (task : Task) (front back : List Event) (world : World) (trail : Trail)
        → trail_after task (front ++ back) world trail ≡ trail_after task back (after front world)
        (trail_after task front world trail) }
    ensures both { (task : Task) (front back : List Event) (world : World) (trail : Trail)
        → Conforms task front world trail
        → Conforms task back (after front world) (trail_after task front world trail)
        → Conforms task (front ++ back) world trail }
    ensures front { (task : Task) (front back : List Event) (world : World) (trail : Trail)
        → Conforms task (front ++ back) world trail
        → Conforms task front world trail }
    ensures back { (task : Task) (front back : List Event) (world : World) (trail : Trail)
        → Conforms task (front ++ back) world trail
        → Conforms task back (after front world) (trail_after task front world trail) }
{}

/// A row of accesses among which no read of RIRBSTS and no write of CORBWP is adds to what a stretch made, and the
/// journal still conforms.
pub fn rows_are_made()
    ensures { (task : Task) (lines : List DriverLine) (made : List Event) (old new : Telling) → Makes made old new
        → ArePlain made
        → (trail_of task lines new ≡ with_accesses (trail_of task lines old) made)
        × (Conforms task old.journal old.start (trail_opened lines)
        → Conforms task new.journal new.start (trail_opened lines)) }
{}
