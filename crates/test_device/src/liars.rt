//! Drivers over rigs of whose memory they are told lies.
ghost use Rattle.std.specs.Prelude.{◌≡◌, false, IfOk, OnOk};
ghost use Rattle.hda_files.specs.Machines.{IsSound};
ghost use Rattle.period_writer.specs.Writers.{ring_size};
ghost use Rattle.rig.specs.Rigs.{setting_of};
ghost use Rattle.rig.specs.Liars.{rig_of};

use crate::drivers::silent_driver;
use audio_driver::{Closed, Driver, ROOM_ACCESSES, ROOM_BYTES};
use hda_files::{Machine, read_machine};
use hda_platform::Step;
use rig::{Liar, Rig};
use route_setup::Analog;
use std::alloc::{AllocError, Global};
use test_cases::number_of;

/// The bytes of the ring of the drivers here.
const RING_BYTES: u32 = 768;

/// What the device does after a call that asks one of the codecs 0 and 2 something.
const ANSWER: [Step; 4] = [Step::Corb, Step::Answer(0), Step::Answer(2), Step::Rirb];

/// How a driver is called while its commands are answered.
#[derive(Clone, Copy)]
pub enum Served {
    /// By runs, the last of them after the last answer.
    ByRuns,
    /// By calls for interrupts, the last of them after the last answer. The first command is asked by a run before
    /// them.
    ByInterrupts,
    /// By runs, the last of them before the last answer, so that the last call of all finds it.
    UpToTheEnd,
}

/// The device makes some steps.
fn make(liar: &mut Liar, steps: &[Step]) -> Result<(), AllocError>
    requires { (setting_of (rig_of liar.old)).in_run ≡ false }
    ensures { (setting_of (rig_of liar.new)).in_run ≡ false }
{
    for step in steps {
        liar.rig().step(step)?;
    }
    Ok(())
}

/// A call, where one is left.
fn call(liar: &mut Liar, driver: &mut Driver<Analog>) -> Result<(), AllocError>
    requires between { (setting_of (rig_of liar.old)).in_run ≡ false }
    requires silent { driver.old.play ≡ false }
    requires ring { ring_size driver.old.writer ≡ 768 }
    ensures between { OnOk result ((setting_of (rig_of liar.new)).in_run ≡ false) }
    ensures silent { driver.new.play ≡ false }
    ensures ring { ring_size driver.new.writer ≡ 768 }
{
    if !driver.has_call_left() {
        return Ok(());
    }
    liar.rig()
        .begin(&[], ROOM_ACCESSES, RING_BYTES + ROOM_BYTES)?;
    let _phase = driver.run(liar, 0)?;
    liar.rig().end();
    Ok(())
}

/// A call for an interrupt, where one is left.
fn interrupt(liar: &mut Liar, driver: &mut Driver<Analog>) -> Result<(), AllocError>
    requires between { (setting_of (rig_of liar.old)).in_run ≡ false }
    requires silent { driver.old.play ≡ false }
    requires ring { ring_size driver.old.writer ≡ 768 }
    ensures between { OnOk result ((setting_of (rig_of liar.new)).in_run ≡ false) }
    ensures silent { driver.new.play ≡ false }
    ensures ring { ring_size driver.new.writer ≡ 768 }
{
    if !driver.has_call_left() {
        return Ok(());
    }
    liar.rig()
        .begin(&[], ROOM_ACCESSES, RING_BYTES + ROOM_BYTES)?;
    let _phase = driver.irq(liar, 0)?;
    liar.rig().end();
    Ok(())
}

/// A call that looks for an answer.
fn look(liar: &mut Liar, driver: &mut Driver<Analog>, served: Served) -> Result<(), AllocError>
    requires between { (setting_of (rig_of liar.old)).in_run ≡ false }
    requires silent { driver.old.play ≡ false }
    requires ring { ring_size driver.old.writer ≡ 768 }
    ensures between { OnOk result ((setting_of (rig_of liar.new)).in_run ≡ false) }
    ensures silent { driver.new.play ≡ false }
    ensures ring { ring_size driver.new.writer ≡ 768 }
{
    match served {
        Served::ByInterrupts => interrupt(liar, driver),
        Served::ByRuns | Served::UpToTheEnd => call(liar, driver),
    }
}

/// The reset, the time in which codecs announce themselves, and the run that ends it.
fn bring_up(liar: &mut Liar, driver: &mut Driver<Analog>, served: Served) -> Result<(), AllocError>
    requires between { (setting_of (rig_of liar.old)).in_run ≡ false }
    requires silent { driver.old.play ≡ false }
    requires ring { ring_size driver.old.writer ≡ 768 }
    ensures between { OnOk result ((setting_of (rig_of liar.new)).in_run ≡ false) }
    ensures silent { driver.new.play ≡ false }
    ensures ring { ring_size driver.new.writer ≡ 768 }
{
    call(liar, driver)?;
    make(liar, &[Step::Link(25)])?;
    call(liar, driver)?;
    match served {
        Served::ByInterrupts => call(liar, driver),
        Served::ByRuns | Served::UpToTheEnd => Ok(()),
    }
}

/// The bring-up, and so many calls after each of which an answer comes; one call more, where the last answer isn't left
/// to the last call of all.
fn serve(
    liar: &mut Liar,
    driver: &mut Driver<Analog>,
    turns: u32,
    served: Served,
) -> Result<(), AllocError>
    requires between { (setting_of (rig_of liar.old)).in_run ≡ false }
    requires silent { driver.old.play ≡ false }
    requires ring { ring_size driver.old.writer ≡ 768 }
    ensures between { OnOk result ((setting_of (rig_of liar.new)).in_run ≡ false) }
    ensures silent { driver.new.play ≡ false }
    ensures ring { ring_size driver.new.writer ≡ 768 }
{
    bring_up(liar, driver, served)?;
    for _turn in 0..turns {
        look(liar, driver, served)?;
        make(liar, &ANSWER)?;
    }
    match served {
        Served::UpToTheEnd => Ok(()),
        Served::ByRuns | Served::ByInterrupts => look(liar, driver, served),
    }
}

/// The last call.
fn close(liar: &mut Liar, driver: Driver<Analog>) -> Result<Closed, AllocError>
    requires between { (setting_of (rig_of liar.old)).in_run ≡ false }
    requires ring { ring_size driver.writer ≡ 768 }
{
    match liar
        .rig()
        .begin(&[], ROOM_ACCESSES, RING_BYTES + ROOM_BYTES)
    {
        Ok(()) => {}
        Err(failed) => {
            let _pool = driver.abandon();
            return Err(failed);
        }
    }
    let closed = driver.close(liar)?;
    liar.rig().end();
    Ok(closed)
}

/// What is left of a driver that was served for so many turns.
fn closed_after(
    liar: &mut Liar,
    mut driver: Driver<Analog>,
    turns: u32,
    served: Served,
) -> Result<Closed, AllocError>
    requires between { (setting_of (rig_of liar.old)).in_run ≡ false }
    requires silent { driver.play ≡ false }
    requires ring { ring_size driver.writer ≡ 768 }
{
    match serve(liar, &mut driver, turns, served) {
        Ok(()) => close(liar, driver),
        Err(failed) => {
            let _pool = driver.abandon();
            Err(failed)
        }
    }
}

/// A rig of this machine, between runs.
fn rig_of_machine(alloc: Global, machine: Machine) -> Result<Rig, AllocError>
    requires { IsSound machine }
    ensures { IfOk result (λ rig. (setting_of rig).in_run ≡ false) }
{
    Rig::new(alloc, machine)
}

/// Lies, of which each has the number of a piece of memory that is read, and what is told of it.
fn read_lies(alloc: Global, words: &[Vec<u8>]) -> Result<Vec<(u32, u32)>, AllocError> {
    let mut lies = Vec::new(alloc);
    for lie in words.chunks(2) {
        if let [number, told] = lie {
            lies.push((number_of(number), number_of(told)))?;
        }
    }
    Ok(lies)
}

/// What is left of a driver that is served for so many turns over this machine, of whose memory these lies are told.
/// `None` where the driver is not opened.
fn closed_over(
    alloc: Global,
    machine: Machine,
    lies: Vec<(u32, u32)>,
    turns: u32,
    served: Served,
) -> Result<Option<Closed>, AllocError>
    requires { IsSound machine }
{
    let mut liar = Liar::new(rig_of_machine(alloc, machine)?, lies);
    match silent_driver(alloc)? {
        Some(driver) => Ok(Some(closed_after(&mut liar, driver, turns, served)?)),
        None => Ok(None),
    }
}

/// What is printed of it.
fn shown(alloc: Global, closed: &Closed) -> Result<String, AllocError> {
    format!(in alloc;
        "{:?}, {} graphs, {} plans, {} commands, {} free",
        closed.phase,
        closed.graphs.len(),
        closed.plans.len(),
        closed.sent,
        closed.pool.free()
    )
}

/// How a driver ends over the machine of a codec file, after so many turns, where these lies are told of what it reads
/// of RIRB.
pub fn tell(alloc: Global, words: &[Vec<u8>], served: Served) -> Result<String, AllocError> {
    let [file, turns, lies @ ..] = words else {
        return format!(in alloc; "no codec");
    };
    let Ok(machine) = read_machine(alloc, file) else {
        return format!(in alloc; "refused");
    };
    let lies = read_lies(alloc, lies)?;
    match closed_over(alloc, machine, lies, number_of(turns), served)? {
        Some(closed) => shown(alloc, &closed),
        None => format!(in alloc; "not opened"),
    }
}
