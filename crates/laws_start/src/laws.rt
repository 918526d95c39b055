//! Laws of what is to be done for machines, each the contract of a function that does nothing.
ghost use Rattle.std.specs.Prelude.{◌≡◌, ℕ, Bool, List, All, length, true};
ghost use Rattle.verb_codes.specs.declared.verbs.Command.{Command};
ghost use Rattle.hda_world.specs.declared.world.TheConstants.{REGION_BYTES};
ghost use Rattle.hda_world.specs.Worlds.{World};
ghost use Rattle.command_engine.specs.Fetchings.{AscendByAddress, graphs_in};
ghost use Rattle.laws_settings.specs.Readings.{KeepsDefaults};
ghost use Rattle.driver_progress.specs.States.{state_opened};
ghost use Rattle.driver_progress.specs.Beginning.{HasOnly};
ghost use Rattle.driver_bring_up.specs.Calls.{state_of, IsTaskOf};
ghost use Rattle.codec_graph.specs.declared.raw.RawCodec.{RawCodec};
ghost use Rattle.stream_format.specs.declared.format.Format.{Format};
ghost use Rattle.route_planner.specs.declared.routes.Plan.{Plan};
ghost use Rattle.driver_agenda.specs.Planned.{have_route};
ghost use Rattle.dma_pool.specs.Pools.{PoolState};
ghost use Rattle.hda_files.specs.declared.machine.Machine.{Machine};
ghost use Rattle.hda_files.specs.Machines.{IsSound};
ghost use Rattle.period_writer.specs.declared.geometry.Geometry.{Geometry};
ghost use Rattle.driver_progress.specs.Tasks.{Blocks, Task};
ghost use Rattle.driver_bring_up.specs.declared.bringing.BringUp.{BringUp};
ghost use Rattle.audio_driver.specs.Opening.{OpensDriver, IsOpened, HasNoRuns};
ghost use Rattle.period_writer.specs.Writers.{WriterState, periods_of, ring_of};
ghost use Rattle.rig.specs.Replays.{start_of};
ghost use Rattle.laws_stream.specs.Resting.{Rests, AreApartFrom};
ghost use Rattle.laws_bring_up.specs.Standing.{IsTaskOfCodecs, IsBroughtUp};
ghost use Rattle.heard_lists.specs.Listings.{graphs_in as graphs_of};
ghost use Rattle.laws_start.specs.Tasks.{HavePlansBy, verbs_meant, task_meant, blocks_of};
ghost use Rattle.laws_start.specs.Reading.{IsRead, IsWhole};
ghost use Rattle.laws_start.specs.Starting.{BeginsAt, IsAllFree};

use driver_bring_up::TAG;
use route_setup::Setter;

/// A machine that a codec file describes has well-formed graphs, of four codecs at most, and each codec begins with
/// settings of its graph that have the configuration default of each pin. Its FIFO has 8 to 4,096 bytes.
pub fn read_machines_are_whole()
    ensures { (machine : Machine) → IsSound machine → IsRead machine → IsWhole machine }
{}

/// What is to be done for a machine of which some pin has a route, with any ring of periods, sound and blocks, is the
/// task of its codecs: the walks over them, and then the set-up verbs of each by its plan.
pub fn machines_have_tasks<T: Setter>()
    ensures { (setter : T) (format : Format) (machine : Machine) (plans : List Plan) (geometry : Geometry)
        (plays : Bool)
        (pcm : List ℕ) (blocks : Blocks)
        → IsSound machine → IsWhole machine → HavePlansBy (T.means setter format TAG) machine.codecs plans
        → have_route plans ≡ true
        → IsTaskOfCodecs (T.means setter format TAG)
        (verbs_meant (T.means setter format TAG) machine.codecs plans) (graphs_of machine.codecs)
        (task_meant (T.means setter format TAG) machine plans geometry plays pcm blocks) }
{}

/// A driver that was just opened, for any number of calls, stands to the start of a machine as its task asks, and
/// nothing was done yet.
pub fn opened_drivers_can_begin<T: Setter>()
    ensures { (setter : T) (format : Format) (machine : Machine) (plans : List Plan) (geometry : Geometry)
        (plays : Bool)
        (pcm : List ℕ) (most : ℕ) (bring_up : BringUp) (writer : WriterState)
        → IsSound machine → IsWhole machine → IsOpened geometry most bring_up writer
        → BeginsAt (T.means setter format TAG) machine plans
        (task_meant (T.means setter format TAG) machine plans geometry plays pcm (blocks_of bring_up writer)) bring_up }
{}

/// A driver that was just opened stands to every world of which nothing was asked yet, for each task with its blocks:
/// codecs stand by address, none but these announced itself, they have their pins' configuration defaults, and CORB's
/// engine does not run. Nothing was done yet.
pub fn opened_drivers_stand<T: Setter>()
    ensures { (setter : T) (format : Format) (verbs : RawCodec → List Command) (task : Task) (geometry : Geometry)
        (most : ℕ) (bring_up : BringUp) (writer : WriterState) (world : World)
        → IsOpened geometry most bring_up writer → IsTaskOf bring_up task → length world.memory ≡ REGION_BYTES
        → AscendByAddress world.codecs → HasOnly world
        → world.registers.global.corb_run ≡ 0 → All KeepsDefaults world.codecs
        → IsBroughtUp (T.means setter format TAG) verbs (graphs_in world.codecs) task 0 bring_up world
        × (state_of bring_up ≡ state_opened) }
{}

/// In a pool that fills the region and of which nothing is taken there are runs for the blocks of a driver with any
/// ring of periods.
pub fn a_full_pool_has_room()
    ensures { (geometry : Geometry) (pool : PoolState) → IsAllFree pool → HasNoRuns geometry pool → ⊥ }
{}

/// At the start of a machine no stream runs.
pub fn machines_rest()
    ensures { (machine : Machine) → Rests machine.fifo (start_of REGION_BYTES machine) }
{}

/// The blocks that a driver took when it was opened lie apart: those of its ring have no byte of RIRB.
pub fn opened_blocks_lie_apart()
    ensures { (geometry : Geometry) (pool pool' : PoolState) (bring_up : BringUp) (writer : WriterState)
        → writer.geometry ≡ geometry
        → OpensDriver geometry pool bring_up.engine.corb.address bring_up.engine.rirb.address writer.list.address
        (periods_of writer) pool'
        → AreApartFrom (ring_of writer) bring_up.engine.rirb.address }
{}
