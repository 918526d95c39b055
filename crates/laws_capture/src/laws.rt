//! Laws of a driver that captures, each the contract of a function that does nothing.
ghost use Rattle.std.specs.Prelude.{◌≡◌, ℕ, List, All, true};
ghost use Rattle.codec_graph.specs.Cycles.{IsWellFormed};
ghost use Rattle.stream_format.specs.declared.format.Format.{Format};
ghost use Rattle.route_planner.specs.declared.routes.Plan.{Plan};
ghost use Rattle.analog_in.specs.Means.{analog_in};
ghost use Rattle.hda_files.specs.declared.machine.CodecFile.{CodecFile};
ghost use Rattle.heard_lists.specs.Listings.{graphs_in as graphs_of};
ghost use Rattle.dma_pool.specs.declared.blocks.Lent.{Lent};
ghost use Rattle.dma_pool.specs.Pools.{PoolState};
ghost use Rattle.command_engine.specs.Blocks.{rirb_bytes};
ghost use Rattle.command_engine.specs.Fetchings.{AscendFrom};
ghost use Rattle.period_writer.specs.declared.geometry.Geometry.{Geometry};
ghost use Rattle.period_writer.specs.Rings.{period_bytes, list_bytes};
ghost use Rattle.period_writer.specs.Blocks.{are_apart, addresses_of, IsBesideAll};
ghost use Rattle.period_writer.specs.Opening.{OpensWriter, GivesBack, HasNoRuns};
ghost use Rattle.audio_driver.specs.Opening.{OpensDriver};
ghost use Rattle.laws_start.specs.Tasks.{HavePlansBy};
ghost use Rattle.laws_start.specs.Starting.{IsAllFree};
ghost use Rattle.laws_capture.specs.Listening.{HearsWhereOpen, RecordsPin};

use driver_bring_up::TAG;
use input_verbs::an_open_input_takes_alone;
use laws_start::a_full_pool_has_room;

/// Where the input of one codec is open in every codec of a machine, the one converter that takes the stream hears the
/// pin of that codec's plan.
pub fn open_inputs_are_heard()
    ensures { (address nid : ℕ) (format : Format) (files : List CodecFile) (plans : List Plan)
        → All IsWellFormed (graphs_of files) → AscendFrom 0 (graphs_of files)
        → HavePlansBy (analog_in address format TAG) files plans → RecordsPin address files plans nid
        → HearsWhereOpen (analog_in address format TAG) (graphs_of files) format nid }
{
    an_open_input_takes_alone();
}

/// The blocks of a driver's writer can be exchanged for those of a recorder: where the driver was opened in a pool of
/// the whole region, of which nothing was taken, no take meets no run; the new blocks are first fits beside CORB and
/// RIRB again, and they have no byte of RIRB.
pub fn recorders_have_room()
    ensures room { (geometry : Geometry) (free pool middle : PoolState) (corb rirb list : ℕ) (periods : List ℕ)
        → IsAllFree free → OpensDriver geometry free corb rirb list periods pool
        → GivesBack geometry pool list periods middle → HasNoRuns geometry middle → ⊥ }
    ensures first_fits { (geometry : Geometry) (before pool middle pool' : PoolState) (corb rirb list list' : ℕ)
        (periods periods' : List ℕ) → OpensDriver geometry before corb rirb list periods pool
        → GivesBack geometry pool list periods middle → OpensWriter geometry middle list' periods' pool'
        → OpensDriver geometry before corb rirb list' periods' pool' }
    ensures apart { (geometry : Geometry) (before pool middle pool' : PoolState) (corb list : ℕ) (rirb list' : Lent)
        (periods : List ℕ) (periods' : List Lent)
        → OpensDriver geometry before corb rirb.address list periods pool
        → GivesBack geometry pool list periods middle
        → OpensWriter geometry middle list'.address (addresses_of periods') pool'
        → IsBesideAll rirb.address rirb_bytes (period_bytes geometry.period) (addresses_of periods')
        × (are_apart rirb.address rirb_bytes list'.address (list_bytes geometry.periods) ≡ true) }
{
    a_full_pool_has_room();
}
