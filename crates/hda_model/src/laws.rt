//! Laws of device models, each the contract of a function that does nothing.
ghost use Rattle.std.specs.Prelude.{◌≡◌, ℕ, List};
ghost use Rattle.hda_world.specs.Worlds.{World};
ghost use Rattle.hda_model.specs.Models.{ModelState, StandsSince, with_memory};

/// The memory is the caller's, who may change it between two calls in every way: then the model stands for the world
/// with that memory.
pub fn lent_memory_may_change()
    ensures { (old new : List ℕ) (model : ModelState) (forgotten : ℕ) (world : World)
        → StandsSince old model forgotten world → StandsSince new model forgotten (with_memory new world) }
{}

/// Whatever world a model stands for, its registers, its codecs, its memory, the sound that its input pins are given and
/// what came to its input stream are those of that world.
pub fn stands_for_one()
    ensures registers { (memory : List ℕ) (model : ModelState) (forgotten : ℕ) (world : World)
        → StandsSince memory model forgotten world → world.registers ≡ model.controller.device.registers }
    ensures codecs { (memory : List ℕ) (model : ModelState) (forgotten : ℕ) (world : World)
        → StandsSince memory model forgotten world → world.codecs ≡ model.controller.device.codecs }
    ensures memory { (memory : List ℕ) (model : ModelState) (forgotten : ℕ) (world : World)
        → StandsSince memory model forgotten world → world.memory ≡ memory }
    ensures given { (memory : List ℕ) (model : ModelState) (forgotten : ℕ) (world : World)
        → StandsSince memory model forgotten world → world.given ≡ model.controller.device.input.given }
    ensures came { (memory : List ℕ) (model : ModelState) (forgotten : ℕ) (world : World)
        → StandsSince memory model forgotten world → world.came ≡ model.came }
{}
