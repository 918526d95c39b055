//! A law of the made machine, the contract of a function that does nothing.
ghost use Rattle.codec_graph.specs.Cycles.{IsWellFormed};
ghost use Rattle.made_inputs.specs.MadeMachine.{made_codec};

/// The graph of the made machine's codec is well-formed.
pub fn made_codec_is_well_formed()
    ensures { IsWellFormed made_codec }
{}
