//! A law of events, the contract of a function that does nothing.
ghost use Rattle.std.specs.Prelude.{ℕ, List, All};
ghost use Rattle.command_engine.specs.Entries.{responses_in, unasked_events_of};
ghost use Rattle.driver_bring_up.specs.Jacks.{IsOfPin};

/// The events that entries of RIRB tell can all be counted: an entry has 4 bits for the codec and 6 for the tag (HDA
/// 1.0a, 4.4.2 and 7.3.3.14).
pub fn events_are_of_pins()
    ensures { (entries : List (List ℕ)) → All IsOfPin (unasked_events_of (responses_in entries)) }
{}
