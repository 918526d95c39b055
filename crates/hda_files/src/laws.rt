//! Laws of codec files, each the contract of a function that does nothing.
ghost use Rattle.std.specs.Prelude.{ℕ, List, Result, IfOk, All, Contains};
ghost use Rattle.toml.specs.Data.{Members};
ghost use Rattle.hda_files.specs.declared.machine.Machine.{Machine};
ghost use Rattle.hda_files.specs.declared.fault.FileFault.{FileFault};
ghost use Rattle.hda_files.specs.Machines.{IsReadingOfBytes, IsOnlyReading, by_address};
ghost use Rattle.hda_files.specs.Tops.{machine_table_of};

/// Bytes have at most one reading: what a codec file means is one machine or one fault.
pub fn one_reading()
    ensures { (bytes : List ℕ) (result : Result Machine FileFault) → IsReadingOfBytes bytes result
        → IsOnlyReading bytes result }
{}

/// No codec of a file is left out: where the keys are good, each table of the array `codec` stands among those that are
/// taken ascending by address.
pub fn keeps_each_codec()
    ensures { (top : Members) → IfOk (machine_table_of top) (λ table. All (Contains (by_address table.codecs))
        table.codecs) }
{}
