//! A law alone: where the bytes of a record are cut off, that is the fault, and its place.

ghost use Rattle.channel_values.specs.Spelled.{FrontsCut};
ghost use Rattle.run_record.specs.Limits.{IsRecord};
ghost use Rattle.run_record.specs.Reading.{record_of};
ghost use Rattle.run_record.specs.Spelling.{run_record};

/// Each proper front of a record's bytes ends too early, and its end is the place of the fault.
pub fn fronts_of_records_are_cut()
    ensures { FrontsCut record_of run_record IsRecord }
{}
