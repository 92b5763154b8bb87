//! Laws of the format. The function is empty: its contract is the law.

ghost use Rattle.channel_values.specs.Spelled.{SpelledOnce, WrittenBack, ReadAgain, FrontsFail, TrailingFails};
ghost use Rattle.run_record.specs.Limits.{IsRecord};
ghost use Rattle.run_record.specs.Reading.{record_of};
ghost use Rattle.run_record.specs.Spelling.{run_record};

/// A record and its bytes determine each other.
pub fn laws_of_records()
    ensures once { SpelledOnce run_record IsRecord }
    ensures back { WrittenBack record_of run_record }
    ensures again { ReadAgain record_of run_record IsRecord }
    ensures fronts { FrontsFail record_of }
    ensures trailing { TrailingFails record_of run_record IsRecord }
{}
