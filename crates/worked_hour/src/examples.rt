// The worked examples, as statements that are computed on the definitions.
ghost use Rattle.worked_hour.specs.Calls.{CallExamples};
ghost use Rattle.worked_hour.specs.Edges.{EdgeExamples};
ghost use Rattle.worked_hour.specs.Examples.{WorkedExamples};
ghost use Rattle.worked_hour.specs.File.{FileExamples};
ghost use Rattle.worked_hour.specs.Fractions.{FractionExamples};
ghost use Rattle.worked_hour.specs.Hour.{FullerHour};
ghost use Rattle.worked_hour.specs.Largest.{LargestHour};
ghost use Rattle.worked_hour.specs.Merits.{MeritExamples};
ghost use Rattle.worked_hour.specs.Numbers.{NumberExamples};
ghost use Rattle.worked_hour.specs.Orders.{OrderExamples};
ghost use Rattle.worked_hour.specs.Readings.{ReadingExamples};
ghost use Rattle.worked_hour.specs.Refused.{RefusalTable};
ghost use Rattle.worked_hour.specs.Rooms.{FullTables};
ghost use Rattle.worked_hour.specs.Sample.{SampleHour};
ghost use Rattle.worked_hour.specs.Spelled.{RefusalTexts};
ghost use Rattle.worked_hour.specs.Values.{SmallExamples};

// Does nothing. What it promises is that each worked example holds of the definitions.
pub(crate) fn worked_examples()
    ensures examples { WorkedExamples }
    ensures hour { FullerHour }
    ensures calls { CallExamples }
    ensures refusals { RefusalTable }
    ensures small { SmallExamples }
    ensures file { FileExamples }
    ensures orders { OrderExamples }
    ensures numbers { NumberExamples }
    ensures readings { ReadingExamples }
    ensures fractions { FractionExamples }
    ensures edges { EdgeExamples }
    ensures rooms { FullTables }
    ensures texts { RefusalTexts }
    ensures sample { SampleHour }
    ensures largest { LargestHour }
    ensures merits { MeritExamples }
{}
