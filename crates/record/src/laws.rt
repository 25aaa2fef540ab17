// What is proved of the definitions, for digests of every width.
ghost use Rattle.record.specs.Laws.{RecordLaws};

use cipher::words::Words;

// Each record reads back as itself, and no second spelling of it is read.
pub fn record_laws<D: Words>()
    ensures { RecordLaws D.Words.width }
{}
