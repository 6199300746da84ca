ghost use Rattle.page.specs.Laws.{PackReadsBack, PlainReadsBack, PartsRejoin};

// The reader accepts every page that is packed, and its parts are the page's six streams.
pub fn pages_read_back()
    ensures pack { PackReadsBack }
    ensures plain { PlainReadsBack }
{}

// The parts of any bytes that the reader accepts from their start on, one after the other, are the bytes.
pub fn parts_rejoin()
    ensures { PartsRejoin }
{}
