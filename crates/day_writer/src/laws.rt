// Laws of written days, each on a function without code.

ghost use Rattle.day_writer.specs.Laws.{WhatIsReadIsReadAgain, WhatIsReadIsWritable, WhatIsWrittenIsRead};

/// A law, and no code: a day that may be written is read back from its text as it was.
pub fn what_is_written_is_read()
    ensures { WhatIsWrittenIsRead }
{}

/// A law, and no code: every day that was read may be written.
pub fn what_is_read_is_writable()
    ensures { WhatIsReadIsWritable }
{}

/// A law, and no code: a day that was read, written anew, is read as the same day.
pub fn what_is_read_is_read_again()
    ensures { WhatIsReadIsReadAgain }
{}
