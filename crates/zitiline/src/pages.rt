ghost use Rattle.std.specs.Prelude.{◌≡◌};
ghost use Rattle.zitiline.specs.Pages.{page_text};

use crate::words::Page;

/// The page in full.
pub fn page_text(page: Page) -> &'static [u8]
    ensures { result.now ≡ page_text page }
{
    match page {
        Page::Help => b"usage: zitiline WORD, with input and output redirected\n\
              encode   lines to frames\n\
              decode   frames to lines, as they come\n\
              trace    lines of sessions to a trace\n\
              replies  tagged replies to lines, as they come\n\
              check    lines to all faults that they have for encode\n\
              answers  lines, a line ---, and the lines of decode, to each line with its answer\n\
              help     these lines\n\
              version  the version of the lines\n",
        Page::Version => b"zitiline 1\n",
    }
}
