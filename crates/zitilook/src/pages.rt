ghost use Rattle.std.specs.Prelude.{◌≡◌};
ghost use Rattle.zitilook.specs.Pages.{page_text};

use crate::words::Page;

/// The page in full.
pub fn page_text(page: Page) -> &'static [u8]
    ensures { result.now ≡ page_text page }
{
    match page {
        Page::Help => b"usage: zitilook WORD, in the folder that is looked at\n\
              list KIND             the records of a kind, a line each\n\
              show KIND NAME        one of them by its name; terminators and circuits by their numbers\n\
              why IDENTITY SERVICE  each rule of a circuit of the two, and what meets or fails it\n\
              who SERVICE           the identities that may dial a service, and the policies that grant it\n\
              dump                  lines of the commands that make the like of the folder's state\n\
              picture [CIRCUIT]     the network as Mermaid, and in it the way of the circuit of this number\n\
              doctor                what is wrong with the files of the folder, and the way back\n\
              diff OTHER            the changes that lead from its state to that of the folder OTHER, a line each\n\
              plan                  what the commands of the lines on standard input would change, and which are refused\n\
              help                  these lines\n\
              version               the version of the lines\n\
              KIND is identities, services, routers, links, service-policies, edge-router-policies, service-edge-router-policies, terminators, circuits or intercepts\n",
        Page::Version => b"zitilook 1\n",
    }
}
